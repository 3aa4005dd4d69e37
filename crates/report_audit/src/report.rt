//! A whole report, audited: its head, the entries of each round against the book and the lanes, the block of
//! each close, and the end. The top calls it by `audit`. It names `lines` and `block`.

mod close;
mod context;
mod entry;
pub(crate) mod fault;
pub(crate) mod laws;
pub(crate) mod line;
pub(crate) mod report;
mod round;
