//! The table of times between the points of a batch, a search for each row, in parallel. Whoever solves a
//! batch calls it by `Ways`. It names `search`.

pub(crate) mod plain;
mod rows;
pub(crate) mod table;
pub(crate) mod ways;
