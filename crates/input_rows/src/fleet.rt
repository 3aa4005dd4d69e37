//! The rows of a fleet, read into vehicles by rising id. The crates above call it, and so does the room
//! `made`. It names `cells`.

pub(crate) mod fault;
mod fields;
mod place;
pub(crate) mod reading;
