//! What the book speaks of: riders, vehicles, promises, commands, replies, outcomes, entries of a journal,
//! and what a batch sees. The other rooms and the crates above call it. It names no other room.

pub(crate) mod batch_rider;
pub(crate) mod command;
pub(crate) mod fleet;
pub(crate) mod journal;
pub(crate) mod outcome;
pub(crate) mod passenger;
pub(crate) mod promise;
pub(crate) mod reply;
pub(crate) mod rider;
pub(crate) mod snapshot;
pub(crate) mod state;
pub(crate) mod vehicle;
