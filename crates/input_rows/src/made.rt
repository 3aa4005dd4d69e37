//! The texts of a network, a fleet and a script, made from a seed, and what the readers make of them. The
//! crates above call it. It names the rooms `script` and `fleet`.

mod draw;
mod fleet;
pub(crate) mod law;
mod network;
pub(crate) mod reading;
pub(crate) mod row;
mod script;
pub(crate) mod texts;
