//! When the stops of an order are made, whether it serves, and the search through labels for the least delay.
//! Trip graphs, drives and audits call it. It names `task` and `validity`.

mod ahead;
mod candidate;
pub(crate) mod cost;
mod label;
pub(crate) mod label_store;
pub(crate) mod least;
pub(crate) mod plain;
pub(crate) mod position;
mod search;
pub(crate) mod serving;
pub(crate) mod unlimited;
