//! Hub labels: how they are made, how they are checked, and times from them. A network that stays is labelled
//! once, and batches read their tables here. It names `search` and `table`.

mod checked;
mod draft;
pub(crate) mod fault;
mod hops;
pub(crate) mod hub;
mod hub_search;
mod in_common;
pub(crate) mod label;
pub(crate) mod label_ways;
pub(crate) mod labels;
mod rank;
mod space;
mod via;
