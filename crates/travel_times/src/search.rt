//! One search: the shortest times from a node to all others, over hops in memory. The rows of a table and the
//! labels are made by it. It names no other room.

pub(crate) mod arcs;
pub(crate) mod ring;
pub(crate) mod search;
pub(crate) mod short_hop;
