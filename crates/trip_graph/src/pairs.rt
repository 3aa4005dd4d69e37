//! The edges between vehicles and riders, and those between two riders. The batch's graph and tests call it.
//! It names no other room.

pub(crate) mod rider_rider_graph;
pub(crate) mod rider_vehicle_graph;
pub(crate) mod rv_edge;
