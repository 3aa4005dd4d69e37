//! What a vehicle has to do: legs, stops, the task, the settled batch, and what an order of its stops is.
//! Crates above build tasks here, and the search reads them. It names no other room.

pub(crate) mod done;
pub(crate) mod leg;
pub(crate) mod order;
pub(crate) mod route;
pub(crate) mod settled;
pub(crate) mod settled_rider;
pub(crate) mod settled_vehicle;
pub(crate) mod stop;
pub(crate) mod task;
pub(crate) mod trip;
pub(crate) mod visit;
