//! The table of times between the points of a batch, by sweeps over the part of a hierarchy that they need. It names
//! `sweeps` and `build`.

pub(crate) mod cells;
pub(crate) mod part;
pub(crate) mod same;
pub(crate) mod ways;
