//! What a batch comes to: its edges, rows, late vehicles, trips, riders left out and moves, told in the
//! files' ids. `solving` puts an outcome together of these, and an audit makes the same lists again. Its
//! definitions name those of `limits`, its code names no other room.

pub(crate) mod instance;
pub(crate) mod late;
pub(crate) mod left;
pub(crate) mod lines;
pub(crate) mod moves;
pub(crate) mod point;
pub(crate) mod told;
pub(crate) mod trips;
