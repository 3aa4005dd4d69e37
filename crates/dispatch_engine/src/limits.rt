//! The limits of a batch: which promises are live, late or lapsed, and which seconds hold for every rider.
//! `solving` calls `settle`. It names no other room.

mod kept_riders;
mod promised;
mod requests;
mod serving;
mod settled_vehicles;
pub(crate) mod settling;
