use crate::Leg;
use arrayvec::ArrayVec;
use pool_base::{RiderId, VehicleId};

/// A vehicle of a batch.
#[derive(Drop)]
pub struct SettledVehicle {
    pub id: VehicleId,
    /// The place where it is.
    pub start: usize,
    /// The second from which on it can leave.
    pub ready: u64,
    pub seats: u8,
    /// The passengers' legs, and beside them their ids.
    pub aboard: ArrayVec<Leg, 10>,
    pub aboard_ids: ArrayVec<RiderId, 10>,
    /// Whether no order serves its passengers.
    pub late: bool,
    /// The riders that it has to keep, as numbers of the batch's riders, rising.
    pub held: ArrayVec<usize, 6>,
}
