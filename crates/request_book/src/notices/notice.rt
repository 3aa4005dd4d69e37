use pool_base::{RiderId, VehicleId};

/// What a rider of a closed batch is told.
#[derive(Clone, Copy)]
pub enum Notice {
    /// The vehicle comes at the pickup's second, and the rider arrives at the drop-off's.
    Promised {
        batch: u64,
        rider: RiderId,
        vehicle: VehicleId,
        pickup: u64,
        dropoff: u64,
    },
    /// No trip of the plan takes the rider.
    Unserved {
        batch: u64,
        rider: RiderId,
    },
}
