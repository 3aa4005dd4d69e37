use crate::values::rider::Status;
use pool_base::{Second, VehicleId};

/// What the book answers.
#[derive(Clone, Copy)]
pub enum Reply {
    Accepted,
    Cancelled,
    Placed,
    Picked,
    Dropped,
    Sealed { batch: u64 },
    Closed,
    Refused(BookRefusal),
}

/// Why a command is refused. A refused command changes nothing.
#[derive(Clone, Copy)]
pub enum BookRefusal {
    /// A rider of this id is in the book, of any status.
    DuplicateRider,
    /// The origin, the destination or the reported node isn't in the network.
    UnknownNode,
    /// Origin and destination are the same node.
    SamePlace,
    /// 1,000 riders wait or have a promise.
    PoolFull,
    /// The book has 100,000 riders.
    BookFull,
    /// No rider of this id is in the book.
    UnknownRider,
    /// The rider is aboard of this vehicle.
    IsAboard { vehicle: VehicleId },
    /// The rider is cancelled, delivered or expired.
    Ended { status: Status },
    /// No vehicle of this id is in the fleet.
    UnknownVehicle,
    /// The second is below the vehicle's last one.
    TimeBack { last: Second },
    /// The rider waits, or is promised to another vehicle, the holder.
    NotPromised { holder: Option<VehicleId> },
    /// The rider's party doesn't fit into the free seats.
    VehicleFull,
    /// The rider isn't aboard of this vehicle.
    NotAboard,
    /// A batch is sealed and not closed.
    BatchOpen { batch: u64 },
    /// The second is below that of the last seal.
    ClockBack { last: Second },
    /// No batch is sealed, or one of another number.
    NotThisBatch { current: Option<u64> },
}
