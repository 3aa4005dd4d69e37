ghost use Rattle.std.specs.Prelude.{◌≡◌};
ghost use Rattle.request_book.specs.values.Rider.{is_active};

use crate::values::promise::Promise;
use pool_base::{NodeId, Party, RiderId, Second, VehicleId};

/// Where a rider's request stands.
#[derive(Clone, Copy)]
pub enum Status {
    Waiting,
    Promised(Promise),
    Aboard(VehicleId),
    Cancelled,
    Delivered,
    Expired,
}

/// A rider of the book.
#[derive(Clone, Copy)]
pub struct BookRider {
    pub id: RiderId,
    pub origin: NodeId,
    pub destination: NodeId,
    /// When the trip was asked for.
    pub time: Second,
    pub party: Party,
    pub status: Status,
}

/// Whether the rider waits or has a promise.
pub(crate) fn is_active(status: Status) -> bool
    ensures { result ≡ is_active status }
{
    matches!(status, Status::Waiting | Status::Promised(_))
}
