use crate::values::promise::Promise;
use pool_base::{NodeId, Party, RiderId, Second};

/// A rider who waits for a vehicle, with or without a promise.
#[derive(Clone, Copy, PartialEq, Eq)]
pub struct Rider {
    pub id: RiderId,
    pub origin: NodeId,
    pub destination: NodeId,
    /// When the trip was asked for.
    pub time: Second,
    pub party: Party,
    pub promise: Option<Promise>,
}
