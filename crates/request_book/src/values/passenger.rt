use pool_base::{NodeId, Party, RiderId, Second};

/// A rider who was picked up and not yet dropped.
#[derive(Clone, Copy, Default, PartialEq, Eq)]
pub struct Passenger {
    pub rider: RiderId,
    pub origin: NodeId,
    pub destination: NodeId,
    /// When the trip was asked for.
    pub time: Second,
    pub party: Party,
}
