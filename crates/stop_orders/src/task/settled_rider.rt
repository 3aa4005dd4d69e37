use crate::Leg;
use pool_base::RiderId;

/// A rider of a batch who waits, with the limits that hold for every vehicle.
#[derive(Clone, Copy)]
pub struct SettledRider {
    pub id: RiderId,
    pub leg: Leg,
    /// Whether a promise was made that its vehicle can't keep any more.
    pub lapsed: bool,
}
