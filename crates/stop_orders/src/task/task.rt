use crate::Leg;
use arrayvec::ArrayVec;

/// A vehicle, its passengers, and the riders of a trip: what an order of stops is sought for.
#[derive(Drop)]
pub struct Task {
    /// The place where the vehicle is.
    pub start: usize,
    /// The second from which on it can leave.
    pub ready: u64,
    /// How many seconds each stop takes.
    pub dwell: u16,
    pub seats: u8,
    /// The passengers: who was picked up before, and still has to be dropped off.
    pub aboard: ArrayVec<Leg, 10>,
    /// The riders of the trip.
    pub riders: ArrayVec<Leg, 6>,
}
