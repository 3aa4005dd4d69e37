use crate::vehicle::trip_of::TripOf;
use stop_orders::Workspace;

/// What changes while a vehicle's rows of one size are grown.
#[derive(Drop)]
pub struct Growing {
    pub workspace: Workspace,
    /// The rows found so far.
    pub found: Vec<TripOf>,
    /// Where the last pair was looked up.
    pub near: usize,
}
