use crate::values::rider::BookRider;
use crate::values::snapshot::Snapshot;
use crate::values::vehicle::Vehicle;
use pool_base::{Second, Sequence};

/// All riders and vehicles of a book at one moment.
#[derive(Drop)]
pub struct State {
    /// In the order in which they were accepted.
    pub riders: Sequence<BookRider>,
    /// By rising id.
    pub vehicles: Sequence<Vehicle>,
    /// The second of the last seal.
    pub last_seal: Option<Second>,
    /// The batch that is sealed and not closed.
    pub sealed: Option<Snapshot>,
    /// How many batches were sealed.
    pub batches: u64,
}
