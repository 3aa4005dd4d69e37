use arrayvec::ArrayVec;

/// A row of a trip graph: a vehicle can serve these riders together, at this cost.
///
/// Vehicles and riders are numbers from 0; the riders rise. The cost is in seconds.
#[derive(Drop)]
pub struct TripRow {
    pub vehicle: usize,
    pub riders: ArrayVec<usize, 6>,
    pub cost: u64,
}
