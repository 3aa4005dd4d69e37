use arrayvec::ArrayVec;

/// A trip that a vehicle can serve: its riders by rising index, and the least delay of an order that
/// serves it, in seconds.
#[derive(Drop)]
pub struct TripOf {
    pub riders: ArrayVec<usize, 6>,
    pub cost: u64,
}
