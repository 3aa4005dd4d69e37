/// The vehicle can serve the rider alone. Both are numbers of a settled batch.
#[derive(Clone, Copy)]
pub struct RvEdge {
    pub vehicle: usize,
    pub rider: usize,
}
