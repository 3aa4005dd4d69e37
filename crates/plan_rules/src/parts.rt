use crate::row::TripRow;

/// What a trip graph is made of, before it is judged.
#[derive(Drop)]
pub struct Parts {
    pub vehicles: usize,
    pub riders: usize,
    pub penalty: u32,
    pub rows: Vec<TripRow>,
    pub held: Vec<Option<u32>>,
}
