use pool_base::Times;
use stop_orders::{PairList, Settled};

/// What the growth of one vehicle's trips works on.
#[derive(Drop)]
pub struct Growth<'a> {
    pub settled: &'a Settled,
    pub times: &'a Times,
    pub pairs: &'a PairList,
    pub vehicle: usize,
    /// How many rows there may be.
    pub room: u64,
}
