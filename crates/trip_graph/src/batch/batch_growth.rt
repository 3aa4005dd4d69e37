use pool_base::Times;
use stop_orders::{PairList, Settled};

/// What all growth of a batch works on: its vehicles and riders, their travel times, and the edges between
/// riders.
#[derive(Drop)]
pub struct BatchGrowth<'a> {
    pub settled: &'a Settled,
    pub times: &'a Times,
    pub pairs: &'a PairList,
}
