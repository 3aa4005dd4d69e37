ghost use Rattle.rider_limits.specs.Range.{IsShapeInRange};

/// How large a made workload is, and the seed that it is drawn from. Its type keeps each number within
/// its range.
#[derive(Clone, Copy)]
pub struct LoadShape {
    /// 0 to 1,000,000,000.
    pub seed: u64,
    /// Nodes along one side of the square network, 2 to 100.
    pub side: u32,
    /// 1 to 500.
    pub vehicles: u32,
    /// Requests of each round, 1 to 1,000.
    pub riders: u32,
    /// Batches, 1 to 100.
    pub rounds: u32,
    pub ghost in_range: { IsShapeInRange seed side vehicles riders rounds },
}
