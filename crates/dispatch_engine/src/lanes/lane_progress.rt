/// How many commands of a lane were taken, and the batch that it sealed and hasn't closed.
#[derive(Clone, Copy)]
pub struct LaneProgress {
    pub taken: usize,
    pub pending: Option<u64>,
}
