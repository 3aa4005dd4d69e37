use request_book::Journal;

/// A round of a driven day.
#[derive(Drop)]
pub struct DayRound {
    pub number: u32,
    pub journal: Journal,
}

/// Why a day wasn't driven to its end.
#[derive(Clone, Copy)]
pub enum DriveFault {
    /// A second above 1,000,000,000 would be entered into this round.
    TooLate { round: u32 },
    OutOfMemory,
}
