ghost use Rattle.rider_limits.specs.Range.{AreWorkersInRange};

use crate::settings::TimesWay;

/// What the words of `resume` say beside the names of its files. All other settings are the report's own.
#[derive(Clone, Copy)]
pub struct ResumeWords {
    /// The threads that grow a trip graph, 1 to 64.
    pub workers: u8,
    /// How a batch comes by its travel times.
    pub times: TimesWay,
    /// Whether the outcomes that the report tells are judged.
    pub judge: bool,
    pub ghost in_range: { AreWorkersInRange workers },
}
