ghost use Rattle.rider_limits.specs.Range.{AreInRange};

use crate::load_shape::LoadShape;

/// What the program does.
#[derive(Clone, Copy)]
pub enum Mode {
    /// It reads a network, a fleet and a script, and reports each batch.
    Run,
    /// It makes a workload of this shape, and sums up each batch.
    Load(LoadShape),
    /// It reads a network, a fleet and a day of requests and seals, drives the vehicles by the plans, and reports
    /// each batch and what is entered.
    Drive,
    /// It reads a network, a fleet, a script and a printed report, and says whether the report is one of that script.
    Audit,
}

/// How a batch comes by its travel times.
#[derive(Clone, Copy)]
pub enum TimesWay {
    /// By one search for each of its points.
    Rows,
    /// By labels of all nodes, which are made once, before the first batch.
    Labels,
}

/// The settings of a run. The type keeps each number within its range.
#[derive(Clone, Copy)]
pub struct Settings {
    pub mode: Mode,
    /// The longest time from a request to its pickup, in seconds, 0 to 7,200.
    pub wait: u32,
    /// The greatest delay of a drop-off, in seconds, 0 to 7,200.
    pub delay: u32,
    /// The most riders of a trip, 1 to 6.
    pub trip: u8,
    /// What a rider who is left out costs, in seconds, 0 to 1,000,000,000.
    pub penalty: u32,
    /// The most nodes of a search tree, 1 to 50,000.
    pub budget: u32,
    /// The most rows of a trip graph, 1 to 2,000,000.
    pub pairs: u32,
    /// The threads that grow a trip graph, 1 to 64.
    pub workers: u8,
    /// Whether the report prints the search trees.
    pub proof: bool,
    /// What each stop takes, in seconds, 0 to 600.
    pub dwell: u16,
    /// How a batch comes by its travel times.
    pub times: TimesWay,
    pub ghost in_range: { AreInRange wait delay trip penalty budget pairs workers dwell },
}
