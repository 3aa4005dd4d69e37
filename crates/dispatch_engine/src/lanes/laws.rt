//! What holds of all runs of one input: a call with no code, whose clause is the law.
ghost use Rattle.std.specs.Prelude.{ℕ, All, List};
ghost use Rattle.std.specs.List.{AllZip};
ghost use Rattle.request_book.specs.declared.values.journal.Journal.{Journal};
ghost use Rattle.request_book.specs.declared.values.state.State.{State};
ghost use Rattle.rider_limits.specs.declared.settings.Settings.{Settings};
ghost use Rattle.road_network.specs.Roads.{Roads};
ghost use Rattle.input_rows.specs.script.Round.{NumberedLanes};
ghost use Rattle.dispatch_engine.specs.lanes.Run.{IsRun};
ghost use Rattle.dispatch_engine.specs.lanes.Same.{HaveSameCommands, IsInLaneZero};

/// Where every command of some rounds stands in lane 0, the commands of a run follow from the input, each
/// close taken by the number of its batch: any two runs of the rounds from one state have the same.
pub fn commands_follow_from_the_input()
    ensures { (settings : Settings) (roads : Roads) (s : State) (position : ℕ) (rounds : List NumberedLanes) (one other : List Journal)
        → All IsInLaneZero rounds → IsRun settings roads s position rounds one → IsRun settings roads s position rounds other
        → AllZip HaveSameCommands one other }
{}
