//! Laws of days that go on: each is a call with no code, whose clause is the law.
ghost use Rattle.std.specs.Prelude.{◌≡◌, ◌++◌, ℕ, List, All, Some};
ghost use Rattle.dispatch_engine.specs.lanes.Run.{IsRun, position_after_run, state_after_run};
ghost use Rattle.dispatch_engine.specs.outcome.Outcome.{IsGoodOutcome};
ghost use Rattle.dispatch_report.specs.Round.{entry_text};
ghost use Rattle.input_rows.specs.declared.script.script_row.ScriptRow.{ScriptRow};
ghost use Rattle.live_dispatch.specs.Live.{journals_text, rows_rounds, rows_text};
ghost use Rattle.pool_io.specs.Faults.{one_more};
ghost use Rattle.report_past.specs.Past.{last_round};
ghost use Rattle.report_past.specs.Told.{AreScriptRows, IsLater, IsToldRun, PastIsGood, close_of, closed_with};
ghost use Rattle.request_book.specs.Book.{opening};
ghost use Rattle.request_book.specs.register.Step.{step};
ghost use Rattle.request_book.specs.values.Batch.{Batch};
ghost use Rattle.request_book.specs.declared.values.journal.Journal.{Journal};
ghost use Rattle.request_book.specs.declared.values.outcome.Outcome.{Outcome};
ghost use Rattle.request_book.specs.declared.values.state.State.{State};
ghost use Rattle.request_book.specs.declared.values.vehicle.Vehicle.{Vehicle};
ghost use Rattle.rider_limits.specs.declared.settings.Settings.{Settings};
ghost use Rattle.road_network.specs.Roads.{Roads};

/// What journals tell, where their closes are good, and a run of rows of later rounds from where they end, are one run,
/// and its text is that of one report.
pub fn a_day_goes_on()
    ensures run { (settings : Settings) (roads : Roads) (s : State) (position : ℕ) (rows more : List ScriptRow) (told made : List Journal)
        → AreScriptRows 0 rows → All (IsLater (last_round rows)) more
        → IsToldRun settings roads s position (rows_rounds rows) told → PastIsGood settings roads told
        → IsRun settings roads (state_after_run settings roads s told) (position_after_run position told) (rows_rounds more) made
        → IsRun settings roads s position (rows_rounds (rows ++ more)) (told ++ made) }
    ensures text { (settings : Settings) (roads : Roads) (s : State) (position : ℕ) (rows more : List ScriptRow) (told made : List Journal)
        → AreScriptRows 0 rows → All (IsLater (last_round rows)) more
        → IsToldRun settings roads s position (rows_rounds rows) told
        → rows_text settings roads position (rows ++ more) (told ++ made)
        ≡ journals_text settings.proof (rows_rounds rows) told ++ rows_text settings roads (position_after_run position told) more made }
{}

/// The close of an open batch goes on from where the journals end: with an outcome that is good for it they stay good,
/// their text is followed by that of the close, the state is the step's, and the position is one more.
pub fn a_close_ends_its_past()
    ensures good { (settings : Settings) (roads : Roads) (vehicles : List Vehicle) (rows : List ScriptRow) (made : List Journal) (batch : Batch) (outcome : Outcome)
        → IsToldRun settings roads (opening vehicles) 0 (rows_rounds rows) (closed_with (Some batch) outcome made)
        → (state_after_run settings roads (opening vehicles) made).sealed ≡ Some batch → PastIsGood settings roads made → IsGoodOutcome settings roads batch outcome
        → PastIsGood settings roads (closed_with (Some batch) outcome made) }
    ensures text { (settings : Settings) (roads : Roads) (vehicles : List Vehicle) (rows : List ScriptRow) (made : List Journal) (batch : Batch) (outcome : Outcome)
        → IsToldRun settings roads (opening vehicles) 0 (rows_rounds rows) (closed_with (Some batch) outcome made)
        → (state_after_run settings roads (opening vehicles) made).sealed ≡ Some batch
        → journals_text settings.proof (rows_rounds rows) (closed_with (Some batch) outcome made)
        ≡ journals_text settings.proof (rows_rounds rows) made ++ entry_text settings.proof (position_after_run 0 made) (close_of batch outcome) }
    ensures state { (settings : Settings) (roads : Roads) (vehicles : List Vehicle) (made : List Journal) (batch : Batch) (outcome : Outcome)
        → (state_after_run settings roads (opening vehicles) made).sealed ≡ Some batch
        → state_after_run settings roads (opening vehicles) (closed_with (Some batch) outcome made)
        ≡ (step roads.nodes settings.wait (state_after_run settings roads (opening vehicles) made) (close_of batch outcome).command).0 }
    ensures position { (settings : Settings) (roads : Roads) (vehicles : List Vehicle) (made : List Journal) (batch : Batch) (outcome : Outcome)
        → (state_after_run settings roads (opening vehicles) made).sealed ≡ Some batch
        → position_after_run 0 (closed_with (Some batch) outcome made) ≡ one_more (position_after_run 0 made) }
{}
