//! Laws of blocks that are judged: each is a call with no code, whose clause is the law.
ghost use Rattle.std.specs.Prelude.{◌≡◌, ◌≢◌, ℕ, ◌<◌, ◌≤◌, IfSome, List, Contains, length, true};
ghost use Rattle.request_book.specs.values.Batch.{Batch};
ghost use Rattle.request_book.specs.values.Kept.{IsKept};
ghost use Rattle.dispatch_report.specs.Block.{lines_of};
ghost use Rattle.dispatch_report.specs.declared.block_line.BlockLine.TheVariants.{Late, TripRow, Trip};
ghost use Rattle.dispatch_report.specs.declared.block_line.LateText.{LateText};
ghost use Rattle.dispatch_report.specs.declared.block_line.TripRowText.{TripRowText};
ghost use Rattle.dispatch_report.specs.declared.block_line.TripText.{TripText};
ghost use Rattle.rider_limits.specs.declared.settings.Settings.{Settings};
ghost use Rattle.road_network.specs.Roads.{Roads};
ghost use Rattle.request_book.specs.declared.values.outcome.Outcome.{Outcome};
ghost use Rattle.report_audit.specs.block.Block.{BeginsWithGood, BeginsWithWrong, Refuses};
ghost use Rattle.report_audit.specs.block.Judged.{HasTrips};
ghost use Rattle.report_audit.specs.points.Verdict.{point_place};
ghost use Rattle.dispatch_engine.specs.declared.outcome.point.Point.{Point};
ghost use Rattle.dispatch_engine.specs.declared.outcome.point.Point.TheVariants.{Bound, Graphs, Late as LateVehicles, Trips};
ghost use Rattle.report_audit.specs.declared.block.refusal.BlockRefusal.{BlockRefusal};
ghost use Rattle.report_audit.specs.declared.block.refusal.BlockRefusal.TheVariants.{OutOfMemory as NoMemory};

/// A block whose lines tell no outcome fails at the bound at the latest.
pub fn untold_lines_fail_by_the_bound()
    ensures { (settings : Settings) (roads : Roads) (batch : Batch) (text : List ℕ) (point : Point) (wrong : BeginsWithWrong settings roads batch text point)
        → ((n : ℕ) (outcome : Outcome) → HasTrips outcome.answer → wrong.lines ≢ lines_of true n outcome) → point_place point ≤ point_place Bound }
{}

/// A block with a row of more than six riders fails at the graphs at the latest.
pub fn long_rows_fail_by_the_graphs()
    ensures { (settings : Settings) (roads : Roads) (batch : Batch) (text : List ℕ) (point : Point) (wrong : BeginsWithWrong settings roads batch text point)
        → (row : TripRowText) → Contains wrong.lines (TripRow row) → 6 < length row.riders → point_place point ≤ point_place Graphs }
{}

/// A block with a late vehicle of more than ten stops fails at the late vehicles at the latest.
pub fn long_orders_fail_by_the_late()
    ensures { (settings : Settings) (roads : Roads) (batch : Batch) (text : List ℕ) (point : Point) (wrong : BeginsWithWrong settings roads batch text point)
        → (late : LateText) → Contains wrong.lines (Late late) → (IfSome late.stops (λ stops. length stops ≤ 10) → ⊥) → point_place point ≤ point_place LateVehicles }
{}

/// A block with a chosen trip of more than 22 stops fails at the trips at the latest.
pub fn long_trips_fail_by_the_trips()
    ensures { (settings : Settings) (roads : Roads) (batch : Batch) (text : List ℕ) (point : Point) (wrong : BeginsWithWrong settings roads batch text point)
        → (trip : TripText) → Contains wrong.lines (Trip trip) → 22 < length trip.stops → point_place point ≤ point_place Trips }
{}

/// A text that begins with the block of a good outcome isn't refused.
pub fn a_good_block_is_not_refused()
    ensures { (settings : Settings) (roads : Roads) (batch : Batch) → IsKept batch → (text : List ℕ) (outcome : Outcome) (rest : List ℕ)
        → BeginsWithGood settings roads batch text outcome rest → (refusal : BlockRefusal) → refusal ≢ NoMemory → Refuses settings roads batch text refusal → ⊥ }
{}

/// A text is refused for one cause.
#[tactic(auto, using(crate::proofs::lemmas::block::AuditLemmas::one_refusal))]
pub fn a_text_is_refused_in_one_way()
    ensures { (settings : Settings) (roads : Roads) (batch : Batch) (text : List ℕ) (refusal other : BlockRefusal)
        → refusal ≢ NoMemory → other ≢ NoMemory → Refuses settings roads batch text refusal → Refuses settings roads batch text other → refusal ≡ other }
{}
