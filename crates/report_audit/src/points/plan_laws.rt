//! The law of an outcome's plan: a call with no code, whose clause is the law.
ghost use Rattle.dispatch_engine.specs.outcome.Outcome.{IsGoodOutcome, IsOutcomeWith};
ghost use Rattle.report_audit.specs.points.OnePlan.{HasOnePlan};
ghost use Rattle.request_book.specs.values.Batch.{Batch};
ghost use Rattle.request_book.specs.values.Kept.{IsKept};
ghost use Rattle.request_book.specs.declared.values.outcome.Outcome.{Outcome};
ghost use Rattle.rider_limits.specs.declared.settings.Settings.{Settings};
ghost use Rattle.road_network.specs.Roads.{Roads};

/// The points of a good outcome are of one plan: one alone gives its trips, and that is lawful, costs what is told, leaves out
/// whom it is told to and is best near, and the moves are for its idle vehicles.
pub fn a_good_outcome_has_one_plan()
    ensures { (settings : Settings) (roads : Roads) (batch : Batch) (outcome : Outcome) → IsKept batch → IsGoodOutcome settings roads batch outcome
        → IsOutcomeWith settings roads batch HasOnePlan outcome }
{}
