//! What is told of the plan.
ghost use Rattle.std.specs.Prelude.{◌≡◌, ◌↔◌, ◌<◌, All, IfOk, IsTrue, length};
ghost use Rattle.dispatch_engine.specs.outcome.Told.{left_riders};
ghost use Rattle.report_audit.specs.work.points.Trips.{TellsPlan};

use crate::points::graphs::are_same_riders;
use dispatch_engine::rider_ids;
use plan_rules::{Plan, TripGraph, cost_of, is_lawful};
use pool_base::OutOfMemory;
use request_book::Planned;
use std::alloc::Global;
use stop_orders::Settled;

/// Whether the plan is lawful, costs what is told, and leaves out whom it is told to.
pub(crate) fn tells_plan(
    alloc: Global,
    settled: &Settled,
    graph: &TripGraph,
    plan: &Plan,
    left: &[usize],
    planned: &Planned,
) -> Result<bool, OutOfMemory>
    requires riders { graph.now.riders ≡ length settled.now.riders }
    requires left { left.now ≡ left_riders graph.now plan.now }
    requires within { All (λ r. r < graph.now.riders) left.now }
    ensures { IfOk result (λ yes. IsTrue yes ↔ TellsPlan settled.entry.now graph.entry.now plan.entry.now planned.entry.now) }
{
    if !is_lawful(graph, plan) {
        return Ok(false);
    }
    if cost_of(graph, plan) != planned.cost {
        return Ok(false);
    }
    let ids = rider_ids(alloc, settled, left)?;
    Ok(are_same_riders(&ids, planned.left.as_slice()))
}
