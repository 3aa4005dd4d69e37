//! The plan that a search starts from, by its cost.
ghost use Rattle.std.specs.Prelude.{IfOk};
ghost use Rattle.report_audit.specs.work.points.Nodes.{IsLimit};

use plan_rules::{TripGraph, cost_of, greedy, held_plan, is_lawful};
use pool_base::OutOfMemory;
use std::alloc::Global;

/// The cost of the held plan, or of the greedy one where that is lawful and costs less.
pub(crate) fn limit_of(alloc: Global, graph: &TripGraph) -> Result<u64, OutOfMemory>
    ensures { IfOk result (IsLimit graph.now) }
{
    let count = graph.vehicle_count();
    prove!(count <= 500);
    let held = held_plan(alloc, graph)?;
    let limit = cost_of(graph, &held);
    let greedy = greedy(alloc, graph)?;
    if !is_lawful(graph, &greedy) {
        return Ok(limit);
    }
    let cost = cost_of(graph, &greedy);
    if cost < limit {
        return Ok(cost);
    }
    Ok(limit)
}
