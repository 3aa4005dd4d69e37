//! Plans near the chosen one.
ghost use Rattle.std.specs.Prelude.{◌↔◌, IfOk, IsTrue};
ghost use Rattle.plan_rules.specs.Plan.{IsLawful};
ghost use Rattle.assignment_search.specs.Found.{IsBestNear};

use crate::points::limit::limit_of;
use assignment_search::better_change;
use plan_rules::{Plan, TripGraph, cost_of};
use pool_base::OutOfMemory;
use std::alloc::Global;

/// Whether the plan costs no more than the held one, the greedy one where that is lawful, and each lawful
/// plan that differs in the row of one vehicle.
pub fn is_best_near(alloc: Global, graph: &TripGraph, plan: &Plan) -> Result<bool, OutOfMemory>
    requires { IsLawful graph.now plan.now }
    ensures { IfOk result (λ yes. IsTrue yes ↔ IsBestNear graph.entry.now plan.entry.now) }
{
    let limit = limit_of(alloc, graph)?;
    if cost_of(graph, plan) > limit {
        return Ok(false);
    }
    match better_change(alloc, graph, plan)? {
        None => Ok(true),
        Some(_better) => Ok(false),
    }
}
