//! The plan that a search starts from.
ghost use Rattle.std.specs.Prelude.{◌≡◌, ◌≤◌, ℕ, IfOk, List, Option};
ghost use Rattle.plan_rules.specs.Plan.{IsLawful, cost_of};
ghost use Rattle.plan_rules.specs.Greedy.{IsGreedy};

use plan_rules::{Plan, TripGraph, cost_of, greedy, held_plan, is_lawful};
use pool_base::OutOfMemory;
use std::alloc::Global;

/// The better of the held and the greedy plan.
pub fn first_plan(alloc: Global, graph: &TripGraph) -> Result<Plan, OutOfMemory>
    ensures lawful { IfOk result (IsLawful graph.now) }
    ensures held { IfOk result (λ plan. cost_of graph.now plan ≤ cost_of graph.now graph.now.held) }
    ensures greedy { IfOk result (λ plan. (chosen : List (Option ℕ)) → IsGreedy graph.now chosen → IsLawful graph.now chosen → cost_of graph.now plan ≤ cost_of graph.now chosen) }
{
    let count = graph.vehicle_count();
    prove!(count <= 500);
    let held = held_plan(alloc, graph)?;
    let greedy = greedy(alloc, graph)?;
    Ok(better_of(graph, held, greedy))
}

fn better_of(graph: &TripGraph, held: Plan, greedy: Plan) -> Plan
    requires { IsLawful graph.now held }
    ensures lawful { IsLawful graph.now result }
    ensures held { cost_of graph.now result ≤ cost_of graph.now held }
    ensures greedy { IsLawful graph.now greedy → cost_of graph.now result ≤ cost_of graph.now greedy }
{
    if is_lawful(graph, &greedy) && cost_of(graph, &greedy) < cost_of(graph, &held) {
        greedy
    } else {
        held
    }
}
