//! Which plans are lawful and what they cost. No call but `held_plan` takes memory.
ghost use Rattle.std.specs.Prelude.{◌≡◌, ◌==◌, ◌+◌, ◌*◌, ◌<◌, ◌≤◌, ◌↔◌, ℕ, IsTrue, IfOk, length, MatchOption, Option};
ghost use Rattle.plan_rules.specs.Graph.{IsRowOf, times_served, choice_at};
ghost use Rattle.plan_rules.specs.lemmas.Graph.{HasNoRow, is_in, ChoosesRows};
ghost use Rattle.plan_rules.specs.Plan.{IsPlan, IsLawful, cost_of};
ghost use Rattle.plan_rules.specs.lemmas.Plan.{choice_cost, left_out, MarksServed};
ghost use Rattle.plan_rules.specs.work.Plan.{IsServedOnce};
ghost use Rattle.plan_rules.specs.Sums.{sum_below};

use crate::graph::TripGraph;
use crate::marks::{is_any_marked, mark_riders};
use crate::plan::Plan;
use pool_base::OutOfMemory;
use std::alloc::Global;

/// Whether the plan is lawful: each vehicle that has rows has one of its own and the others none, no
/// rider is in two chosen rows, and each rider who must be served is in one.
pub fn is_lawful(graph: &TripGraph, plan: &Plan) -> bool
    ensures { IsTrue result ↔ IsLawful graph.now plan.now }
{
    let chosen = plan.chosen();
    let riders = graph.rider_count();
    let mut served = [false; 1000];
    if !is_plan(graph, chosen) || !serves_once(graph, chosen, &mut served) {
        return false;
    }
    for rider in 0..riders {
        if graph.must(rider) && !served[rider] {
            return false;
        }
    }
    true
}

/// Whether each vehicle that has rows is given one of its own, and the others none.
fn is_plan(graph: &TripGraph, chosen: &[Option<u32>]) -> bool
    ensures { IsTrue result ↔ IsPlan graph.now chosen.now }
{
    if chosen.len() != graph.vehicle_count() {
        return false;
    }
    for vehicle in 0..chosen.len() {
        if !is_own_choice(graph, vehicle, chosen[vehicle]) {
            return false;
        }
    }
    true
}

/// Whether this is one of the vehicle's rows, or none where it has none.
fn is_own_choice(graph: &TripGraph, vehicle: usize, choice: Option<u32>) -> bool
    requires { vehicle < graph.now.vehicles }
    ensures { IsTrue result ↔ MatchOption choice (HasNoRow graph.now vehicle) (IsRowOf graph.now vehicle) }
{
    let count = graph.vehicle_count();
    prove!(vehicle < count);
    let first = graph.first_row(vehicle);
    let end = graph.first_row(vehicle + 1);
    match choice {
        None => first == end,
        Some(row) => first <= row as usize && (row as usize) < end,
    }
}

/// Whether no rider is in two chosen rows, and then marks those who are in one.
fn serves_once(graph: &TripGraph, chosen: &[Option<u32>], served: &mut [bool]) -> bool
    requires plan { IsPlan graph.now chosen.now }
    requires clear { MarksServed graph.now chosen.now 0 served.old }
    ensures value { IsTrue result ↔ IsServedOnce graph.now chosen.now graph.now.vehicles }
    ensures marked { IsTrue result → MarksServed graph.now chosen.now graph.now.vehicles served.new }
{
    let rows = graph.rows();
    for choice in chosen {
        if let Some(row) = *choice {
            let riders = rows[row as usize].riders.as_slice();
            if is_any_marked(riders, served) {
                return false;
            }
            mark_riders(riders, served);
        }
    }
    true
}

/// The cost of a plan in seconds: what its rows cost, and the penalty for each rider in none.
pub fn cost_of(graph: &TripGraph, plan: &Plan) -> u64
    requires { IsLawful graph.now plan.now }
    ensures { result ≡ cost_of graph.now plan.now }
{
    let chosen = plan.chosen();
    let left = graph.rider_count() - count_served(graph, chosen);
    cost_of_rows(graph, chosen) + graph.penalty() as u64 * left as u64
}

fn cost_of_rows(graph: &TripGraph, chosen: &[Option<u32>]) -> u64
    requires len { length chosen.now ≡ graph.now.vehicles }
    requires rows { ChoosesRows graph.now chosen.now }
    ensures value { result ≡ sum_below graph.now.vehicles (λ v. choice_cost graph.now (choice_at chosen.now v)) }
    ensures within { result ≤ 500 * 1000000000 }
{
    let rows = graph.rows();
    let mut cost = 0;
    for choice in chosen {
        if let Some(row) = *choice {
            cost += rows[row as usize].cost;
        }
    }
    cost
}

/// How many riders the chosen rows have. No two of these rows have one in common.
fn count_served(graph: &TripGraph, chosen: &[Option<u32>]) -> usize
    requires { IsLawful graph.now chosen.now }
    ensures { result + left_out graph.now chosen.now ≡ graph.now.riders }
{
    let rows = graph.rows();
    let mut served = 0;
    for choice in chosen {
        if let Some(row) = *choice {
            served += rows[row as usize].riders.len();
        }
    }
    served
}

/// The plan that gives each vehicle the row that it holds. It is always lawful.
pub fn held_plan(alloc: Global, graph: &TripGraph) -> Result<Plan, OutOfMemory>
    ensures value { IfOk result (λ plan. plan ≡ graph.now.held) }
    ensures lawful { IfOk result (λ plan. IsLawful graph.now plan) }
{
    Ok(Plan::of(Vec::from_slice(alloc, graph.held())?))
}
