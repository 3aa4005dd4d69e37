//! How many plans there are.
ghost use Rattle.std.specs.Prelude.{◌≡◌, ◌↔◌, ◌*◌, ◌+◌, ◌<◌, ◌≤◌, ◌^◌, IsTrue, length, max};
ghost use Rattle.assignment_search.specs.Growth.{choice_count};
ghost use Rattle.plan_rules.specs.Multipliers.{is_usable_by};
ghost use Rattle.plan_rules.specs.Sums.{count_below};
ghost use Rattle.plan_rules.specs.Tree.{every_row};

use plan_rules::TripGraph;

/// Whether the budget is at least twice the number of plans: the product of the numbers of rows of the
/// vehicles that have rows.
pub(crate) fn is_closable(graph: &TripGraph, budget: u32) -> bool
    ensures { IsTrue result ↔ (2 * choice_count graph.now every_row ≤ budget) }
{
    let budget = u64::from(budget);
    let mut choices: u64 = 1;
    for vehicle in 0..graph.vehicle_count() {
        if 2 * choices > budget {
            return false;
        }
        choices *= choices_of(graph, vehicle);
    }
    2 * choices <= budget
}

/// How many rows the vehicle has, at least 1.
fn choices_of(graph: &TripGraph, vehicle: usize) -> u64
    requires { vehicle < graph.now.vehicles }
    ensures value { result ≡ max 1 (count_below (length graph.now.rows) (is_usable_by graph.now every_row vehicle)) }
    ensures most { result ≤ 2000000 }
{
    let count = graph.vehicle_count();
    prove!(vehicle < count);
    let rows = graph.first_row(vehicle + 1) - graph.first_row(vehicle);
    1_usize.max(rows) as u64
}
