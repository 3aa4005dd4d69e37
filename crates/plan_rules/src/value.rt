//! Leaf values, in 1/1024 second.
ghost use Rattle.std.specs.Prelude.{◌≡◌, ◌+◌, ◌*◌, ◌<◌, ◌≤◌, ℕ, All, IfSome, length, ℤ, pos, neg_ℤ, ◌≤ℤ◌, Option};
ghost use Rattle.plan_rules.specs.Sums.{int_sum_below, lesser};
ghost use Rattle.plan_rules.specs.Graph.{IsGraphRow};
ghost use Rattle.plan_rules.specs.Multipliers.{usable_of, leaf_value, multiplier_sum};
ghost use Rattle.plan_rules.specs.Terms.{vehicle_term, rider_term};
ghost use Rattle.plan_rules.specs.Tree.{rounded_up};
ghost use Rattle.plan_rules.specs.Size.{IsSmall, IsSmallSum};
ghost use Rattle.plan_rules.specs.work.Size.{reduced_cost_of};

use crate::graph::TripGraph;
use crate::row::TripRow;

/// What the multipliers show of every plan of allowed rows, in 1/1024 second: the sum over vehicles of
/// the least cost of an allowed row less its riders' multipliers, plus the multiplier of each rider who
/// must be served, plus for each other rider the lesser of her multiplier and the penalty.
pub fn leaf_value(graph: &TripGraph, allowed: &[bool], multipliers: &[i64]) -> i128
    requires allowed { length allowed.now ≡ length graph.now.rows }
    requires multipliers { length multipliers.now ≡ graph.now.riders }
    ensures value { result ≡ leaf_value graph.now (usable_of allowed.now) multipliers.now }
    ensures small { IsSmallSum 1500 result }
{
    vehicle_terms(graph, allowed, multipliers) + rider_terms(graph, multipliers)
}

/// 1/1024 seconds as whole seconds, rounded up.
pub fn rounded_up(value: i128) -> i128
    requires { IsSmallSum 1500 value }
    ensures { result ≡ rounded_up value }
{
    if value > 0 {
        (value + 1023) / 1024
    } else {
        value / 1024
    }
}

fn vehicle_terms(graph: &TripGraph, allowed: &[bool], multipliers: &[i64]) -> i128
    requires allowed { length allowed.now ≡ length graph.now.rows }
    requires multipliers { length multipliers.now ≡ graph.now.riders }
    ensures value { result ≡ int_sum_below graph.now.vehicles (vehicle_term graph.now (usable_of allowed.now) multipliers.now) }
    ensures small { IsSmallSum 500 result }
{
    let mut total: i128 = 0;
    for vehicle in 0..graph.vehicle_count() {
        total += vehicle_part(graph, allowed, multipliers, vehicle);
    }
    total
}

/// The least reduced cost of the vehicle's allowed rows, 0 where it has none.
pub fn vehicle_part(
    graph: &TripGraph,
    allowed: &[bool],
    multipliers: &[i64],
    vehicle: usize,
) -> i128
    requires allowed { length allowed.now ≡ length graph.now.rows }
    requires multipliers { length multipliers.now ≡ graph.now.riders }
    requires vehicle { vehicle < graph.now.vehicles }
    ensures value { result ≡ vehicle_term graph.now (usable_of allowed.now) multipliers.now vehicle }
    ensures small { IsSmall result }
{
    let rows = graph.rows();
    let mut least: Option<i128> = None;
    for row in graph.first_row(vehicle)..graph.first_row(vehicle + 1) {
        if allowed[row] {
            least = Some(lesser_of(least, reduced_cost(&rows[row], multipliers)));
        }
    }
    least.unwrap_or(0)
}

fn lesser_of(least: Option<i128>, value: i128) -> i128
    requires least { IfSome least IsSmall }
    requires value { IsSmall value }
    ensures value { result ≡ lesser least value }
    ensures small { IsSmall result }
{
    match least {
        None => value,
        Some(other) => other.min(value),
    }
}

fn reduced_cost(row: &TripRow, multipliers: &[i64]) -> i128
    requires few { length row.now.riders.items ≤ 6 }
    requires cheap { row.now.cost ≤ 1000000000 }
    requires riders { All (λ r. r < length multipliers.now) row.now.riders.items }
    ensures value { result ≡ reduced_cost_of row.now multipliers.now }
    ensures small { IsSmall result }
{
    1024 * row.cost as i128 - sum_of_multipliers(multipliers, row.riders.as_slice())
}

fn sum_of_multipliers(multipliers: &[i64], riders: &[usize]) -> i128
    requires few { length riders.now ≤ 6 }
    requires riders { All (λ r. r < length multipliers.now) riders.now }
    ensures value { result ≡ multiplier_sum multipliers.now riders.now }
    ensures low { neg_ℤ (pos (6 * 9223372036854775808)) ≤ℤ result }
    ensures high { result ≤ℤ pos (6 * 9223372036854775808) }
{
    let mut sum: i128 = 0;
    for rider in riders {
        sum += multipliers[*rider] as i128;
    }
    sum
}

fn rider_terms(graph: &TripGraph, multipliers: &[i64]) -> i128
    requires multipliers { length multipliers.now ≡ graph.now.riders }
    ensures value { result ≡ int_sum_below graph.now.riders (rider_term graph.now multipliers.now) }
    ensures small { IsSmallSum 1000 result }
{
    let mut total: i128 = 0;
    for rider in 0..graph.rider_count() {
        total += rider_part(graph, multipliers, rider);
    }
    total
}

/// The rider's multiplier, and at most the penalty where she may be left out.
fn rider_part(graph: &TripGraph, multipliers: &[i64], rider: usize) -> i128
    requires multipliers { length multipliers.now ≡ graph.now.riders }
    requires rider { rider < graph.now.riders }
    ensures value { result ≡ rider_term graph.now multipliers.now rider }
    ensures small { IsSmall result }
{
    let multiplier = multipliers[rider] as i128;
    if graph.must(rider) {
        multiplier
    } else {
        multiplier.min(1024 * graph.penalty() as i128)
    }
}
