//! What a leaf shows.
ghost use Rattle.std.specs.Prelude.{◌≡◌, ◌*◌, ◌<◌, ◌≤◌, ℕ, All, IfOk, IfSome, Some, None, length, pos, ◌-ℤ◌, slice_index_or, slice_set, unwrap_or};
ghost use Rattle.plan_rules.specs.Sums.{int_sum_below, lesser};
ghost use Rattle.plan_rules.specs.Multipliers.{usable_of, leaf_value, multiplier_sum};
ghost use Rattle.plan_rules.specs.Terms.{rider_term};
ghost use Rattle.plan_rules.specs.Tree.{rounded_up};
ghost use Rattle.plan_rules.specs.Size.{IsSmall, IsSmallSum};
ghost use Rattle.bound_checker.specs.work.Leaf.{AreLeast};

use plan_rules::{TripGraph, TripRow};
use pool_base::OutOfMemory;
use std::alloc::Global;

/// What the multipliers show of every plan of allowed rows, in 1/1024 second: the sum over vehicles of the
/// least cost of an allowed row less its riders' multipliers, plus the multiplier of each rider who must be
/// served, plus for each other rider the lesser of her multiplier and the penalty.
pub(crate) fn leaf_value(
    alloc: Global,
    graph: &TripGraph,
    allowed: &[bool],
    multipliers: &[i64],
) -> Result<i128, OutOfMemory>
    requires allowed { length allowed.now ≡ length graph.now.rows }
    requires multipliers { length multipliers.now ≡ graph.now.riders }
    ensures value { IfOk result (λ value. value ≡ leaf_value graph.now (usable_of allowed.now) multipliers.now) }
    ensures small { IfOk result (IsSmallSum 1500) }
{
    let least = least_costs(alloc, graph, allowed, multipliers)?;
    Ok(sum_of_vehicles(least.as_slice()) + sum_of_riders(graph, multipliers))
}

/// 1/1024 seconds as whole seconds, rounded up.
pub(crate) fn seconds(value: i128) -> i128
    requires { IsSmallSum 1500 value }
    ensures { result ≡ rounded_up value }
{
    if value > 0 {
        (value + 1023) / 1024
    } else {
        value / 1024
    }
}

/// For each vehicle the least cost of an allowed row, less its riders' multipliers, if it has such a row. All
/// rows are looked at once, in whatever order they stand.
fn least_costs(
    alloc: Global,
    graph: &TripGraph,
    allowed: &[bool],
    multipliers: &[i64],
) -> Result<Vec<Option<i128>>, OutOfMemory>
    requires allowed { length allowed.now ≡ length graph.now.rows }
    requires multipliers { length multipliers.now ≡ graph.now.riders }
    ensures least { IfOk result (λ least. AreLeast graph.now (usable_of allowed.now) multipliers.now (length graph.now.rows) least.items) }
    ensures few { graph.now.vehicles ≤ 500 }
{
    let mut least = vec![in alloc; None; graph.vehicle_count()]?;
    let rows = graph.rows();
    for place in 0..rows.len() {
        if allowed[place] {
            lower(
                &mut least,
                rows[place].vehicle,
                cost_left(&rows[place], multipliers),
            );
        }
    }
    Ok(least)
}

/// Lowers the number of this vehicle to this cost, where it has none or a higher one.
fn lower(least: &mut [Option<i128>], vehicle: usize, cost: i128)
    requires { vehicle < length least.old }
    ensures { least.new ≡ slice_set least.old vehicle (Some (lesser (slice_index_or least.old vehicle None) cost)) }
{
    least[vehicle] = Some(lesser(least[vehicle], cost));
}

/// The sum of the numbers; what is missing counts as 0.
fn sum_of_vehicles(least: &[Option<i128>]) -> i128
    requires few { length least.now ≤ 500 }
    requires small { (v : ℕ) → IfSome (slice_index_or least.now v None) IsSmall }
    ensures value { result ≡ int_sum_below (length least.now) (λ v. unwrap_or (slice_index_or least.now v None) (pos 0)) }
    ensures small { IsSmallSum 500 result }
{
    let mut sum: i128 = 0;
    for cost in least {
        sum += cost.unwrap_or(0);
    }
    sum
}

/// The lesser of a number that may be missing and another one.
pub(crate) fn lesser(least: Option<i128>, value: i128) -> i128
    ensures value { result ≡ lesser least value }
    ensures small { IfSome least IsSmall → IsSmall value → IsSmall result }
{
    match least {
        None => value,
        Some(other) => other.min(value),
    }
}

/// What a row costs in 1/1024 second, less the multipliers of its riders.
fn cost_left(row: &TripRow, multipliers: &[i64]) -> i128
    requires few { length row.now.riders.items ≤ 6 }
    requires cheap { row.now.cost ≤ 1000000000 }
    requires riders { All (λ r. r < length multipliers.now) row.now.riders.items }
    ensures value { result ≡ pos (1024 * row.now.cost) -ℤ multiplier_sum multipliers.now row.now.riders.items }
    ensures small { IsSmall result }
{
    let mut cost = 1024 * row.cost as i128;
    for rider in row.riders.as_slice() {
        cost -= multipliers[*rider] as i128;
    }
    cost
}

fn sum_of_riders(graph: &TripGraph, multipliers: &[i64]) -> i128
    requires { length multipliers.now ≡ graph.now.riders }
    ensures value { result ≡ int_sum_below graph.now.riders (rider_term graph.now multipliers.now) }
    ensures small { IsSmallSum 1000 result }
{
    let mut sum: i128 = 0;
    for rider in 0..graph.rider_count() {
        sum += least_of_rider(graph, multipliers, rider);
    }
    sum
}

/// The rider's multiplier, and at most the penalty where she may be left out.
fn least_of_rider(graph: &TripGraph, multipliers: &[i64], rider: usize) -> i128
    requires multipliers { length multipliers.now ≡ graph.now.riders }
    requires rider { rider < graph.now.riders }
    ensures value { result ≡ rider_term graph.now multipliers.now rider }
    ensures small { IsSmall result }
{
    let multiplier = multipliers[rider] as i128;
    let penalty = 1024 * graph.penalty() as i128;
    if multiplier > penalty && !graph.must(rider) {
        return penalty;
    }
    multiplier
}
