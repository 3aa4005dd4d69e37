//! The first-fit multipliers: one pass over the riders.
ghost use Rattle.std.specs.Prelude.{◌≡◌, ◌*◌, ◌<◌, ◌≤◌, ◌&&◌, ℕ, false, All, IfOk, IfSome, IfNone, length, slice_index_or, ℤ, pos, neg_ℤ, ◌≤ℤ◌, ◌+ℤ◌, ◌-ℤ◌, ◌*ℤ◌};
ghost use Rattle.plan_rules.specs.Sums.{lesser, least_below, int_sum_below};
ghost use Rattle.plan_rules.specs.Multipliers.{usable_of, leaf_value, first_fit_of, room_at, multiplier_at, multiplier_sum};
ghost use Rattle.plan_rules.specs.Terms.{least_cost, first_fit};
ghost use Rattle.plan_rules.specs.Graph.{has_rider};
ghost use Rattle.assignment_search.specs.work.Size.{IsCost, IsModest, HasLeastCosts};
ghost use Rattle.assignment_search.specs.Index.{IsIndexOf};
ghost use Rattle.assignment_search.specs.work.Index.{IsRowListed};

use crate::cheapest::{CheapestRows, least_costs};
use crate::rider_index::RiderIndex;
use plan_rules::{Multipliers, TripGraph, TripRow};
use pool_base::OutOfMemory;
use row_tables::RowTable;
use std::alloc::Global;

/// For each rider by rising index the least of the penalty and, over the allowed rows that have her, of
/// what the row costs above its vehicle's cheapest allowed one, less the multipliers of its earlier
/// riders, in 1/1024 second. None is negative, and they are worth what they and the vehicles' cheapest
/// allowed rows come to.
pub fn first_fit(
    alloc: Global,
    graph: &TripGraph,
    allowed: &[bool],
) -> Result<Multipliers, OutOfMemory>
    requires { length allowed.now ≡ length graph.now.rows }
    ensures value { IfOk result (λ ms. ms ≡ first_fit graph.now (usable_of allowed.now)) }
    ensures len { IfOk result (λ ms. length ms ≡ graph.now.riders) }
    ensures never_negative { IfOk result (λ ms. (r : ℕ) → pos 0 ≤ℤ multiplier_at ms r) }
    ensures worth { IfOk result (λ ms. leaf_value graph.now (usable_of allowed.now) ms ≡ pos 1024 *ℤ int_sum_below graph.now.vehicles (least_cost graph.now (usable_of allowed.now)) +ℤ int_sum_below graph.now.riders (multiplier_at ms)) }
{
    let table = RowTable::of_graph(alloc, graph)?;
    let index = RiderIndex::new(alloc, graph, &table)?;
    first_fit_by(alloc, graph, &index, allowed)
}

/// The same, where an index of the graph is at hand.
pub fn first_fit_by(
    alloc: Global,
    graph: &TripGraph,
    index: &RiderIndex,
    allowed: &[bool],
) -> Result<Multipliers, OutOfMemory>
    requires index { IsIndexOf graph.now index.now }
    requires allowed { length allowed.now ≡ length graph.now.rows }
    ensures value { IfOk result (λ ms. ms ≡ first_fit graph.now (usable_of allowed.now)) }
    ensures len { IfOk result (λ ms. length ms ≡ graph.now.riders) }
    ensures never_negative { IfOk result (λ ms. (r : ℕ) → pos 0 ≤ℤ multiplier_at ms r) }
    ensures worth { IfOk result (λ ms. leaf_value graph.now (usable_of allowed.now) ms ≡ pos 1024 *ℤ int_sum_below graph.now.vehicles (least_cost graph.now (usable_of allowed.now)) +ℤ int_sum_below graph.now.riders (multiplier_at ms)) }
{
    let costs = least_costs(alloc, graph, &CheapestRows::none(alloc), allowed)?;
    let mut multipliers: Vec<i64> = vec![in alloc; 0; graph.rider_count()]?;
    fit(graph, index, allowed, &costs, &mut multipliers);
    Ok(Multipliers::of(multipliers))
}

/// Writes each rider's multiplier in place of a 0.
fn fit(
    graph: &TripGraph,
    index: &RiderIndex,
    allowed: &[bool],
    costs: &[i64],
    multipliers: &mut [i64],
)
    requires index { IsIndexOf graph.now index.now }
    requires allowed { length allowed.now ≡ length graph.now.rows }
    requires costs { HasLeastCosts graph.now (usable_of allowed.now) costs.now }
    requires multipliers { length multipliers.old ≡ graph.now.riders }
    requires none { (r : ℕ) → multiplier_at multipliers.old r ≡ pos 0 }
    ensures value { multipliers.new ≡ first_fit graph.now (usable_of allowed.now) }
    ensures len { length multipliers.new ≡ length multipliers.old }
{
    for rider in 0..multipliers.len() {
        let next = next_multiplier(graph, index, allowed, costs, multipliers, rider);
        multipliers[rider] = next;
    }
}

/// The next rider's multiplier, where those of later riders are still 0.
fn next_multiplier(
    graph: &TripGraph,
    index: &RiderIndex,
    allowed: &[bool],
    costs: &[i64],
    multipliers: &[i64],
    rider: usize,
) -> i64
    requires index { IsIndexOf graph.now index.now }
    requires allowed { length allowed.now ≡ length graph.now.rows }
    requires costs { HasLeastCosts graph.now (usable_of allowed.now) costs.now }
    requires multipliers { length multipliers.now ≡ graph.now.riders }
    requires modest { (r : ℕ) → IsModest (multiplier_at multipliers.now r) }
    ensures value { result ≡ first_fit_of graph.now (usable_of allowed.now) multipliers.now rider }
    ensures modest { IsModest result }
{
    let least = least_listed(graph, index, allowed, costs, multipliers, rider);
    let penalty = 1024 * graph.penalty() as i64;
    lesser_room(least, penalty)
}

/// The least room of the rider's allowed rows.
fn least_listed(
    graph: &TripGraph,
    index: &RiderIndex,
    allowed: &[bool],
    costs: &[i64],
    multipliers: &[i64],
    rider: usize,
) -> Option<i64>
    requires index { IsIndexOf graph.now index.now }
    requires allowed { length allowed.now ≡ length graph.now.rows }
    requires costs { HasLeastCosts graph.now (usable_of allowed.now) costs.now }
    requires multipliers { length multipliers.now ≡ graph.now.riders }
    requires modest { (r : ℕ) → IsModest (multiplier_at multipliers.now r) }
    ensures value { result ≡ least_below (length graph.now.rows) (λ k. usable_of allowed.now k && has_rider graph.now k rider) (room_at graph.now (usable_of allowed.now) multipliers.now) }
    ensures small { IfSome result (λ z. neg_ℤ (pos 8000000000000) ≤ℤ z) }
{
    let mut least: Option<i64> = None;
    for place in index.start(rider)..index.end(rider) {
        if let Some(row) = row_listed(graph, index.rows.as_slice(), allowed, rider, place) {
            let room = room_of(graph, allowed, costs, multipliers, row);
            least = Some(lesser_room(least, room));
        }
    }
    least
}

/// The row that is listed at this place, where it is allowed and has the rider.
fn row_listed(
    graph: &TripGraph,
    listed: &[u32],
    allowed: &[bool],
    rider: usize,
    place: usize,
) -> Option<usize>
    requires { length allowed.now ≡ length graph.now.rows }
    ensures some { IfSome result (IsRowListed graph.now (usable_of allowed.now) listed.now rider place) }
    ensures none { IfNone result (place < length listed.now → slice_index_or listed.now place 0 < length graph.now.rows → (usable_of allowed.now (slice_index_or listed.now place 0) && has_rider graph.now (slice_index_or listed.now place 0) rider) ≡ false) }
{
    if place >= listed.len() {
        return None;
    }
    let row = listed[place] as usize;
    if row >= graph.rows().len() || !is_allowed_with(graph, allowed, row, rider) {
        return None;
    }
    Some(row)
}

/// Whether the row is allowed and has the rider.
fn is_allowed_with(graph: &TripGraph, allowed: &[bool], row: usize, rider: usize) -> bool
    requires allowed { length allowed.now ≡ length graph.now.rows }
    requires row { row < length graph.now.rows }
    ensures { result ≡ (usable_of allowed.now row && has_rider graph.now row rider) }
{
    let rows = graph.rows();
    allowed[row] && rows[row].riders.as_slice().contains(&rider)
}

fn lesser_room(least: Option<i64>, room: i64) -> i64
    requires least { IfSome least (λ z. neg_ℤ (pos 8000000000000) ≤ℤ z) }
    requires room { neg_ℤ (pos 8000000000000) ≤ℤ room }
    ensures value { result ≡ lesser least room }
    ensures low { neg_ℤ (pos 8000000000000) ≤ℤ result }
    ensures high { result ≤ℤ room }
{
    match least {
        None => room,
        Some(other) => other.min(room),
    }
}

/// What the row costs above its vehicle's cheapest allowed one, less its riders' multipliers.
fn room_of(
    graph: &TripGraph,
    allowed: &[bool],
    costs: &[i64],
    multipliers: &[i64],
    row: usize,
) -> i64
    requires costs { HasLeastCosts graph.now (usable_of allowed.now) costs.now }
    requires multipliers { length multipliers.now ≡ graph.now.riders }
    requires modest { (r : ℕ) → IsModest (multiplier_at multipliers.now r) }
    requires row { row < length graph.now.rows }
    ensures value { result ≡ room_at graph.now (usable_of allowed.now) multipliers.now row }
    ensures low { neg_ℤ (pos 8000000000000) ≤ℤ result }
{
    let trip = &graph.rows()[row];
    room_within(trip, cost_of_vehicle(costs, trip.vehicle), multipliers)
}

fn cost_of_vehicle(costs: &[i64], vehicle: usize) -> i64
    requires { vehicle < length costs.now }
    ensures { result ≡ slice_index_or costs.now vehicle (pos 0) }
{
    costs[vehicle]
}

fn room_within(trip: &TripRow, least: i64, multipliers: &[i64]) -> i64
    requires few { length trip.now.riders.items ≤ 6 }
    requires cheap { trip.now.cost ≤ 1000000000 }
    requires riders { All (λ r. r < length multipliers.now) trip.now.riders.items }
    requires modest { (r : ℕ) → IsModest (multiplier_at multipliers.now r) }
    requires least { IsCost least }
    ensures value { result ≡ pos 1024 *ℤ (pos trip.now.cost -ℤ least) -ℤ multiplier_sum multipliers.now trip.now.riders.items }
    ensures low { neg_ℤ (pos 8000000000000) ≤ℤ result }
{
    let sum = sum_of_modest(multipliers, trip.riders.as_slice());
    1024 * (trip.cost as i64 - least) - sum
}

fn sum_of_modest(multipliers: &[i64], riders: &[usize]) -> i64
    requires few { length riders.now ≤ 6 }
    requires riders { All (λ r. r < length multipliers.now) riders.now }
    requires modest { (r : ℕ) → IsModest (multiplier_at multipliers.now r) }
    ensures value { result ≡ multiplier_sum multipliers.now riders.now }
    ensures low { neg_ℤ (pos (6 * 8000000000000)) ≤ℤ result }
    ensures high { result ≤ℤ pos (6 * 1024000000000) }
{
    let mut sum: i64 = 0;
    for rider in riders {
        sum += multipliers[*rider];
    }
    sum
}
