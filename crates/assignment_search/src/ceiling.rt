//! A number that the first-fit multipliers' value doesn't exceed, in one pass over the rows.
ghost use Rattle.std.specs.Prelude.{◌≡◌, ◌≤◌, ◌<◌, ◌*◌, ℕ, true, All, IfOk, length, slice_index_or, ℤ, pos, neg_ℤ, ◌≤ℤ◌, ◌-ℤ◌, ◌*ℤ◌};
ghost use Rattle.plan_rules.specs.Sums.{int_sum_below};
ghost use Rattle.plan_rules.specs.Multipliers.{usable_of, multiplier_at, first_fit_value};
ghost use Rattle.plan_rules.specs.Terms.{first_fit};
ghost use Rattle.plan_rules.specs.Graph.{riders_at};
ghost use Rattle.assignment_search.specs.Cheapest.{AreCheapestOf};
ghost use Rattle.assignment_search.specs.work.Size.{HasLeastCosts, IsCost, IsModest};
ghost use Rattle.assignment_search.specs.work.Ceiling.{AreCeilings};

use crate::cheapest::{CheapestRows, least_costs};
use plan_rules::TripGraph;
use pool_base::OutOfMemory;
use std::alloc::Global;

/// A number that the leaf value of the first-fit multipliers doesn't exceed, in 1/1024 second: what the
/// vehicles' cheapest allowed rows cost, and for each rider the least of the penalty and of what an allowed
/// row with her costs above its vehicle's cheapest one. Where multipliers are worth as much, the first-fit
/// ones need not be made.
pub fn first_fit_ceiling(
    alloc: Global,
    graph: &TripGraph,
    allowed: &[bool],
) -> Result<i128, OutOfMemory>
    requires { length allowed.now ≡ length graph.now.rows }
    ensures { IfOk result (λ ceiling. first_fit_value graph.now (usable_of allowed.now) ≤ℤ ceiling) }
{
    let costs = least_costs(alloc, graph, &CheapestRows::none(alloc), allowed)?;
    let mut rooms = penalties(alloc, graph)?;
    Ok(ceiling_of(graph, allowed, &costs, &mut rooms))
}

/// A greater such number, by far fewer rows: those of one rider alone, where the cheapest of all rows are at
/// hand.
pub fn quick_ceiling(
    alloc: Global,
    graph: &TripGraph,
    cheapest: &CheapestRows,
    allowed: &[bool],
) -> Result<i128, OutOfMemory>
    requires cheapest { AreCheapestOf graph.now cheapest.now }
    requires allowed { length allowed.now ≡ length graph.now.rows }
    ensures { IfOk result (λ ceiling. first_fit_value graph.now (usable_of allowed.now) ≤ℤ ceiling) }
{
    let costs = least_costs(alloc, graph, cheapest, allowed)?;
    let mut rooms = penalties(alloc, graph)?;
    Ok(quick_ceiling_of(graph, allowed, &costs, &mut rooms))
}

/// The penalty, for each rider.
fn penalties(alloc: Global, graph: &TripGraph) -> Result<Vec<i64>, OutOfMemory>
    ensures len { IfOk result (λ rooms. length rooms.items ≡ graph.now.riders) }
    ensures each { IfOk result (λ rooms. All (λ room. room ≡ pos (1024 * graph.now.penalty)) rooms.items) }
{
    let penalty = 1024 * graph.penalty() as i64;
    let rooms = vec![in alloc; penalty; graph.rider_count()]?;
    Ok(rooms)
}

/// The ceiling, where each number is the penalty at first.
fn ceiling_of(graph: &TripGraph, allowed: &[bool], costs: &[i64], rooms: &mut [i64]) -> i128
    requires allowed { length allowed.now ≡ length graph.now.rows }
    requires costs { HasLeastCosts graph.now (usable_of allowed.now) costs.now }
    requires len { length rooms.old ≡ graph.now.riders }
    requires each { All (λ room. room ≡ pos (1024 * graph.now.penalty)) rooms.old }
    ensures { first_fit_value graph.now (usable_of allowed.now) ≤ℤ result }
{
    let vehicles = graph.vehicle_count();
    let riders = graph.rider_count();
    prove!(vehicles <= 500 && riders <= 1000);
    lower_rooms(graph, allowed, costs, rooms);
    1024 * sum_of(costs) + sum_of(rooms)
}

/// The same by rows of one rider alone.
fn quick_ceiling_of(graph: &TripGraph, allowed: &[bool], costs: &[i64], rooms: &mut [i64]) -> i128
    requires allowed { length allowed.now ≡ length graph.now.rows }
    requires costs { HasLeastCosts graph.now (usable_of allowed.now) costs.now }
    requires len { length rooms.old ≡ graph.now.riders }
    requires each { All (λ room. room ≡ pos (1024 * graph.now.penalty)) rooms.old }
    ensures { first_fit_value graph.now (usable_of allowed.now) ≤ℤ result }
{
    let vehicles = graph.vehicle_count();
    let riders = graph.rider_count();
    prove!(vehicles <= 500 && riders <= 1000);
    for vehicle in 0..graph.vehicle_count() {
        lower_first_rooms(graph, allowed, costs, rooms, vehicle);
    }
    1024 * sum_of(costs) + sum_of(rooms)
}

/// Lowers the numbers of the riders of a vehicle's first rows, up to one of more than one rider.
fn lower_first_rooms(
    graph: &TripGraph,
    allowed: &[bool],
    costs: &[i64],
    rooms: &mut [i64],
    vehicle: usize,
)
    requires allowed { length allowed.now ≡ length graph.now.rows }
    requires costs { HasLeastCosts graph.now (usable_of allowed.now) costs.now }
    requires vehicle { vehicle < graph.now.vehicles }
    requires above { AreCeilings graph.now (usable_of allowed.now) rooms.old }
    ensures above { AreCeilings graph.now (usable_of allowed.now) rooms.new }
{
    let count = graph.vehicle_count();
    prove!(vehicle < count);
    let rows = graph.rows();
    for row in graph.first_row(vehicle)..graph.first_row(vehicle + 1) {
        if rows[row].riders.as_slice().len() > 1 {
            return;
        }
        if allowed[row] {
            lower_for(graph, allowed, costs, rooms, row);
        }
    }
}

/// Lowers each rider's number to what an allowed row with her costs above its vehicle's cheapest one.
fn lower_rooms(graph: &TripGraph, allowed: &[bool], costs: &[i64], rooms: &mut [i64])
    requires allowed { length allowed.now ≡ length graph.now.rows }
    requires costs { HasLeastCosts graph.now (usable_of allowed.now) costs.now }
    requires above { AreCeilings graph.now (usable_of allowed.now) rooms.old }
    ensures above { AreCeilings graph.now (usable_of allowed.now) rooms.new }
{
    let rows = graph.rows();
    for row in 0..rows.len() {
        if allowed[row] {
            lower_for(graph, allowed, costs, rooms, row);
        }
    }
}

/// The same of the riders of one allowed row.
fn lower_for(graph: &TripGraph, allowed: &[bool], costs: &[i64], rooms: &mut [i64], row: usize)
    requires allowed { length allowed.now ≡ length graph.now.rows }
    requires costs { HasLeastCosts graph.now (usable_of allowed.now) costs.now }
    requires row { row < length graph.now.rows }
    requires may { usable_of allowed.now row ≡ true }
    requires above { AreCeilings graph.now (usable_of allowed.now) rooms.old }
    ensures above { AreCeilings graph.now (usable_of allowed.now) rooms.new }
{
    let room = room_over(graph, allowed, costs, row);
    let rows = graph.rows();
    for rider in rows[row].riders.as_slice() {
        lower(graph, allowed, rooms, *rider, room);
    }
}

/// What the row costs above its vehicle's cheapest one.
fn room_over(graph: &TripGraph, allowed: &[bool], costs: &[i64], row: usize) -> i64
    requires allowed { length allowed.now ≡ length graph.now.rows }
    requires costs { HasLeastCosts graph.now (usable_of allowed.now) costs.now }
    requires row { row < length graph.now.rows }
    requires may { usable_of allowed.now row ≡ true }
    ensures modest { IsModest result }
    ensures above { All (λ r. (r < graph.now.riders) × (multiplier_at (first_fit graph.now (usable_of allowed.now)) r ≤ℤ result)) (riders_at graph.now row) }
{
    let rows = graph.rows();
    let trip = &rows[row];
    room_within(trip.cost, costs[trip.vehicle])
}

fn room_within(cost: u64, least: i64) -> i64
    requires cost { cost ≤ 1000000000 }
    requires least { IsCost least }
    ensures value { result ≡ pos 1024 *ℤ (pos cost -ℤ least) }
    ensures modest { IsModest result }
{
    1024 * (cost as i64 - least)
}

/// Lowers one rider's number.
fn lower(graph: &TripGraph, allowed: &[bool], rooms: &mut [i64], rider: usize, room: i64)
    requires rider { rider < graph.now.riders }
    requires above { multiplier_at (first_fit graph.now (usable_of allowed.now)) rider ≤ℤ room }
    requires modest { IsModest room }
    requires ceilings { AreCeilings graph.now (usable_of allowed.now) rooms.old }
    ensures ceilings { AreCeilings graph.now (usable_of allowed.now) rooms.new }
{
    if room < rooms[rider] {
        rooms[rider] = room;
    }
}

fn sum_of(numbers: &[i64]) -> i128
    requires few { length numbers.now ≤ 1000 }
    requires modest { (r : ℕ) → IsModest (slice_index_or numbers.now r (pos 0)) }
    ensures value { result ≡ int_sum_below (length numbers.now) (λ r. slice_index_or numbers.now r (pos 0)) }
    ensures low { neg_ℤ (pos (1000 * 8000000000000)) ≤ℤ result }
    ensures high { result ≤ℤ pos (1000 * 1024000000000) }
{
    let mut sum: i128 = 0;
    for number in numbers {
        sum += *number as i128;
    }
    sum
}
