//! Betters a plan by the row of one vehicle at a time.
ghost use Rattle.std.specs.Prelude.{◌≡◌, ◌==◌, ◌+◌, ◌*◌, ◌<◌, ◌≤◌, ◌^◌, ℕ, false, IsTrue, IfOk, MatchOption, Option, Some, length, slice_set, slice_index_or};
ghost use Rattle.std.specs.List.{list_any};
ghost use Rattle.plan_rules.specs.Graph.{IsRowOf, choice_at, cost_at, riders_at, has_rider, must_be_served};
ghost use Rattle.plan_rules.specs.lemmas.Graph.{ChoosesRows};
ghost use Rattle.plan_rules.specs.Plan.{IsLawful, cost_of};
ghost use Rattle.assignment_search.specs.Change.{HasNoBetterChange, IsChangeOf};
ghost use Rattle.assignment_search.specs.work.Change.{BettersNothing, IsShared};

use plan_rules::{Plan, TripGraph, TripRow, cost_of, is_lawful};
use pool_base::OutOfMemory;
use std::alloc::Global;

/// A plan that no change of one vehicle's row betters, and that costs no more.
pub fn exchange(alloc: Global, graph: &TripGraph, plan: Plan) -> Result<Plan, OutOfMemory>
    requires { IsLawful graph.now plan }
    ensures lawful { IfOk result (IsLawful graph.now) }
    ensures best { IfOk result (HasNoBetterChange graph.now) }
    ensures cost { IfOk result (λ better. cost_of graph.now better ≤ cost_of graph.now plan) }
{
    let mut best = plan;
    loop {
        match better_change(alloc, graph, &best)? {
            None => return Ok(best),
            Some(better) => best = better,
        }
    }
}

/// A lawful plan that gives one vehicle another row and costs less.
pub fn better_change(
    alloc: Global,
    graph: &TripGraph,
    plan: &Plan,
) -> Result<Option<Plan>, OutOfMemory>
    requires { IsLawful graph.now plan.now }
    ensures { IfOk result (λ found. MatchOption found (HasNoBetterChange graph.now plan.now)
        (λ better. IsLawful graph.now better × (cost_of graph.now better < cost_of graph.now plan.now) × IsChangeOf plan.now better)) }
{
    let cost = cost_of(graph, plan);
    let servers = servers_of(alloc, graph, plan.chosen())?;
    for vehicle in 0..graph.vehicle_count() {
        if let Some(better) = change_of(alloc, graph, plan.chosen(), &servers, cost, vehicle)? {
            return Ok(Some(better));
        }
    }
    Ok(None)
}

/// For each rider the vehicle that serves her, or one that doesn't exist.
fn servers_of(
    alloc: Global,
    graph: &TripGraph,
    chosen: &[Option<u32>],
) -> Result<Vec<usize>, OutOfMemory>
    requires { ChoosesRows graph.now chosen.now }
{
    let mut servers = vec![in alloc; usize::MAX; graph.rider_count()]?;
    for vehicle in 0..chosen.len() {
        if let Some(row) = chosen[vehicle] {
            write_server(&graph.rows()[row as usize], vehicle, &mut servers);
        }
    }
    Ok(servers)
}

/// Writes the vehicle as the one that serves the riders of this trip.
fn write_server(trip: &TripRow, vehicle: usize, servers: &mut [usize]) {
    for rider in trip.riders.as_slice() {
        if *rider < servers.len() {
            servers[*rider] = vehicle;
        }
    }
}

/// A lawful plan that gives this vehicle another row and costs less than this.
fn change_of(
    alloc: Global,
    graph: &TripGraph,
    chosen: &[Option<u32>],
    servers: &[usize],
    cost: u64,
    vehicle: usize,
) -> Result<Option<Plan>, OutOfMemory>
    requires lawful { IsLawful graph.now chosen.now }
    requires cost { cost ≡ cost_of graph.now chosen.now }
    requires vehicle { vehicle < graph.now.vehicles }
    ensures { IfOk result (λ found. MatchOption found ((k : ℕ) → IsRowOf graph.now vehicle k → BettersNothing graph.now chosen.now vehicle k)
        (λ better. IsLawful graph.now better × (cost_of graph.now better < cost) × IsChangeOf chosen.now better)) }
{
    let count = graph.vehicle_count();
    prove!(vehicle < count);
    for row in graph.first_row(vehicle)..graph.first_row(vehicle + 1) {
        if let Some(better) = change_to(alloc, graph, chosen, servers, cost, vehicle, row)? {
            return Ok(Some(better));
        }
    }
    Ok(None)
}

/// The plan that gives the vehicle this row, where it is lawful and costs less than this.
fn change_to(
    alloc: Global,
    graph: &TripGraph,
    chosen: &[Option<u32>],
    servers: &[usize],
    cost: u64,
    vehicle: usize,
    row: usize,
) -> Result<Option<Plan>, OutOfMemory>
    requires lawful { IsLawful graph.now chosen.now }
    requires cost { cost ≡ cost_of graph.now chosen.now }
    requires vehicle { vehicle < graph.now.vehicles }
    requires row { IsRowOf graph.now vehicle row }
    ensures { IfOk result (λ found. MatchOption found (BettersNothing graph.now chosen.now vehicle row)
        (λ better. IsLawful graph.now better × (cost_of graph.now better < cost) × IsChangeOf chosen.now better)) }
{
    let size = graph.rows().len();
    prove!(row < size);
    if betters_nothing(graph, chosen, servers, vehicle, row) {
        return Ok(None);
    }
    let other = with_row(alloc, chosen, vehicle, row)?;
    if !is_lawful(graph, &other) {
        return Ok(None);
    }
    if cost_of(graph, &other) >= cost {
        return Ok(None);
    }
    Ok(Some(other))
}

/// The choices with this row for the vehicle.
fn with_row(
    alloc: Global,
    chosen: &[Option<u32>],
    vehicle: usize,
    row: usize,
) -> Result<Plan, OutOfMemory>
    requires vehicle { vehicle < length chosen.now }
    requires row { row < 2 ^ 32 }
    ensures { IfOk result (λ plan. plan ≡ slice_set chosen.now vehicle (Some row)) }
{
    let mut other = Vec::from_slice(alloc, chosen)?;
    other[vehicle] = Some(row as u32);
    Ok(Plan::of(other))
}

/// Whether it is seen at once that this row betters nothing: it costs no less than the present one, or a
/// rider of it is served by another vehicle, or one who must be served loses her place.
fn betters_nothing(
    graph: &TripGraph,
    chosen: &[Option<u32>],
    servers: &[usize],
    vehicle: usize,
    row: usize,
) -> bool
    requires lawful { IsLawful graph.now chosen.now }
    requires vehicle { vehicle < graph.now.vehicles }
    requires row { row < length graph.now.rows }
    ensures { IsTrue result → BettersNothing graph.now chosen.now vehicle row }
{
    let count = graph.vehicle_count();
    prove!(vehicle < count);
    if let Some(old) = chosen[vehicle] {
        let old = old as usize;
        if is_dear(graph, old, row) {
            return true;
        }
        if loses_promised(graph, old, row) {
            return true;
        }
    }
    is_shared(graph, chosen, servers, vehicle, row)
}

/// Whether the row costs no less than the old one, where each rider is worth the penalty.
fn is_dear(graph: &TripGraph, old: usize, row: usize) -> bool
    requires old { old < length graph.now.rows }
    requires row { row < length graph.now.rows }
    ensures { IsTrue result → cost_at graph.now old + graph.now.penalty * length (riders_at graph.now row) ≤ cost_at graph.now row + graph.now.penalty * length (riders_at graph.now old) }
{
    let penalty = graph.penalty() as u64;
    let old = &graph.rows()[old];
    let new = &graph.rows()[row];
    let served = penalty * old.riders.len() as u64;
    let serves = penalty * new.riders.len() as u64;
    old.cost + serves <= new.cost + served
}

/// Whether a rider of the old row who must be served isn't in this row.
fn loses_promised(graph: &TripGraph, old: usize, row: usize) -> bool
    requires old { old < length graph.now.rows }
    requires row { row < length graph.now.rows }
    ensures { IsTrue result → (r : ℕ) × IsTrue (must_be_served graph.now r) × IsTrue (has_rider graph.now old r) × (has_rider graph.now row r ≡ false) }
{
    let rows = graph.rows();
    for rider in rows[old].riders.as_slice() {
        if graph.must(*rider) && !rows[row].riders.as_slice().contains(rider) {
            return true;
        }
    }
    false
}

/// Whether another vehicle's chosen row has a rider of this row.
fn is_shared(
    graph: &TripGraph,
    chosen: &[Option<u32>],
    servers: &[usize],
    vehicle: usize,
    row: usize,
) -> bool
    requires rows { ChoosesRows graph.now chosen.now }
    requires row { row < length graph.now.rows }
    ensures { IsTrue result → IsShared graph.now chosen.now vehicle row }
{
    for rider in graph.rows()[row].riders.as_slice() {
        if *rider < servers.len() {
            let server = servers[*rider];
            if server != vehicle && server < chosen.len() {
                if let Some(taken) = chosen[server] {
                    if have_rider_in_common(graph, taken as usize, row) {
                        return true;
                    }
                }
            }
        }
    }
    false
}

fn have_rider_in_common(graph: &TripGraph, a: usize, b: usize) -> bool
    requires a { a < length graph.now.rows }
    requires b { b < length graph.now.rows }
    ensures { IsTrue result → (r : ℕ) × IsTrue (has_rider graph.now a r) × IsTrue (has_rider graph.now b r) }
{
    let rows = graph.rows();
    meet(rows[a].riders.as_slice(), rows[b].riders.as_slice())
}

fn meet(first: &[usize], second: &[usize]) -> bool
    ensures { IsTrue result → (r : ℕ) × IsTrue (list_any (λ x. x == r) first.now) × IsTrue (list_any (λ x. x == r) second.now) }
{
    for rider in first {
        if second.contains(rider) {
            return true;
        }
    }
    false
}
