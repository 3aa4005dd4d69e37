ghost use Rattle.std.specs.Prelude.{◌≡◌, ◌==◌, ◌<◌, ◌≤◌, ℕ, false, All, IfOk, MatchOption, length, map, slice_index};
ghost use Rattle.std.specs.Option.{option_map_or};
ghost use Rattle.plan_rules.specs.Graph.{riders_at};
ghost use Rattle.plan_rules.specs.Plan.{IsPlan};
ghost use Rattle.pool_base.specs.Times.{point_count, travel_time};
ghost use Rattle.stop_orders.specs.task.Settled.{rider_at, vehicle_at};
ghost use Rattle.dispatch_engine.specs.outcome.Instance.{AreExact};
ghost use Rattle.dispatch_engine.specs.outcome.Moves.{AreMoves, idle_vehicles, is_idle, move_line, HasPlaces, move_from_to};
ghost use Rattle.dispatch_engine.specs.outcome.Told.{left_riders};

use crate::outcome::instance::Graphs;
use plan_rules::TripGraph;
use pool_base::{OutOfMemory, Times};
use rebalancing::rebalance;
use request_book::MoveLine;
use std::alloc::Global;
use stop_orders::Settled;

/// Moves of idle vehicles to riders who were left out: as many as can be, in the least total of seconds.
pub(crate) fn move_lines(
    alloc: Global,
    graphs: &Graphs<'_, '_>,
    chosen: &[Option<u32>],
    left: &[usize],
) -> Result<Vec<MoveLine>, OutOfMemory>
    requires exact { AreExact graphs.now }
    requires plan { IsPlan graphs.now.graph.now chosen.now }
    requires left { left.now ≡ left_riders graphs.now.graph.now chosen.now }
    ensures { IfOk result (λ moves. AreMoves (travel_time graphs.now.instance.now.times.now) graphs.now.instance.now.settled.now (idle_vehicles graphs.now.instance.now.settled.now graphs.now.graph.now chosen.now) left.now moves.items) }
{
    let idle = idle_vehicles(alloc, graphs.instance.settled, graphs.graph, chosen)?;
    if idle.is_empty() {
        return Ok(Vec::new(alloc));
    }
    let instance = graphs.instance;
    best_moves(alloc, instance.times, instance.settled, &idle, left)
}

/// The vehicles in which nobody is or will be, and that aren't late.
pub fn idle_vehicles(
    alloc: Global,
    settled: &Settled,
    graph: &TripGraph,
    chosen: &[Option<u32>],
) -> Result<Vec<usize>, OutOfMemory>
    requires vehicles { graph.now.vehicles ≡ length settled.now.vehicles }
    requires plan { IsPlan graph.now chosen.now }
    ensures value { IfOk result (λ idle. idle.items ≡ idle_vehicles settled.entry.now graph.now chosen.now) }
    ensures within { IfOk result (λ idle. All (λ v. v < length settled.entry.now.vehicles) idle.items) }
    ensures few { IfOk result (λ idle. length idle.items ≤ length settled.entry.now.vehicles) }
{
    let mut idle = Vec::new(alloc);
    for vehicle in 0..settled.vehicles.as_slice().len() {
        if is_idle(settled, graph, chosen, vehicle) {
            idle.push(vehicle)?;
        }
    }
    Ok(idle)
}

/// Whether nobody is or will be in the vehicle, and it isn't late.
fn is_idle(settled: &Settled, graph: &TripGraph, chosen: &[Option<u32>], vehicle: usize) -> bool
    requires vehicles { graph.now.vehicles ≡ length settled.now.vehicles }
    requires plan { IsPlan graph.now chosen.now }
    requires vehicle { vehicle < length settled.now.vehicles }
    ensures { result ≡ is_idle settled.entry.now graph.now chosen.now vehicle }
{
    let stands = &settled.vehicles.as_slice()[vehicle];
    stands.aboard.is_empty() && !stands.late && has_no_rider(graph, chosen[vehicle])
}

/// Whether this is a row without riders.
fn has_no_rider(graph: &TripGraph, choice: Option<u32>) -> bool
    requires { MatchOption choice (Unit {0}) (λ k. k < length graph.now.rows) }
    ensures { result ≡ option_map_or (λ row. length (riders_at graph.now row) == 0) choice false }
{
    match choice {
        None => false,
        Some(row) => graph.rows()[row as usize].riders.is_empty(),
    }
}

/// The best moves of these vehicles to these riders.
fn best_moves(
    alloc: Global,
    times: &Times,
    settled: &Settled,
    vehicles: &[usize],
    riders: &[usize],
) -> Result<Vec<MoveLine>, OutOfMemory>
    requires places { HasPlaces (point_count times.now) settled.now }
    requires vehicles { All (λ v. v < length settled.now.vehicles) vehicles.now }
    requires few_vehicles { length vehicles.now ≤ 500 }
    requires riders { All (λ r. r < length settled.now.riders) riders.now }
    requires few_riders { length riders.now ≤ 1000 }
    ensures { IfOk result (λ moves. AreMoves (travel_time times.now) settled.entry.now vehicles.now riders.now moves.items) }
{
    let starts = starts_of(alloc, settled, vehicles)?;
    let origins = origins_of(alloc, settled, riders)?;
    let moves = rebalance(alloc, &starts, &origins, times)?;
    told_moves(
        alloc,
        times,
        settled,
        vehicles,
        riders,
        moves.pairs.as_slice(),
    )
}

/// Where the vehicles are.
pub fn starts_of(
    alloc: Global,
    settled: &Settled,
    vehicles: &[usize],
) -> Result<Vec<usize>, OutOfMemory>
    requires { All (λ v. v < length settled.now.vehicles) vehicles.now }
    ensures { IfOk result (λ starts. starts.items ≡ map (λ v. (vehicle_at settled.entry.now v).start) vehicles.now) }
{
    let mut starts = Vec::with_capacity(alloc, vehicles.len())?;
    for &vehicle in vehicles {
        starts.push(settled.vehicles.as_slice()[vehicle].start)?;
    }
    Ok(starts)
}

/// Where the riders wait.
pub fn origins_of(
    alloc: Global,
    settled: &Settled,
    riders: &[usize],
) -> Result<Vec<usize>, OutOfMemory>
    requires { All (λ r. r < length settled.now.riders) riders.now }
    ensures { IfOk result (λ origins. origins.items ≡ map (λ r. (rider_at settled.entry.now r).leg.origin) riders.now) }
{
    let mut origins = Vec::with_capacity(alloc, riders.len())?;
    for &rider in riders {
        origins.push(settled.riders.as_slice()[rider].leg.origin)?;
    }
    Ok(origins)
}

/// The moves of these pairs of indexes, by ids.
fn told_moves(
    alloc: Global,
    times: &Times,
    settled: &Settled,
    vehicles: &[usize],
    riders: &[usize],
    pairs: &[(usize, usize)],
) -> Result<Vec<MoveLine>, OutOfMemory>
    requires places { HasPlaces (point_count times.now) settled.now }
    requires vehicles { All (λ v. v < length settled.now.vehicles) vehicles.now }
    requires riders { All (λ r. r < length settled.now.riders) riders.now }
    requires pairs { All (λ (p : ℕ × ℕ). (p.0 < length vehicles.now) × (p.1 < length riders.now)) pairs.now }
    ensures { IfOk result (λ moves. moves.items ≡ map (move_line (travel_time times.now) settled.entry.now vehicles.now riders.now) pairs.now) }
{
    let mut moves = Vec::with_capacity(alloc, pairs.len())?;
    for &(place, wanted) in pairs {
        moves.push(move_of(times, settled, vehicles[place], riders[wanted]))?;
    }
    Ok(moves)
}

/// The move of the vehicle to the rider.
fn move_of(times: &Times, settled: &Settled, vehicle: usize, rider: usize) -> MoveLine
    requires places { HasPlaces (point_count times.now) settled.now }
    requires vehicle { vehicle < length settled.now.vehicles }
    requires rider { rider < length settled.now.riders }
    ensures { result ≡ move_from_to (travel_time times.now) settled.entry.now vehicle rider }
{
    let from = &settled.vehicles.as_slice()[vehicle];
    let to = &settled.riders.as_slice()[rider];
    MoveLine {
        vehicle: from.id,
        rider: to.id,
        seconds: times.seconds(from.start, to.leg.origin),
    }
}
