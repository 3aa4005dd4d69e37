//! Moves of idle vehicles.
ghost use Rattle.std.specs.Prelude.{◌≡◌, ◌↔◌, ◌<◌, ◌≤◌, ℕ, All, IfOk, IsTrue, List, MatchOption, length, slice_index, sum_by};
ghost use Rattle.dispatch_engine.specs.outcome.Instance.{AreExact};
ghost use Rattle.dispatch_engine.specs.outcome.Moves.{AreMoves, idle_vehicles, move_line, origins_of, starts_of};
ghost use Rattle.dispatch_engine.specs.outcome.Told.{left_riders};
ghost use Rattle.dispatch_engine.specs.lemmas.outcome.Named.{vehicle_id};
ghost use Rattle.plan_rules.specs.Plan.{IsPlan};
ghost use Rattle.pool_base.specs.Times.{point_count, travel_time};
ghost use Rattle.rebalancing.specs.Matching.{IsBestMatching, pair_seconds};
ghost use Rattle.report_audit.specs.work.points.Moves.{CanPrecede, HaveOwnPlaces, IsPairWithin, TellsMoves};

use crate::points::orders::place_of_rider;
use dispatch_engine::{Graphs, idle_vehicles, origins_of, starts_of};
use pool_base::{OutOfMemory, Times, VehicleId};
use rebalancing::rebalance;
use request_book::MoveLine;
use std::alloc::Global;
use stop_orders::Settled;

/// Whether the moves are a best matching of idle vehicles to the riders who are left out.
pub(crate) fn are_moves(
    alloc: Global,
    graphs: &Graphs<'_, '_>,
    chosen: &[Option<u32>],
    left: &[usize],
    moves: &[MoveLine],
) -> Result<bool, OutOfMemory>
    requires exact { AreExact graphs.now }
    requires plan { IsPlan graphs.now.graph.now chosen.now }
    requires left { left.now ≡ left_riders graphs.now.graph.now chosen.now }
    ensures { IfOk result (λ yes. IsTrue yes ↔ AreMoves (travel_time graphs.now.instance.now.times.now) graphs.now.instance.now.settled.now (idle_vehicles graphs.now.instance.now.settled.now graphs.now.graph.now chosen.now) left.now moves.now) }
{
    let settled = graphs.instance.settled;
    let idle = idle_vehicles(alloc, settled, graphs.graph, chosen)?;
    if idle.is_empty() {
        return Ok(moves.is_empty());
    }
    are_best(alloc, graphs.instance.times, settled, &idle, left, moves)
}

/// The same for these vehicles and riders.
fn are_best(
    alloc: Global,
    times: &Times,
    settled: &Settled,
    idle: &[usize],
    left: &[usize],
    moves: &[MoveLine],
) -> Result<bool, OutOfMemory>
    requires places { HaveOwnPlaces (point_count times.now) settled.now idle.now left.now }
    requires few_vehicles { length idle.now ≤ 500 }
    requires few_riders { length left.now ≤ 1000 }
    ensures { IfOk result (λ yes. IsTrue yes ↔ AreMoves (travel_time times.entry.now) settled.entry.now idle.entry.now left.entry.now moves.entry.now) }
{
    if !tell_pairs(alloc, times, settled, idle, left, moves)? {
        return Ok(false);
    }
    let (count, least) = best_moves(alloc, times, settled, idle, left)?;
    if moves.len() != count {
        return Ok(false);
    }
    Ok(total_of(moves) == least)
}

/// How many pairs a best matching of the vehicles' places to the riders' origins has, and its seconds.
fn best_moves(
    alloc: Global,
    times: &Times,
    settled: &Settled,
    idle: &[usize],
    left: &[usize],
) -> Result<(usize, u64), OutOfMemory>
    requires places { HaveOwnPlaces (point_count times.now) settled.now idle.now left.now }
    requires few_vehicles { length idle.now ≤ 500 }
    requires few_riders { length left.now ≤ 1000 }
    ensures { IfOk result (λ best. (pairs : List (ℕ × ℕ)) × IsBestMatching (travel_time times.entry.now) (starts_of settled.entry.now idle.entry.now) (origins_of settled.entry.now left.entry.now) pairs
        × (best.0 ≡ length pairs) × (best.1 ≡ sum_by (pair_seconds (travel_time times.entry.now) (starts_of settled.entry.now idle.entry.now) (origins_of settled.entry.now left.entry.now)) pairs)) }
{
    let starts = starts_of(alloc, settled, idle)?;
    let origins = origins_of(alloc, settled, left)?;
    let best = rebalance(alloc, &starts, &origins, times)?;
    Ok((best.pairs.as_slice().len(), best.total))
}

/// Whether the moves tell of the pairs of a matching by rising first place.
fn tell_pairs(
    alloc: Global,
    times: &Times,
    settled: &Settled,
    idle: &[usize],
    left: &[usize],
    moves: &[MoveLine],
) -> Result<bool, OutOfMemory>
    requires places { HaveOwnPlaces (point_count times.now) settled.now idle.now left.now }
    ensures { IfOk result (λ yes. IsTrue yes ↔ ((pairs : List (ℕ × ℕ)) × TellsMoves (travel_time times.entry.now) settled.entry.now idle.entry.now left.entry.now moves.entry.now (length moves.entry.now) pairs)) }
{
    let mut pairs = Vec::with_capacity(alloc, moves.len())?;
    for step in moves {
        let Some(pair) = pair_of(times, settled, idle, left, step) else {
            return Ok(false);
        };
        if step.seconds >= Times::NEVER || !may_follow(&pairs, pair) {
            return Ok(false);
        }
        pairs.push(pair)?;
    }
    Ok(true)
}

/// Whether all these pairs have a lower first place, and another second one.
fn may_follow(pairs: &[(usize, usize)], next: (usize, usize)) -> bool
    ensures { IsTrue result ↔ All (CanPrecede next) pairs.now }
{
    for pair in pairs {
        if pair.0 >= next.0 || pair.1 == next.1 {
            return false;
        }
    }
    true
}

/// The pair of which the move tells.
fn pair_of(
    times: &Times,
    settled: &Settled,
    idle: &[usize],
    left: &[usize],
    step: &MoveLine,
) -> Option<(usize, usize)>
    requires places { HaveOwnPlaces (point_count times.now) settled.now idle.now left.now }
    ensures { MatchOption result
        ((pair : ℕ × ℕ) → IsPairWithin (length idle.entry.now) (length left.entry.now) pair → step.entry.now ≡ move_line (travel_time times.entry.now) settled.entry.now idle.entry.now left.entry.now pair → ⊥)
        (λ pair. IsPairWithin (length idle.entry.now) (length left.entry.now) pair × (step.entry.now ≡ move_line (travel_time times.entry.now) settled.entry.now idle.entry.now left.entry.now pair)) }
{
    let Some(place) = place_of_vehicle(settled, idle, step.vehicle) else {
        return None;
    };
    let Some(wanted) = place_of_rider(settled, left, step.rider) else {
        return None;
    };
    let from = settled.vehicles.as_slice()[idle[place]].start;
    let to = settled.riders.as_slice()[left[wanted]].leg.origin;
    if times.seconds(from, to) == step.seconds {
        Some((place, wanted))
    } else {
        None
    }
}

fn place_of_vehicle(settled: &Settled, idle: &[usize], id: VehicleId) -> Option<usize>
    requires { All (λ v. v < length settled.now.vehicles) idle.now }
    ensures { MatchOption result ((i : ℕ) → i < length idle.now → vehicle_id settled.entry.now (slice_index idle.now i) ≡ id → ⊥)
        (λ i. (i < length idle.now) × (vehicle_id settled.entry.now (slice_index idle.now i) ≡ id)) }
{
    let known = settled.vehicles.as_slice();
    for place in 0..idle.len() {
        if known[idle[place]].id == id {
            return Some(place);
        }
    }
    None
}

/// The sum of the moves' seconds.
fn total_of(moves: &[MoveLine]) -> u64
    requires few { length moves.now ≤ 500 }
    ensures { result ≡ sum_by (λ m. m.seconds) moves.now }
{
    let mut total = 0;
    for step in moves {
        total += u64::from(step.seconds);
    }
    total
}
