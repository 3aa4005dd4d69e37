ghost use Rattle.std.specs.Prelude.{◌≡◌, ℕ, ◌+◌, ◌*◌, ◌<◌, ◌≤◌, ◌^◌, pos, neg_ℤ, All, AllPairs, sum_by, IfOk, OnOk, length, map, slice_index};
ghost use Rattle.pool_base.specs.Times.{point_count, travel_time};
ghost use Rattle.rebalancing.specs.Matching.{IsBestMatching, pair_seconds};
ghost use Rattle.rebalancing.specs.Potentials.{ArePotentials, pair_worth};
ghost use Rattle.rebalancing.specs.work.Weights.{weight_at};
ghost use Rattle.rebalancing.specs.work.Prices.{IsPricedMatching, IsSized, weight_in};
ghost use Rattle.rebalancing.specs.work.Chosen.{IsChosen, seconds_in};

use crate::matching::Matching;
use crate::moves::{Moves, Pairs, Potentials};
use crate::tree::Tree;
use crate::weights::{PAIR_WORTH, weights_of};
use pool_base::{OutOfMemory, Times};
use std::alloc::Global;

/// The best matching of idle vehicles' places and left riders' places, with its potentials.
///
/// The Hungarian method (Kuhn 1955; Munkres 1957) by augmenting walks with potentials (Jonker and Volgenant 1987): the
/// vehicles are tried one after the other. A vehicle's search grows a tree of tight pairs while its prices fall.
pub fn rebalance(
    alloc: Global,
    idle: &[usize],
    wanted: &[usize],
    times: &Times,
) -> Result<Moves, OutOfMemory>
    requires few_idle { length idle.now ≤ 500 }
    requires few_wanted { length wanted.now ≤ 1000 }
    requires idle_places { All (λ place. place < point_count times.now) idle.now }
    requires wanted_places { All (λ place. place < point_count times.now) wanted.now }
    ensures best { IfOk result (λ moves. IsBestMatching (travel_time times.now) idle.now wanted.now moves.pairs) }
    ensures rising { IfOk result (λ moves. AllPairs (λ (p q : ℕ × ℕ). p.0 < q.0) moves.pairs) }
    ensures total { IfOk result (λ moves. moves.total ≡ sum_by (pair_seconds (travel_time times.now) idle.now wanted.now) moves.pairs) }
    ensures potentials { IfOk result (λ moves. ArePotentials (travel_time times.now) idle.now wanted.now moves.pairs moves.from moves.to) }
{
    let weights = weights_of(alloc, idle, wanted, times)?;
    let matching = matched(alloc, idle.len(), wanted.len(), weights)?;
    let pairs = chosen_pairs(alloc, &matching)?;
    let total = seconds_of_pairs(&matching, &pairs);
    let from = negated(alloc, &matching.vehicle_price)?;
    let to = negated(alloc, &matching.rider_price)?;
    Ok(Moves {
        pairs: Pairs::of(pairs),
        total,
        from: Potentials::of(from),
        to: Potentials::of(to),
    })
}

/// The matching with every vehicle tried.
fn matched(
    alloc: Global,
    vehicles: usize,
    riders: usize,
    weights: Vec<u64>,
) -> Result<Matching, OutOfMemory>
    requires few_vehicles { vehicles ≤ 500 }
    requires few_riders { riders ≤ 1000 }
    requires table { length weights.items ≡ vehicles * riders }
    requires light { (i j : ℕ) → i < vehicles → j < riders → weight_at weights.items riders i j ≤ pair_worth }
    ensures priced { IfOk result (IsPricedMatching vehicles vehicles) }
    ensures sized { IfOk result IsSized }
    ensures vehicles { IfOk result (λ s. s.vehicles ≡ vehicles) }
    ensures riders { IfOk result (λ s. s.riders ≡ riders) }
    ensures weights { IfOk result (λ s. s.weights ≡ weights) }
{
    let mut matching = Matching::new(alloc, vehicles, riders, weights)?;
    let mut tree = Tree::new(alloc, riders)?;
    for vehicle in 0..vehicles {
        matching.insert(&mut tree, vehicle)?;
    }
    Ok(matching)
}

/// The matched pairs that have a way, by rising vehicle.
fn chosen_pairs(alloc: Global, matching: &Matching) -> Result<Vec<(usize, usize)>, OutOfMemory>
    requires sized { IsSized matching.now }
    requires rider_of { length matching.now.rider_of.items ≡ matching.now.vehicles }
    ensures { IfOk result (λ pairs. IsChosen matching.now matching.now.vehicles pairs.items) }
{
    let mut pairs = Vec::new(alloc);
    for vehicle in 0..matching.vehicles {
        if let Some(rider) = matching.chosen(vehicle) {
            pairs.push((vehicle, rider))?;
        }
    }
    Ok(pairs)
}

/// The sum of the pairs' seconds.
fn seconds_of_pairs(matching: &Matching, pairs: &[(usize, usize)]) -> u64
    requires sized { IsSized matching.now }
    requires light { (i j : ℕ) → i < matching.now.vehicles → j < matching.now.riders → weight_in matching.now i j ≤ pair_worth }
    requires within { All (λ (p : ℕ × ℕ). (p.0 < matching.now.vehicles) × (p.1 < matching.now.riders)) pairs.now }
    requires few { length pairs.now ≤ 500 }
    ensures { result ≡ sum_by (seconds_in matching.now) pairs.now }
{
    let mut total = 0;
    for &(vehicle, rider) in pairs {
        total += PAIR_WORTH - matching.weight(vehicle, rider);
    }
    total
}

/// The prices below zero.
fn negated(alloc: Global, prices: &[u64]) -> Result<Vec<i64>, OutOfMemory>
    requires { (k : ℕ) → k < length prices.now → slice_index prices.now k < 2 ^ 63 }
    ensures { IfOk result (λ v. v.items ≡ map (λ (p : ℕ). neg_ℤ (pos p)) prices.now) }
{
    let mut potentials = Vec::new(alloc);
    for &price in prices {
        potentials.push(below_zero(price))?;
    }
    Ok(potentials)
}

fn below_zero(price: u64) -> i64
    requires { price < 2 ^ 63 }
    ensures { result ≡ neg_ℤ (pos price) }
{
    -(price as i64)
}
