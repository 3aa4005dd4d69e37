ghost use Rattle.std.specs.Prelude.{◌≡◌, ◌+◌, ◌++◌, ◌*◌, ◌<◌, ◌≤◌, ℕ, All, IfOk, OnOk, length, map, slice_index};
ghost use Rattle.pool_base.specs.Times.{point_count, travel_time};
ghost use Rattle.rebalancing.specs.work.Weights.{weight_at, weight_of};

use pool_base::{OutOfMemory, Times};
use std::alloc::Global;

/// What a pair is worth, in seconds: more than 500 pairs of 1,000,000,000 seconds.
pub(crate) const PAIR_WORTH: u64 = 500_000_000_001;

/// What is gained by a pair so many seconds apart; nothing where there is no way.
fn weight(seconds: u32) -> u64
    ensures { result ≡ weight_of seconds }
{
    if seconds < Times::NEVER {
        PAIR_WORTH - u64::from(seconds)
    } else {
        0
    }
}

/// Appends the weights of one vehicle's pairs.
fn push_row(
    weights: &mut Vec<u64>,
    place: usize,
    wanted: &[usize],
    times: &Times,
) -> Result<(), OutOfMemory>
    requires from { place < point_count times.now }
    requires to { All (λ other. other < point_count times.now) wanted.now }
    ensures { OnOk result (weights.new.items ≡ weights.old.items ++ map (λ other. weight_of (travel_time times.now place other)) wanted.now) }
{
    for &other in wanted {
        weights.push(weight(times.seconds(place, other)))?;
    }
    Ok(())
}

/// The weights of all pairs, row by row, flat, so that the search reads one row in order.
pub(crate) fn weights_of(
    alloc: Global,
    idle: &[usize],
    wanted: &[usize],
    times: &Times,
) -> Result<Vec<u64>, OutOfMemory>
    requires few_idle { length idle.now ≤ 500 }
    requires few_wanted { length wanted.now ≤ 1000 }
    requires from { All (λ place. place < point_count times.now) idle.now }
    requires to { All (λ place. place < point_count times.now) wanted.now }
    ensures length { IfOk result (λ weights. length weights.items ≡ length idle.now * length wanted.now) }
    ensures weights { IfOk result (λ weights. (i j : ℕ) → i < length idle.now → j < length wanted.now → weight_at weights.items (length wanted.now) i j ≡ weight_of (travel_time times.now (slice_index idle.now i) (slice_index wanted.now j))) }
{
    let mut weights = Vec::with_capacity(alloc, idle.len() * wanted.len())?;
    for &place in idle {
        push_row(&mut weights, place, wanted, times)?;
    }
    Ok(weights)
}
