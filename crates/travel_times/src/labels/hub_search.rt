//! A search from a node that goes no further where labels tell of a way already.
ghost use Rattle.std.specs.Prelude.{◌≡◌, ℕ, ◌<◌, ◌≤◌, false, All, Contains, OnOk, length, slice_index};
ghost use Rattle.pool_base.specs.TravelTime.{never};
ghost use Rattle.road_network.specs.Roads.{IsArcAmong};
ghost use Rattle.travel_times.specs.search.Search.{waits};
ghost use Rattle.travel_times.specs.work.labels.Hops.{AreNodeHops};
ghost use Rattle.travel_times.specs.work.labels.Pruned.{IsPruned};

use crate::labels::hops::NodeHops;
use crate::labels::label::ShortLabel;
use crate::labels::via::is_told;
use crate::search::ring::Ring;
use crate::search::search::{next_near, relax};
use pool_base::{OutOfMemory, Times};

/// What a search knows: by node the arcs, the labels so far, and the seconds of the start's own hub there.
#[derive(Drop)]
pub(crate) struct Known<'a> {
    pub hops: &'a [NodeHops],
    pub labels: &'a [ShortLabel],
    pub via: &'a [u32],
}

/// Finds the least seconds from a node to every node that no common hub of lower rank joins to it, and notes each node
/// that it takes.
pub(crate) fn search(
    known: &Known<'_>,
    start: usize,
    seconds: &mut [u32],
    waiting: &mut [bool],
    taken: &mut Vec<u32>,
    ring: &mut Ring,
) -> Result<(), OutOfMemory>
    requires hops { (arcs : _) × All (IsArcAmong (length known.now.hops.now)) arcs × AreNodeHops arcs (length known.now.hops.now) known.now.hops.now }
    requires few { length known.now.hops.now ≤ 100000 }
    requires labels { length known.now.labels.now ≡ length known.now.hops.now }
    requires hubs { All (λ label. All (λ hub. hub.node < length known.now.via.now) label) known.now.labels.now }
    requires start { start < length known.now.hops.now }
    requires seconds { (length seconds.old ≡ length known.now.hops.now) × All (λ s. s ≡ never) seconds.old }
    requires waiting { (length waiting.old ≡ length known.now.hops.now) × ((node : ℕ) → waits waiting.old node ≡ false) }
    ensures found { OnOk result ((arcs : _) → All (IsArcAmong (length known.entry.now.hops.now)) arcs → AreNodeHops arcs (length known.entry.now.hops.now) known.entry.now.hops.now → IsPruned arcs (length known.entry.now.hops.now) start known.entry.now.labels.now known.entry.now.via.now seconds.new) }
    ensures none { OnOk result ((node : ℕ) → waits waiting.new node ≡ false) }
    ensures noted { OnOk result ((node : ℕ) → node < length seconds.new → slice_index seconds.new node < never → Contains taken.new.items node) }
    ensures taken { OnOk result (All (λ node. node < length seconds.new) taken.old.items → All (λ node. node < length seconds.new) taken.new.items) }
{
    seconds[start] = 0;
    waiting[start] = true;
    ring.push(start as u32, 0)?;
    while let Some(node) = next_near(ring, waiting, seconds, Times::NEVER) {
        let here = seconds[node];
        taken.push(node as u32)?;
        if is_told(known.labels[node].as_slice(), known.via, here) {
            continue;
        }
        relax(known.hops[node].as_slice(), here, seconds, waiting, ring)?;
    }
    Ok(())
}
