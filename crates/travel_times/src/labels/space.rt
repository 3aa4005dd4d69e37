//! The work space of pruned searches.
ghost use Rattle.std.specs.Prelude.{◌≡◌, ◌<◌, ◌≤◌, All, IfOk, OnOk, length};
ghost use Rattle.road_network.specs.Roads.{IsArcAmong};
ghost use Rattle.travel_times.specs.work.labels.Adding.{AddsHub, IsClean};
ghost use Rattle.travel_times.specs.work.labels.Hops.{AreNodeHops};

use crate::labels::draft::hand_over;
use crate::labels::hops::NodeHops;
use crate::labels::hub_search::{Known, search};
use crate::labels::label::ShortLabel;
use crate::labels::via::{clear, spread};
use crate::search::ring::Ring;
use crate::search::search::{no_ways, none_waiting};
use pool_base::OutOfMemory;
use std::alloc::Global;

/// What a search works on, made once and clean between searches.
#[derive(Drop)]
pub(crate) struct Space {
    /// By node: the least seconds found so far, `NEVER` where no walk was found.
    pub seconds: Vec<u32>,
    /// By node: whether its seconds fell since its arcs were relaxed.
    pub waiting: Vec<bool>,
    /// The nodes that were taken.
    pub taken: Vec<u32>,
    /// By node: the seconds of the start's own hub there, `NEVER` where it has none.
    pub via: Vec<u32>,
    /// The nodes that wait, the nearest first.
    pub ring: Ring,
}

impl Space {
    pub(crate) fn new(alloc: Global, nodes: usize) -> Result<Space, OutOfMemory>
        ensures { IfOk result (λ s. IsClean nodes s.seconds.items s.waiting.items s.taken.items s.via.items) }
    {
        Ok(Space {
            seconds: no_ways(alloc, nodes)?,
            waiting: none_waiting(alloc, nodes)?,
            taken: Vec::new(alloc),
            via: no_ways(alloc, nodes)?,
            ring: Ring::new(alloc)?,
        })
    }
}

/// Makes a node a hub of each node that it reaches and that no common hub of lower rank joins to it. The node's own label
/// is the one of the other direction.
pub(crate) fn add_hub(
    space: &mut Space,
    hops: &[NodeHops],
    own: &[ShortLabel],
    labels: &mut [ShortLabel],
    start: usize,
) -> Result<(), OutOfMemory>
    requires clean { IsClean (length hops.now) space.old.seconds.items space.old.waiting.items space.old.taken.items space.old.via.items }
    requires hops { (arcs : _) × All (IsArcAmong (length hops.now)) arcs × AreNodeHops arcs (length hops.now) hops.now }
    requires few { length hops.now ≤ 100000 }
    requires own { (length own.now ≡ length hops.now) × All (λ label. All (λ hub. hub.node < length hops.now) label) own.now }
    requires labels { (length labels.old ≡ length hops.now) × All (λ label. All (λ hub. hub.node < length hops.now) label) labels.old }
    requires start { start < length hops.now }
    ensures clean { OnOk result (IsClean (length hops.entry.now) space.new.seconds.items space.new.waiting.items space.new.taken.items space.new.via.items) }
    ensures added { OnOk result (AddsHub (length hops.entry.now) hops.entry.now own.entry.now start labels.old labels.new) }
{
    let hubs = own[start].as_slice();
    spread(hubs, &mut space.via);
    let known = Known {
        hops,
        labels,
        via: &space.via,
    };
    search(
        &known,
        start,
        &mut space.seconds,
        &mut space.waiting,
        &mut space.taken,
        &mut space.ring,
    )?;
    hand_over(start, &space.taken, &space.via, &mut space.seconds, labels)?;
    clear(hubs, &mut space.via);
    space.taken.clear();
    Ok(())
}
