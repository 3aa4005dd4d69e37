ghost use Rattle.std.specs.Prelude.{◌≡◌, ℕ, ◌<◌, ◌≤◌, ◌++◌, All, IfOk, OnOk, length, slice_index, slice_range};
ghost use Rattle.road_network.specs.Roads.{leaving};
ghost use Rattle.road_network.specs.Storage.{start_at};
ghost use Rattle.travel_times.specs.search.Arcs.{AreArcsOf};

use crate::search::short_hop::ShortHop;
use pool_base::OutOfMemory;
use road_network::{Hop, Network};
use std::alloc::Global;

/// A network, with its arcs by starting node, each in half the room that the network gives it: on a large one a
/// search waits for memory.
#[derive(Drop)]
pub struct Arcs<'a> {
    pub network: &'a Network,
    /// By node: where its hops end.
    pub ends: Vec<usize>,
    pub hops: Vec<ShortHop>,
    ghost rising: { (node : ℕ) → node < length ends.items → start_at ends.items node ≤ slice_index ends.items node },
    ghost within: { (node : ℕ) → node < length ends.items → slice_index ends.items node ≤ length hops.items },
    pub ghost copied: { AreArcsOf network.now.arcs (length network.now.nodes) ends.items hops.items },
}

impl<'a> Arcs<'a> {
    /// A network with a copy of its arcs.
    pub fn of(alloc: Global, network: &'a Network) -> Result<Arcs<'a>, OutOfMemory>
        ensures { IfOk result (λ copy. copy.network.now ≡ network.entry.now) }
    {
        let nodes = network.node_count();
        let mut ends = Vec::with_capacity(alloc, nodes)?;
        let mut hops = Vec::with_capacity(alloc, network.arc_count())?;
        for node in 0..nodes {
            push_hops(&mut hops, network.arcs_from(node))?;
            ends.push(hops.len())?;
        }
        Ok(Arcs {
            network,
            ends,
            hops,
        })
    }

    /// The arcs that leave a node.
    #[inline]
    pub(crate) fn leaving(&self, node: usize) -> &[ShortHop]
        requires { node < length self.now.ends.items }
        ensures { result.now ≡ slice_range self.now.hops.items (start_at self.now.ends.items node) (slice_index self.now.ends.items node) }
    {
        let start = start_of(&self.ends, node);
        &self.hops[start..self.ends[node]]
    }
}

/// Where the hops of a node begin.
#[inline]
fn start_of(ends: &[usize], node: usize) -> usize
    requires { node < length ends.now }
    ensures { result ≡ start_at ends.now node }
{
    if node == 0 { 0 } else { ends[node - 1] }
}

/// Appends these hops.
fn push_hops(hops: &mut Vec<ShortHop>, leaving: &[Hop]) -> Result<(), OutOfMemory>
    requires { All (λ hop. hop.to < 100000) leaving.now }
    ensures { OnOk result (hops.new.items ≡ hops.old.items ++ leaving.now) }
{
    for hop in leaving {
        hops.push(ShortHop::of(*hop))?;
    }
    Ok(())
}
