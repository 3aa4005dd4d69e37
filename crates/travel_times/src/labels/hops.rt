//! The arcs of a network by the node that they leave, or by the node that they reach.
ghost use Rattle.std.specs.Prelude.{◌≡◌, ◌<◌, ◌++◌, ◌∷◌, [], true, false, All, IfOk, OnOk, length, replicate};
ghost use Rattle.road_network.specs.Roads.{leaving};
ghost use Rattle.travel_times.specs.work.labels.Hops.{AreNodeHops, TurnsHops, directed};

use crate::search::short_hop::ShortHop;
use pool_base::OutOfMemory;
use road_network::{Hop, Network};
use std::alloc::Global;
use std::marker::Model;

/// The hops of a node. Contracts see it as the list.
#[derive(Drop)]
pub struct NodeHops {
    hops: Vec<ShortHop>,
}

impl Model for NodeHops {
    ghost use Rattle.std.specs.Prelude.{List};
    ghost use Rattle.road_network.specs.declared.hop.Hop.{Hop};

    ghost Value = { List Hop };

    ghost view = { λ a. a.hops.items };
}

impl NodeHops {
    fn empty(alloc: Global) -> NodeHops
        ensures { result ≡ [] }
    {
        NodeHops {
            hops: Vec::new(alloc),
        }
    }

    fn push(&mut self, hop: ShortHop) -> Result<(), OutOfMemory>
        ensures { OnOk result (self.new ≡ self.old ++ hop ∷ []) }
    {
        self.hops.push(hop)?;
        Ok(())
    }

    pub(crate) fn as_slice(&self) -> &[ShortHop]
        ensures { result.now ≡ self.now }
    {
        self.hops.as_slice()
    }
}

/// As many nodes without hops.
fn no_hops(alloc: Global, nodes: usize) -> Result<Vec<NodeHops>, OutOfMemory>
    ensures { IfOk result (λ hops. hops.items ≡ replicate nodes []) }
{
    let mut hops = Vec::with_capacity(alloc, nodes)?;
    for _ in 0..nodes {
        hops.push(NodeHops::empty(alloc))?;
    }
    Ok(hops)
}

/// The hops of the arcs that leave each node.
pub(crate) fn hops_ahead(alloc: Global, network: &Network) -> Result<Vec<NodeHops>, OutOfMemory>
    ensures { IfOk result (λ hops. AreNodeHops (directed false network.now.arcs) (length network.now.nodes) hops.items) }
{
    let nodes = network.node_count();
    let mut hops = no_hops(alloc, nodes)?;
    for node in 0..nodes {
        copy_hops(&mut hops[node], network.arcs_from(node))?;
    }
    Ok(hops)
}

/// Fills a list of hops with the same in half the room.
fn copy_hops(hops: &mut NodeHops, leaving: &[Hop]) -> Result<(), OutOfMemory>
    requires few { All (λ hop. hop.to < 100000) leaving.now }
    requires none { hops.old ≡ [] }
    ensures { OnOk result (hops.new ≡ leaving.now) }
{
    for hop in leaving {
        hops.push(ShortHop::of(*hop))?;
    }
    Ok(())
}

/// The hops of the arcs that reach each node, back to where they begin.
pub(crate) fn hops_back(alloc: Global, network: &Network) -> Result<Vec<NodeHops>, OutOfMemory>
    ensures { IfOk result (λ hops. AreNodeHops (directed true network.now.arcs) (length network.now.nodes) hops.items) }
{
    let nodes = network.node_count();
    let mut hops = no_hops(alloc, nodes)?;
    for node in 0..nodes {
        turn(&mut hops, node, network.arcs_from(node))?;
    }
    Ok(hops)
}

/// Each hop of a node becomes one from its end back to the node.
fn turn(hops: &mut Vec<NodeHops>, node: usize, leaving: &[Hop]) -> Result<(), OutOfMemory>
    requires node { node < 100000 }
    requires ends { All (λ hop. hop.to < length hops.old.items) leaving.now }
    ensures { OnOk result (TurnsHops node leaving.now (length leaving.now) hops.old.items hops.new.items) }
{
    for hop in leaving {
        hops[hop.to].push(ShortHop::of(Hop {
            to: node,
            seconds: hop.seconds,
        }))?;
    }
    Ok(())
}
