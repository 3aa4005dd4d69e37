ghost use Rattle.std.specs.Prelude.{◌≡◌, ◌↔◌, ℕ, ◌+◌, ◌<◌, ◌≤◌, Some, All, Contains, IsTrue, IsSome, IfOk, IfSome, length, map, nat_eq, position, slice_get};
ghost use Rattle.std.specs.List.{IsDistinct};
ghost use Rattle.road_network.specs.Roads.{IsArcAmong, IsNetwork, hop_of, leaving};
ghost use Rattle.road_network.specs.lemmas.Rows.{by_node};
ghost use Rattle.road_network.specs.lemmas.Limits.{greatest_name, most_arcs, most_nodes};
ghost use Rattle.road_network.specs.Storage.{start_at};

use crate::arc::Arc;
use crate::directory::Directory;
use crate::hop::Hop;
use crate::storage::sort_by_start;
use pool_base::{NodeId, OutOfMemory};
use std::alloc::Global;
use std::marker::Model;

// Where the hops of a node begin.
fn first_place(ends: &[usize], node: usize) -> usize
    requires { node ≤ length ends.now }
    ensures { result ≡ start_at ends.now node }
{
    if node == 0 { 0 } else { ends[node - 1] }
}

/// A road network: nodes by index, and the arcs that leave each.
///
/// It has at most 100,000 nodes and 400,000 arcs, and no arc of more than 10,000 seconds. All arcs lie
/// in one list by starting node, with the place where those of each node end.
#[derive(Drop)]
pub struct Network {
    nodes: Directory,
    ends: Vec<usize>,
    hops: Vec<Hop>,
}

impl Model for Network {
    ghost use Rattle.std.specs.Prelude.{length};
    ghost use Rattle.road_network.specs.Roads.{Roads};
    ghost use Rattle.road_network.specs.work.Storage.{stored_arcs, ArePacked};

    ghost Value = { Roads };

    ghost view = { λ a. record {
      nodes = a.nodes;
      arcs = stored_arcs (length a.nodes) a.ends.items a.hops.items;
    } };

    ghost invariant = { λ a. ArePacked a.nodes a.ends.items a.hops.items };
}

impl Network {
    // The network of these nodes and arcs, the arcs by starting node.
    pub(crate) fn of(alloc: Global, names: &[u32], arcs: &[Arc]) -> Result<Network, OutOfMemory>
        requires distinct { IsDistinct nat_eq names.now }
        requires few_nodes { length names.now ≤ most_nodes }
        requires few_arcs { length arcs.now ≤ most_arcs }
        requires names { All (λ name. name ≤ greatest_name) names.now }
        requires among { All (IsArcAmong (length names.now)) arcs.now }
        ensures { IfOk result (λ network. network
            ≡ record { nodes = names.now; arcs = by_node (length names.now) arcs.now }) }
    {
        let nodes = Directory::of(alloc, names)?;
        let (ends, hops) = sort_by_start(alloc, names.len(), arcs)?;
        Ok(Network { nodes, ends, hops })
    }

    /// Whether some row names the node.
    pub fn has_node(&self, node: NodeId) -> bool
        ensures { IsTrue result ↔ Contains self.now.nodes node }
    {
        self.nodes.number_of(node.get()).is_some()
    }

    /// The index of a node, by the order of first appearance; `None` exactly where no row names it.
    pub fn index_of(&self, node: NodeId) -> Option<usize>
        ensures value { result ≡ position (nat_eq node) self.now.nodes }
        ensures known { IsSome result ↔ Contains self.now.nodes node }
        ensures named { IfSome result (λ index. slice_get self.now.nodes index ≡ Some node) }
        ensures within { IfSome result (λ index. index < length self.now.nodes) }
    {
        self.nodes.number_of(node.get())
    }

    /// The node to which `index_of` gives this index.
    pub fn node_at(&self, index: usize) -> NodeId
        requires { index < length self.now.nodes }
        ensures named { slice_get self.now.nodes index ≡ Some result }
        ensures indexed { position (nat_eq result) self.now.nodes ≡ Some index }
    {
        let name = self.nodes.names()[index];
        NodeId::new(u64::from(name)).unwrap()
    }

    /// A law: what every network keeps.
    pub fn keeps(&self)
        ensures { IsNetwork self.now }
    {
        self.nodes.keeps();
    }

    /// How many nodes there are.
    pub fn node_count(&self) -> usize
        ensures count { result ≡ length self.now.nodes }
        ensures kept { IsNetwork self.now }
    {
        self.nodes.len()
    }

    /// How many arcs there are.
    pub fn arc_count(&self) -> usize
        ensures count { result ≡ length self.now.arcs }
        ensures few { result ≤ 400000 }
    {
        self.hops.len()
    }

    /// The arcs that leave a node, each as often as the rows give it and in their order.
    pub fn arcs_from(&self, index: usize) -> &[Hop]
        requires { index < length self.now.nodes }
        ensures { result.now ≡ map hop_of (leaving index self.now.arcs) }
    {
        let start = first_place(self.ends.as_slice(), index);
        let end = self.ends[index];
        &self.hops.as_slice()[start..end]
    }
}
