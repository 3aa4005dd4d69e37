ghost use Rattle.std.specs.Prelude.{◌≡◌, ◌==◌, ℕ, ◌<◌, ◌≤◌, List, [], IfOk, MatchOption, OnOk, length, replicate, slice_index};
ghost use Rattle.road_network.specs.Roads.{Roads};
ghost use Rattle.road_network.specs.Walk.{HasNoWalk, IsLeastTime, IsTimeBetween};
ghost use Rattle.road_network.specs.declared.arc.Arc.{Arc};
ghost use Rattle.travel_times.specs.labels.Labels.{AreLabelsOf, label_at};
ghost use Rattle.travel_times.specs.work.labels.Adding.{IsClean};
ghost use Rattle.travel_times.specs.work.labels.Building.{AreLabelled, AreMadeFrom, AreRanksOf};
ghost use Rattle.travel_times.specs.work.labels.Order.{IsNodeOrder};

use crate::labels::hops::{NodeHops, hops_ahead, hops_back};
use crate::labels::hub::ShortHub;
use crate::labels::in_common::least_in_common;
use crate::labels::label::ShortLabel;
use crate::labels::rank::{nodes_by_rank, ranks_of};
use crate::labels::space::{Space, add_hub};
use pool_base::{OutOfMemory, Times};
use road_network::Network;
use shared_work::{FreeGate, Gate};
use std::alloc::Global;
use std::marker::Model;

/// The hub labels of a road network. Contracts see the hubs of each node, by index: those that it reaches, and those that
/// reach it.
#[derive(Drop)]
pub struct Labels {
    /// By node: its rank.
    rank: Vec<u32>,
    forward: Vec<ShortLabel>,
    backward: Vec<ShortLabel>,
}

impl Model for Labels {
    ghost use Rattle.travel_times.specs.labels.Labels.{NodeLabels};
    ghost use Rattle.travel_times.specs.work.labels.Common.{RiseByRank};

    ghost Value = { NodeLabels };

    ghost view = { λ a. record { forward = a.forward.items; backward = a.backward.items } };

    ghost invariant = { λ a. RiseByRank a.rank.items a.forward.items a.backward.items };
}

impl Labels {
    /// The labels of a network: by rank, one pruned search forward and one backward from each node.
    pub fn build(alloc: Global, network: &Network) -> Result<Labels, OutOfMemory>
        ensures { IfOk result (AreLabelsOf network.now) }
    {
        Labels::build_watched(alloc, network, &FreeGate)
    }

    /// The same. A gate hears at times how far it is, and at the end that all nodes are labelled.
    pub fn build_watched<G: Gate>(
        alloc: Global,
        network: &Network,
        gate: &G,
    ) -> Result<Labels, OutOfMemory>
        ensures { IfOk result (AreLabelsOf network.now) }
    {
        let nodes = network.node_count();
        let order = nodes_by_rank(alloc, network)?;
        let rank = ranks_of(alloc, nodes, &order)?;
        let mut forward = no_labels(alloc, nodes)?;
        let mut backward = no_labels(alloc, nodes)?;
        label_all(alloc, network, &order, gate, &mut forward, &mut backward)?;
        Ok(Labels {
            rank,
            forward,
            backward,
        })
    }

    /// How many nodes have labels.
    pub fn len(&self) -> usize
        ensures forward { result ≡ length self.now.forward }
        ensures backward { result ≡ length self.now.backward }
    {
        self.forward.len()
    }

    /// Whether there is no node.
    pub fn is_empty(&self) -> bool
        ensures { result ≡ (length self.now.forward == 0) }
    {
        self.forward.is_empty()
    }

    /// The hubs that a node reaches, by rank, with the seconds to them.
    pub fn forward(&self, a: usize) -> &[ShortHub]
        requires { a < length self.now.forward }
        ensures { result.now ≡ label_at self.now.forward a }
    {
        self.forward[a].as_slice()
    }

    /// The hubs that reach a node, by rank, with the seconds from them.
    pub fn backward(&self, b: usize) -> &[ShortHub]
        requires { b < length self.now.backward }
        ensures { result.now ≡ label_at self.now.backward b }
    {
        self.backward[b].as_slice()
    }

    pub(crate) fn forward_labels(&self) -> &[ShortLabel]
        ensures { result.now ≡ self.now.forward }
    {
        self.forward.as_slice()
    }

    pub(crate) fn backward_labels(&self) -> &[ShortLabel]
        ensures { result.now ≡ self.now.backward }
    {
        self.backward.as_slice()
    }

    /// The least seconds over all walks from one node to another, by the hubs that their labels have in common; `NEVER`
    /// exactly where there is no walk.
    pub(crate) fn time(&self, a: usize, b: usize) -> u32
        requires from { a < length self.now.forward }
        requires to { b < length self.now.backward }
        ensures { (roads : Roads) → AreLabelsOf roads self.now → IsTimeBetween roads.arcs a b result }
    {
        least_in_common(
            &self.rank,
            self.forward[a].as_slice(),
            self.backward[b].as_slice(),
        )
    }

    /// The least seconds over all walks from one node to another; `None` exactly where there is no walk. It takes no memory.
    pub fn seconds(&self, a: usize, b: usize) -> Option<u32>
        requires from { a < length self.now.forward }
        requires to { b < length self.now.backward }
        ensures { (roads : Roads) → AreLabelsOf roads self.now → MatchOption result (HasNoWalk roads.arcs a b) (IsLeastTime roads.arcs a b) }
    {
        let seconds = self.time(a, b);
        if seconds == Times::NEVER {
            None
        } else {
            Some(seconds)
        }
    }
}

/// Makes the labels of all nodes, where none has any.
fn label_all<G: Gate>(
    alloc: Global,
    network: &Network,
    order: &[u32],
    gate: &G,
    forward: &mut [ShortLabel],
    backward: &mut [ShortLabel],
) -> Result<(), OutOfMemory>
    requires order { IsNodeOrder network.now.arcs (length network.now.nodes) order.now }
    requires ranks { (rank : _) × AreRanksOf network.now.arcs (length network.now.nodes) order.now rank }
    requires forward { forward.old ≡ replicate (length network.now.nodes) [] }
    requires backward { backward.old ≡ replicate (length network.now.nodes) [] }
    ensures { OnOk result ((rank : List ℕ) → AreRanksOf network.now.arcs (length network.now.nodes) order.now rank → AreLabelled network.now.arcs rank (length network.now.nodes) (length order.now) forward.new backward.new) }
{
    let ahead = hops_ahead(alloc, network)?;
    let back = hops_back(alloc, network)?;
    let mut space = Space::new(alloc, network.node_count())?;
    let hops = HopsBothWays {
        ahead: &ahead,
        back: &back,
    };
    label_by_rank(&mut space, &hops, order, gate, forward, backward)
}

/// By node: the arcs that leave it and those that lead to it.
#[derive(Drop)]
struct HopsBothWays<'a> {
    ahead: &'a [NodeHops],
    back: &'a [NodeHops],
}

/// The same, by the arcs in both directions: one search forward and one backward from each node.
fn label_by_rank<G: Gate>(
    space: &mut Space,
    hops: &HopsBothWays<'_>,
    order: &[u32],
    gate: &G,
    forward: &mut [ShortLabel],
    backward: &mut [ShortLabel],
) -> Result<(), OutOfMemory>
    requires clean { IsClean (length hops.now.ahead.now) space.old.seconds.items space.old.waiting.items space.old.taken.items space.old.via.items }
    requires made { (arcs : _) × (rank : _) × AreMadeFrom arcs rank order.now hops.now.ahead.now hops.now.back.now }
    requires few { length hops.now.ahead.now ≤ 100000 }
    requires within { (r : ℕ) → r < length order.now → slice_index order.now r < length hops.now.ahead.now }
    requires forward { forward.old ≡ replicate (length hops.now.ahead.now) [] }
    requires backward { backward.old ≡ replicate (length hops.now.ahead.now) [] }
    ensures { OnOk result ((arcs : List Arc) (rank : List ℕ) → AreMadeFrom arcs rank order.now hops.now.ahead.now hops.now.back.now → AreLabelled arcs rank (length hops.now.ahead.now) (length order.now) forward.new backward.new) }
{
    let mut labelled = 0usize;
    for node in order {
        let start = *node as usize;
        add_hub(space, hops.ahead, forward, backward, start)?;
        add_hub(space, hops.back, backward, forward, start)?;
        labelled = labelled.saturating_add(1);
        tell(gate, labelled, forward, backward);
    }
    Ok(())
}

/// Tells the gate how many nodes are labelled, at each 64th and at the last.
fn tell<G: Gate>(gate: &G, labelled: usize, forward: &[ShortLabel], backward: &[ShortLabel]) {
    let all = forward.len();
    if labelled % 64 == 0 || labelled == all {
        let bytes = bytes_of(forward).saturating_add(bytes_of(backward));
        gate.labelled(labelled, all, bytes);
    }
}

/// How many bytes the hubs of these labels take.
fn bytes_of(labels: &[ShortLabel]) -> u64 {
    let mut bytes = 0u64;
    for label in labels {
        bytes = bytes.saturating_add(label.bytes());
    }
    bytes
}

/// As many nodes without hubs.
fn no_labels(alloc: Global, nodes: usize) -> Result<Vec<ShortLabel>, OutOfMemory>
    ensures { IfOk result (λ labels. labels.items ≡ replicate nodes []) }
{
    let mut labels = Vec::with_capacity(alloc, nodes)?;
    for _ in 0..nodes {
        labels.push(ShortLabel::empty(alloc))?;
    }
    Ok(labels)
}
