//! The nodes that shortest walks from a start come to, found by a breadth-first search.
ghost use Rattle.std.specs.Prelude.{◌≡◌, ◌≢◌, ℕ, ◌<◌, false, true, IfSome, IfNone, OnOk, length, replicate, slice_index, slice_set, ◌++◌, ◌∷◌, []};
ghost use Rattle.pool_base.specs.TravelTime.{never};
ghost use Rattle.travel_times.specs.search.Near.{AreTimesUpTo};
ghost use Rattle.route_drive.specs.work.Tree.{Grows, IsOpened, IsTree, found_at, is_seen};

use pool_base::OutOfMemory;
use road_network::Network;
use std::alloc::Global;

/// A node that was found, and the number of the one that it was found from.
#[derive(Clone, Copy)]
pub struct Found {
    pub node: usize,
    pub by: usize,
}

/// What a search found so far. Each node stands behind the one that it was found from.
#[derive(Drop)]
pub struct Tree {
    /// By node: whether it was found.
    pub seen: Vec<bool>,
    pub found: Vec<Found>,
}

impl Tree {
    /// Nothing is found.
    pub(crate) fn new(alloc: Global) -> Tree
        ensures { result.found.items ≡ [] }
    {
        Tree {
            seen: Vec::new(alloc),
            found: Vec::new(alloc),
        }
    }

    /// Begins with the start, which is one of so many nodes.
    fn begin(&mut self, alloc: Global, nodes: usize, start: usize) -> Result<(), OutOfMemory>
        requires empty { self.old.found.items ≡ [] }
        requires start { start < nodes }
        ensures seen { OnOk result (self.new.seen.items ≡ slice_set (replicate nodes false) start true) }
        ensures found { OnOk result (self.new.found.items ≡ [] ++ (record { node = start; by = 0 }) ∷ []) }
    {
        self.seen = vec![in alloc; false; nodes]?;
        self.mark(start, 0)
    }

    fn mark(&mut self, node: usize, by: usize) -> Result<(), OutOfMemory>
        requires { node < length self.old.seen.items }
        ensures seen { OnOk result (self.new.seen.items ≡ slice_set self.old.seen.items node true) }
        ensures found { OnOk result (self.new.found.items ≡ self.old.found.items ++ (record { node = node; by = by }) ∷ []) }
    {
        self.seen[node] = true;
        self.found.push(Found { node, by })?;
        Ok(())
    }

    /// The number of a node among those found.
    pub(crate) fn number_of(&self, node: usize) -> Option<usize>
        ensures some { IfSome result (λ k. (k < length self.now.found.items) × ((found_at self.now.found.items k).node ≡ node)) }
        ensures none { IfNone result ((k : ℕ) → k < length self.now.found.items → (found_at self.now.found.items k).node ≢ node) }
    {
        for (number, found) in self.found.iter().enumerate() {
            if found.node == node {
                return Some(number);
            }
        }
        None
    }
}

/// Finds nodes to which shortest walks from the start lead, until the goal is found, where these are the times from the
/// start as far as the goal (Moore 1959): along arcs on which the time rises by the arc's seconds.
pub(crate) fn shortest_tree(
    alloc: Global,
    network: &Network,
    times: &[u32],
    start: usize,
    goal: usize,
    tree: &mut Tree,
) -> Result<(), OutOfMemory>
    requires empty { tree.old.found.items ≡ [] }
    requires start { start < length network.now.nodes }
    requires goal { goal < length network.now.nodes }
    requires size { length times.now ≡ length network.now.nodes }
    requires times { AreTimesUpTo network.now.arcs (length network.now.nodes) start (slice_index times.now goal) times.now }
    requires near { slice_index times.now goal < never }
    ensures { OnOk result (IsTree network.now.arcs times.now tree.new.seen.items tree.new.found.items
        × ((found_at tree.new.found.items 0).node ≡ start) × (is_seen tree.new.seen.items goal ≡ true)) }
{
    let most = times[goal];
    tree.begin(alloc, network.node_count(), start)?;
    let mut next = 0;
    while next < tree.found.len() {
        if tree.seen[goal] {
            return Ok(());
        }
        open(network, times, most, tree, next)?;
        next += 1;
    }
    Ok(())
}

/// Finds the nodes to which the arcs of one that was found lead, if the time rises by the arc's seconds and is at most
/// this.
fn open(
    network: &Network,
    times: &[u32],
    most: u32,
    tree: &mut Tree,
    next: usize,
) -> Result<(), OutOfMemory>
    requires size { length times.now ≡ length network.now.nodes }
    requires most { most < never }
    requires next { next < length tree.old.found.items }
    requires tree { IsTree network.now.arcs times.now tree.old.seen.items tree.old.found.items }
    ensures { OnOk result (IsTree network.now.arcs times.now tree.new.seen.items tree.new.found.items
        × Grows tree.old.seen.items tree.new.seen.items tree.old.found.items tree.new.found.items
        × IsOpened network.now.arcs times.now most tree.new.seen.items (found_at tree.old.found.items next).node) }
{
    network.keeps();
    let node = tree.found[next].node;
    let here = times[node] as u64;
    for hop in network.arcs_from(node) {
        let there = times[hop.to];
        if there <= most && here + hop.seconds as u64 == there as u64 && !tree.seen[hop.to] {
            tree.mark(hop.to, next)?;
        }
    }
    Ok(())
}
