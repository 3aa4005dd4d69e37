ghost use Rattle.std.specs.Prelude.{◌≡◌, ◌<◌, [], Contains, IfOk, MatchOption, length, slice_index};
ghost use Rattle.road_network.specs.Roads.{index_in};
ghost use Rattle.road_network.specs.Walk.{HasNoWalk};
ghost use Rattle.travel_times.specs.search.Near.{AreTimesUpTo};
ghost use Rattle.route_drive.specs.Walk.{IsShortestWalk};
ghost use Rattle.route_drive.specs.work.Tree.{IsTree, IsWalkBack, found_at};

use crate::tree::{Tree, shortest_tree};
use pool_base::{NodeId, OutOfMemory, Times};
use road_network::Network;
use std::alloc::Global;
use travel_times::{Arcs, Search};

/// A node that a walk comes to, and the seconds since its start.
#[derive(Clone, Copy)]
pub struct WalkStep {
    pub node: NodeId,
    pub seconds: u32,
}

/// The nodes of a shortest walk between two nodes, both included, each with the seconds since its start; `None`
/// exactly where there is no walk.
///
/// The times come from a search that goes no further than the goal; a breadth-first search along the arcs on which
/// the time rises by the arc's seconds then finds the walk.
pub fn shortest_walk(
    alloc: Global,
    network: &Network,
    from: NodeId,
    to: NodeId,
) -> Result<Option<Vec<WalkStep>>, OutOfMemory>
    requires from { Contains network.now.nodes from }
    requires to { Contains network.now.nodes to }
    ensures { IfOk result (λ walk. MatchOption walk
        (HasNoWalk network.now.arcs (index_in network.now.nodes from) (index_in network.now.nodes to))
        (λ steps. IsShortestWalk network.now from to steps.items)) }
{
    let arcs = Arcs::of(alloc, network)?;
    let mut search = Search::new(alloc)?;
    shortest_walk_with(&mut search, &arcs, from, to)
}

/// `shortest_walk` in the room of earlier searches.
pub(crate) fn shortest_walk_with(
    search: &mut Search,
    arcs: &Arcs<'_>,
    from: NodeId,
    to: NodeId,
) -> Result<Option<Vec<WalkStep>>, OutOfMemory>
    requires from { Contains arcs.now.network.now.nodes from }
    requires to { Contains arcs.now.network.now.nodes to }
    ensures { IfOk result (λ walk. MatchOption walk
        (HasNoWalk arcs.now.network.now.arcs (index_in arcs.now.network.now.nodes from) (index_in arcs.now.network.now.nodes to))
        (λ steps. IsShortestWalk arcs.now.network.now from to steps.items)) }
{
    let network = arcs.network;
    network.keeps();
    let start = network.index_of(from).unwrap();
    let goal = network.index_of(to).unwrap();
    search.run(arcs, start, Some(goal))?;
    let mut tree = Tree::new(search.alloc);
    walk_by(
        search.alloc,
        network,
        &search.seconds,
        start,
        goal,
        &mut tree,
    )
}

/// A shortest walk between two nodes by their indexes, where these are the times as far as the goal, in the room of an
/// empty tree.
fn walk_by(
    alloc: Global,
    network: &Network,
    times: &[u32],
    start: usize,
    goal: usize,
    tree: &mut Tree,
) -> Result<Option<Vec<WalkStep>>, OutOfMemory>
    requires empty { tree.old.found.items ≡ [] }
    requires start { start < length network.now.nodes }
    requires goal { goal < length network.now.nodes }
    requires size { length times.now ≡ length network.now.nodes }
    requires times { AreTimesUpTo network.now.arcs (length network.now.nodes) start (slice_index times.now goal) times.now }
    ensures { IfOk result (λ walk. MatchOption walk (HasNoWalk network.now.arcs start goal) (λ steps. IsWalkBack network.now times.now start goal steps.items)) }
{
    network.keeps();
    let time = times[goal];
    if time == Times::NEVER {
        return Ok(None);
    }
    shortest_tree(alloc, network, times, start, goal, tree)?;
    let number = tree.number_of(goal).unwrap();
    let steps = steps_to(alloc, network, times, tree, number)?;
    Ok(Some(steps))
}

/// The steps of the walk by which a node was found.
fn steps_to(
    alloc: Global,
    network: &Network,
    times: &[u32],
    tree: &Tree,
    number: usize,
) -> Result<Vec<WalkStep>, OutOfMemory>
    requires size { length times.now ≡ length network.now.nodes }
    requires number { number < length tree.now.found.items }
    requires tree { IsTree network.now.arcs times.now tree.now.seen.items tree.now.found.items }
    ensures { IfOk result (λ steps. IsWalkBack network.now times.now (found_at tree.now.found.items 0).node (found_at tree.now.found.items number).node steps.items) }
{
    let mut steps = Vec::new(alloc);
    let mut at = number;
    steps.push(step_at(network, times, tree.found[at].node))?;
    while at > 0 {
        at = tree.found[at].by;
        steps.push(step_at(network, times, tree.found[at].node))?;
    }
    steps.reverse();
    Ok(steps)
}

/// A node with its time.
fn step_at(network: &Network, times: &[u32], node: usize) -> WalkStep
    requires node { node < length network.now.nodes }
    requires size { length times.now ≡ length network.now.nodes }
    ensures { result ≡ record { node = slice_index network.now.nodes node; seconds = slice_index times.now node } }
{
    WalkStep {
        node: network.node_at(node),
        seconds: times[node],
    }
}
