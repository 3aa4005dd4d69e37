ghost use Rattle.std.specs.Prelude.{◌≡◌, ◌<◌, ◌≤◌, All, Contains, IsTrue, length, slice_index};
ghost use Rattle.road_network.specs.declared.arc.Arc.{Arc};
ghost use Rattle.road_network.specs.declared.hop.Hop.{Hop};
ghost use Rattle.road_hierarchy.specs.work.build.Checked.{IsBacked, IsByWay, given_arcs};
ghost use Rattle.road_hierarchy.specs.work.sweeps.Sweep.{IsMatchedIn};

use crate::build::draft::{Draft, GIVEN};
use road_network::{Arc, Hop, Network};

/// Whether each of these arcs is as long as some walk: one of the network's is no longer, or it is two others by way of an
/// earlier node.
pub(crate) fn are_backed(network: &Network, draft: &Draft, arcs: &[Arc], ways: &[u32]) -> bool
    requires { length draft.now.turns.items ≡ length network.now.nodes }
    ensures { IsTrue result → All (IsBacked (given_arcs network.now draft.now.turns.items) draft.now.up.items draft.now.down.items) arcs.now }
{
    for place in 0..arcs.len() {
        let way = *ways.get(place).unwrap_or(&GIVEN);
        if !is_backed(network, draft, arcs[place], way) {
            return false;
        }
    }
    true
}

/// Whether an arc is as long as some walk: the network has it, or it leads by way of an earlier node.
fn is_backed(network: &Network, draft: &Draft, arc: Arc, way: u32) -> bool
    requires { length draft.now.turns.items ≡ length network.now.nodes }
    ensures { IsTrue result → IsBacked (given_arcs network.now draft.now.turns.items) draft.now.up.items draft.now.down.items arc }
{
    if way == GIVEN {
        is_given(network, draft, arc)
    } else {
        is_by_way(draft, arc, way)
    }
}

/// Whether the network has an arc between the nodes that is no longer.
fn is_given(network: &Network, draft: &Draft, arc: Arc) -> bool
    requires { length draft.now.turns.items ≡ length network.now.nodes }
    ensures { IsTrue result → IsMatchedIn (given_arcs network.now draft.now.turns.items) arc }
{
    let node = match draft.nodes.get(arc.from as usize) {
        Some(node) => *node as usize,
        None => return false,
    };
    if node >= network.node_count() || draft.turns[node] != arc.from {
        return false;
    }
    has_hop(&draft.turns, network.arcs_from(node), arc.to, arc.seconds)
}

/// Whether one of these hops leads to a node in so many seconds at most.
fn has_hop(turns: &[u32], hops: &[Hop], to: u32, seconds: u32) -> bool
    requires { All (λ hop. hop.to < length turns.now) hops.now }
    ensures { IsTrue result → (hop : Hop) × Contains hops.now hop × (slice_index turns.now hop.to ≡ to) × (hop.seconds ≤ seconds) }
{
    for hop in hops {
        if turns[hop.to] == to && hop.seconds <= seconds {
            return true;
        }
    }
    false
}

/// Whether an arc is two others by way of an earlier node.
fn is_by_way(draft: &Draft, arc: Arc, way: u32) -> bool
    ensures { IsTrue result → (first second : Arc) × IsByWay draft.now.up.items draft.now.down.items arc first second }
{
    if way >= arc.from || way >= arc.to {
        return false;
    }
    match (draft.falling(arc.from, way), draft.rising(way, arc.to)) {
        (Some(first), Some(second)) => {
            first.seconds <= arc.seconds && second.seconds <= arc.seconds - first.seconds
        }
        _ => false,
    }
}
