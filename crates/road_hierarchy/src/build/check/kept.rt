ghost use Rattle.std.specs.Prelude.{◌≡◌, ◌⊎◌, ◌≤◌, ◌<◌, ℕ, ◌++◌, All, IsTrue, length};
ghost use Rattle.road_hierarchy.specs.work.build.Turns.{turn_of};
ghost use Rattle.road_hierarchy.specs.work.build.Checked.{AreKept, IsKept};
ghost use Rattle.road_hierarchy.specs.work.sweeps.Sweep.{IsMatchedIn};

use crate::build::draft::Draft;
use road_network::{Hop, Network};

/// Whether each arc of the network between two nodes has one in the draft that is no longer.
pub(crate) fn are_kept(network: &Network, draft: &Draft) -> bool
    requires { length draft.now.turns.items ≡ length network.now.nodes }
    ensures { IsTrue result → AreKept network.now draft.now.turns.items (draft.now.up.items ++ draft.now.down.items) }
{
    for node in 0..network.node_count() {
        if !are_hops_kept(draft, draft.turns[node], network.arcs_from(node)) {
            return false;
        }
    }
    true
}

/// Whether each hop of a node has an arc that is no longer.
fn are_hops_kept(draft: &Draft, start: u32, hops: &[Hop]) -> bool
    requires { All (λ hop. hop.to < length draft.now.turns.items) hops.now }
    ensures { IsTrue result → All (IsKept (draft.now.up.items ++ draft.now.down.items) draft.now.turns.items start) hops.now }
{
    for hop in hops {
        if !is_kept(draft, start, draft.turns[hop.to], hop.seconds) {
            return false;
        }
    }
    true
}

/// Whether there is an arc between two nodes that is no longer than this, or there need be none.
fn is_kept(draft: &Draft, from: u32, to: u32, seconds: u32) -> bool
    ensures { IsTrue result → (from ≡ to) ⊎ IsMatchedIn (draft.now.up.items ++ draft.now.down.items) (record { from = from; to = to; seconds = seconds }) }
{
    if from == to {
        return true;
    }
    match draft.joining(from, to) {
        Some(arc) => arc.seconds <= seconds,
        None => false,
    }
}
