ghost use Rattle.std.specs.Prelude.{◌≡◌, ◌++◌, All, IfOk, IsTrue, length};
ghost use Rattle.road_hierarchy.specs.work.build.Turns.{AreTurns};
ghost use Rattle.road_hierarchy.specs.work.build.Checked.{AreDowns, AreKept, AreUps, IsBacked, IsReady, given_arcs};

use crate::build::check::backed::are_backed;
use crate::build::check::kept::are_kept;
use crate::build::check::listed::are_listed;
use crate::build::check::order::{are_downs, are_turns, are_ups};
use crate::build::check::past::are_passed;
use crate::build::draft::Draft;
use pool_base::OutOfMemory;
use road_network::Network;
use std::alloc::Global;

/// Whether a draft is a hierarchy of a network. At most so many arcs are looked at.
pub(crate) fn is_ready(
    alloc: Global,
    network: &Network,
    draft: &Draft,
    rest: u64,
) -> Result<bool, OutOfMemory>
    ensures { IfOk result (λ ready. IsTrue ready → IsReady network.now draft.now.turns.items draft.now.up.items draft.now.down.items) }
{
    let nodes = network.node_count();
    if !is_ordered(nodes, draft) || !are_listed(draft) || !is_timed(network, draft) {
        return Ok(false);
    }
    if !are_passed(alloc, draft, rest)? {
        return Ok(false);
    }
    Ok(true)
}

/// Whether so many nodes have turns of their own, and arcs lead up and down by these.
fn is_ordered(nodes: usize, draft: &Draft) -> bool
    ensures count { IsTrue result → length draft.now.turns.items ≡ nodes }
    ensures turns { IsTrue result → AreTurns draft.now.turns.items draft.now.nodes.items }
    ensures ups { IsTrue result → AreUps nodes draft.now.up.items }
    ensures downs { IsTrue result → AreDowns nodes draft.now.down.items }
{
    let turns = draft.turns.as_slice();
    let order = draft.nodes.as_slice();
    if turns.len() != nodes || !are_turns(turns, order) {
        return false;
    }
    let up = draft.up.as_slice();
    let down = draft.down.as_slice();
    if !are_ups(nodes, up) || !are_downs(nodes, down) {
        return false;
    }
    true
}

/// Whether each arc is as long as some walk of the network, and no arc of the network is shorter than these.
fn is_timed(network: &Network, draft: &Draft) -> bool
    requires { length draft.now.turns.items ≡ length network.now.nodes }
    ensures kept { IsTrue result → AreKept network.now draft.now.turns.items (draft.now.up.items ++ draft.now.down.items) }
    ensures ups { IsTrue result → All (IsBacked (given_arcs network.now draft.now.turns.items) draft.now.up.items draft.now.down.items) draft.now.up.items }
    ensures downs { IsTrue result → All (IsBacked (given_arcs network.now draft.now.turns.items) draft.now.up.items draft.now.down.items) draft.now.down.items }
{
    if !are_kept(network, draft) {
        return false;
    }
    let up = draft.up.as_slice();
    let down = draft.down.as_slice();
    let rising = are_backed(network, draft, up, &draft.up_ways);
    let falling = are_backed(network, draft, down, &draft.down_ways);
    if !rising || !falling {
        return false;
    }
    true
}
