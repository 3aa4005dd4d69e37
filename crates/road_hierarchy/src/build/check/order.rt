ghost use Rattle.std.specs.Prelude.{◌≡◌, ◌<◌, ℕ, IsTrue, length, slice_index};
ghost use Rattle.road_hierarchy.specs.work.build.Turns.{AreTurns};
ghost use Rattle.road_hierarchy.specs.work.build.Checked.{AreDowns, AreUps};

use crate::sweeps::block::FAR;
use road_network::Arc;

/// Whether each node has a turn of its own.
pub(crate) fn are_turns(turns: &[u32], nodes: &[u32]) -> bool
    ensures { IsTrue result → AreTurns turns.now nodes.now }
{
    if nodes.len() != turns.len() {
        return false;
    }
    for node in 0..turns.len() {
        let turn = turns[node] as usize;
        if turn >= nodes.len() || nodes[turn] as usize != node {
            return false;
        }
    }
    true
}

/// Whether arcs lead up, in the order of their starts.
pub(crate) fn are_ups(nodes: usize, up: &[Arc]) -> bool
    ensures { IsTrue result → AreUps nodes up.now }
{
    let mut last = 0;
    for arc in up {
        if arc.from < last || arc.to <= arc.from || arc.to as usize >= nodes || arc.seconds > FAR {
            return false;
        }
        last = arc.from;
    }
    true
}

/// Whether arcs lead down, from the last of their ends.
pub(crate) fn are_downs(nodes: usize, down: &[Arc]) -> bool
    ensures { IsTrue result → AreDowns nodes down.now }
{
    let mut last = u32::MAX;
    for arc in down {
        if arc.to > last || arc.from <= arc.to || arc.from as usize >= nodes || arc.seconds > FAR {
            return false;
        }
        last = arc.to;
    }
    true
}
