ghost use Rattle.std.specs.Prelude.{◌≡◌, ◌++◌, IfSome, Contains};
ghost use Rattle.road_network.specs.declared.arc.Arc.{Arc};

use road_network::Arc;

/// What stands for "the network has it" among the nodes by whose way arcs lead.
pub(crate) const GIVEN: u32 = u32::MAX;

/// A draft of a hierarchy: what its arcs are, and where to look for them. All nodes are named by their turns.
#[derive(Drop)]
pub(crate) struct Draft {
    /// By node of the network: its turn.
    pub turns: Vec<u32>,
    /// By turn: the node.
    pub nodes: Vec<u32>,
    /// The arcs up, by their starts.
    pub up: Vec<Arc>,
    /// The nodes by whose way they lead.
    pub up_ways: Vec<u32>,
    /// By node: where its arcs up begin.
    pub up_starts: Vec<u32>,
    /// The arcs down, from the last of their ends.
    pub down: Vec<Arc>,
    /// The nodes by whose way they lead.
    pub down_ways: Vec<u32>,
    /// By node, from the last: where the arcs down to it begin.
    pub down_starts: Vec<u32>,
    /// All arcs by their starts, those of a node from the last of their ends.
    pub leaving: Vec<Arc>,
    /// By node: where the arcs that leave it begin.
    pub leaving_starts: Vec<u32>,
}

impl Draft {
    /// An arc between two nodes, if there is one.
    pub(crate) fn joining(&self, from: u32, to: u32) -> Option<Arc>
        ensures { IfSome result (λ arc. Contains (self.now.up.items ++ self.now.down.items) arc × (arc.from ≡ from) × (arc.to ≡ to)) }
    {
        if from < to {
            self.rising(from, to)
        } else {
            self.falling(from, to)
        }
    }

    /// An arc up between two nodes, if there is one.
    pub(crate) fn rising(&self, from: u32, to: u32) -> Option<Arc>
        ensures { IfSome result (λ arc. Contains self.now.up.items arc × (arc.from ≡ from) × (arc.to ≡ to)) }
    {
        let (start, end) = places_of(&self.up_starts, from as usize);
        find(&self.up, start, end, from, to)
    }

    /// An arc down between two nodes, if there is one.
    pub(crate) fn falling(&self, from: u32, to: u32) -> Option<Arc>
        ensures { IfSome result (λ arc. Contains self.now.down.items arc × (arc.from ≡ from) × (arc.to ≡ to)) }
    {
        let last = self.turns.len().saturating_sub(1);
        let (start, end) = places_of(&self.down_starts, last.saturating_sub(to as usize));
        find(&self.down, start, end, from, to)
    }
}

/// Where the places of a node begin and end, by where those of each begin.
pub(crate) fn places_of(starts: &[u32], node: usize) -> (usize, usize) {
    match (starts.get(node), starts.get(node.saturating_add(1))) {
        (Some(start), Some(end)) => (*start as usize, *end as usize),
        _ => (0, 0),
    }
}

/// An arc between two nodes at some of the places, if there is one.
fn find(arcs: &[Arc], start: usize, end: usize, from: u32, to: u32) -> Option<Arc>
    ensures { IfSome result (λ arc. Contains arcs.now arc × (arc.from ≡ from) × (arc.to ≡ to)) }
{
    for place in start..end.min(arcs.len()) {
        let arc = arcs[place];
        if arc.from == from && arc.to == to {
            return Some(arc);
        }
    }
    None
}
