//! Where a node of a tree stands.
ghost use Rattle.std.specs.Prelude.{◌≡◌, ◌<◌, List, IfOk, OnOk, length, take, [], ◌∷◌};
ghost use Rattle.plan_rules.specs.Graph.{Graph};
ghost use Rattle.plan_rules.specs.GoodGraph.{IsGoodGraph};
ghost use Rattle.plan_rules.specs.Tree.{every_row};
ghost use Rattle.plan_rules.specs.Reading.{ReadsTo, IsSoundNode, coming_after};
ghost use Rattle.plan_rules.specs.lemmas.Tree.{IsWholeTree};
ghost use Rattle.plan_rules.specs.Path.{standing_of, IsPathOf};
ghost use Rattle.plan_rules.specs.Multipliers.{Usable};

use crate::growth::Growing;
use plan_rules::{Node, Path, TripGraph};
use pool_base::OutOfMemory;
use std::alloc::Global;

/// The decisions from the root to this node.
pub fn path_to(
    alloc: Global,
    graph: &TripGraph,
    tree: &Growing,
    place: usize,
) -> Result<Path, OutOfMemory>
    requires sound { IsWholeTree graph.now tree.now.nodes.items }
    requires place { place < length tree.now.nodes.items }
    ensures path { IfOk result (IsPathOf graph.now) }
    ensures reads { IfOk result (λ path. ReadsTo graph.now (every_row ∷ []) (take place tree.now.nodes.items) ((standing_of graph.now path).usable ∷ (standing_of graph.now path).coming)) }
{
    let count = graph.vehicle_count();
    prove!(count <= 500);
    let mut path = Path::new(alloc);
    for k in 0..place {
        follow(&mut path, &tree.nodes[k])?;
    }
    Ok(path)
}

/// Goes on from this node, where the tree isn't at its end after it.
fn follow(path: &mut Path, node: &Node) -> Result<(), OutOfMemory>
    ensures next { OnOk result ((g : Graph) (usable : Usable) (later : List Usable) → coming_after g (standing_of g path.old).usable node.now (standing_of g path.old).coming ≡ usable ∷ later → (standing_of g path.new).usable ∷ (standing_of g path.new).coming ≡ usable ∷ later) }
    ensures path { OnOk result ((g : Graph) → IsGoodGraph g → IsSoundNode g (standing_of g path.old).usable node.now → IsPathOf g path.old → IsPathOf g path.new) }
{
    match node {
        Node::Branch { vehicle, row } => {
            path.enter(*vehicle, *row)?;
        }
        Node::Leaf { multipliers: _ } => {
            path.leave();
        }
        Node::Dead => {
            path.leave();
        }
    }
    Ok(())
}
