//! The nodes of a tree, each at the rows that may be chosen there.
ghost use Rattle.std.specs.Prelude.{◌≡◌, ◌↔◌, IfOk, IsTrue, OnOk, false, length};
ghost use Rattle.bound_checker.specs.lemmas.Visit.{coming_of};
ghost use Rattle.assignment_search.specs.Index.{IsIndexOf};
ghost use Rattle.plan_rules.specs.Graph.{Graph};
ghost use Rattle.plan_rules.specs.GoodGraph.{IsGoodGraph};
ghost use Rattle.plan_rules.specs.Multipliers.{usable_of};
ghost use Rattle.plan_rules.specs.Path.{IsPathOf, standing_of};
ghost use Rattle.plan_rules.specs.Reading.{IsSoundNode, coming_after};
ghost use Rattle.plan_rules.specs.Tree.{IsTreeOfValue};
ghost use Rattle.assignment_search.specs.Found.{IsFair, IsFairNode};
ghost use Rattle.report_audit.specs.work.points.Nodes.{HasMultipliers, IsLimit};

use crate::points::limit::limit_of;
use crate::points::tight::{first_seconds, first_value, index_of};
use assignment_search::RiderIndex;
use plan_rules::{Node, Path, Tree, TripGraph, leaf_value};
use pool_base::OutOfMemory;
use std::alloc::Global;

/// Whether each leaf of a tree of this value is at least as good as the first-fit multipliers, and each
/// branch was worth making.
pub fn is_fair(
    alloc: Global,
    graph: &TripGraph,
    bound: &i128,
    tree: &Tree,
) -> Result<bool, OutOfMemory>
    requires { IsTreeOfValue graph.now tree.now bound.now }
    ensures { IfOk result (λ yes. IsTrue yes ↔ IsFair graph.now bound.now tree.now) }
{
    let limit = limit_of(alloc, graph)?;
    let index = index_of(alloc, graph)?;
    let mut usable = vec![in alloc; true; graph.rows().len()]?;
    let mut walk = Walk {
        path: Path::new(alloc),
        ended: false,
    };
    for node in tree.nodes() {
        if walk.ended {
            return Ok(false);
        }
        walk.path.mark_usable(graph, &mut usable);
        if !is_fair_node(alloc, graph, &index, &usable, node, bound, limit)? {
            return Ok(false);
        }
        walk.pass(node)?;
    }
    Ok(true)
}

/// Where a walk through a tree stands.
#[derive(Drop)]
struct Walk {
    path: Path,
    ended: bool,
}

impl Walk {
    /// Goes on behind this node.
    fn pass(&mut self, node: &Node) -> Result<(), OutOfMemory>
        requires { self.old.ended ≡ false }
        ensures next { OnOk result ((g : Graph) → coming_of g self.new.ended self.new.path ≡ coming_after g (standing_of g self.old.path).usable node.now (standing_of g self.old.path).coming) }
        ensures path { OnOk result ((g : Graph) → IsGoodGraph g → IsSoundNode g (standing_of g self.old.path).usable node.now → IsPathOf g self.old.path → IsPathOf g self.new.path) }
    {
        match node {
            Node::Branch { vehicle, row } => self.path.enter(*vehicle, *row)?,
            Node::Leaf { .. } => self.ended = !self.path.leave(),
            Node::Dead => self.ended = !self.path.leave(),
        }
        Ok(())
    }
}

/// Whether a leaf's value is at least the first-fit one at its rows, and a branch was worth making.
fn is_fair_node(
    alloc: Global,
    graph: &TripGraph,
    index: &RiderIndex,
    usable: &[bool],
    node: &Node,
    bound: &i128,
    limit: u64,
) -> Result<bool, OutOfMemory>
    requires index { IsIndexOf graph.now index.now }
    requires usable { length usable.now ≡ length graph.now.rows }
    requires limit { IsLimit graph.now limit }
    requires sound { HasMultipliers graph.now node.now }
    ensures { IfOk result (λ yes. IsTrue yes ↔ IsFairNode graph.now bound.now (usable_of usable.now) node.now) }
{
    match node {
        Node::Dead => Ok(true),
        Node::Leaf { multipliers } => {
            let first = first_value(alloc, graph, index, usable)?;
            Ok(first <= leaf_value(graph, usable, multipliers.as_slice()))
        }
        Node::Branch { .. } => {
            let first = first_seconds(alloc, graph, index, usable)?;
            Ok(first <= *bound && first < i128::from(limit))
        }
    }
}
