//! What comes next at the leaf of least value.
ghost use Rattle.std.specs.Prelude.{◌≡◌, ◌+◌, ◌<◌, ◌≤◌, ℕ, pos, MatchBool, IfOk, List, ℤ, length, slice_index_or, [], ◌∷◌};
ghost use Rattle.plan_rules.specs.Tree.{every_row, rounded_up};
ghost use Rattle.plan_rules.specs.declared.node.Node.TheVariants.{Leaf};
ghost use Rattle.assignment_search.specs.work.Lookups.{AreLookupsOf};
ghost use Rattle.assignment_search.specs.work.Growth.{IsGrown, IsLowest};
ghost use Rattle.assignment_search.specs.work.Next.{IsNext};

use crate::branching::{branch_row, sole_rows};
use crate::child::Parent;
use crate::growth::{Growing, is_met};
use crate::guide::Guide;
use crate::lookups::Lookups;
use crate::parting::{Ends, allowed_at, part};
use crate::standing::path_to;
use plan_rules::{Node, Plan, TripGraph};
use pool_base::OutOfMemory;
use std::alloc::Global;

/// What comes next at a leaf.
#[derive(Drop)]
pub enum Outcome {
    /// Its value meets the limit.
    Met,
    /// This plan is lawful and costs less than the limit.
    Better(Plan),
    /// It holds more than one plan, and the budget has no room for two more nodes.
    Full,
    /// It holds this plan alone.
    Fixed(Plan),
    /// It becomes a branch with these ends.
    Parted(Ends),
}

/// What comes next at the leaf of least value. The guide suggests plans, rows and multipliers.
pub fn next(
    alloc: Global,
    graph: &TripGraph,
    lookups: &Lookups,
    tree: &Growing,
    place: usize,
    limit: u64,
    guide: &mut Guide,
) -> Result<Outcome, OutOfMemory>
    requires lookups { AreLookupsOf graph.now lookups.now }
    requires lowest { IsLowest tree.now.nodes.items tree.now.values.items place }
    requires valued { length tree.now.values.items ≡ length tree.now.nodes.items }
    requires grown { (first : ℕ) × IsGrown graph.now (rounded_up (slice_index_or tree.now.values.items place (pos 0))) first (every_row ∷ []) tree.now.nodes.items tree.now.values.items [] }
    ensures { IfOk result (IsNext graph.now tree.now.nodes.items tree.now.values.items place limit tree.now.budget) }
{
    if is_met(tree, place, limit) {
        return Ok(Outcome::Met);
    }
    if let Some(better) = guide.cheaper_plan(alloc, graph, limit)? {
        return Ok(Outcome::Better(better));
    }
    let path = path_to(alloc, graph, tree, place)?;
    let allowed = allowed_at(alloc, graph, &path)?;
    match branch_row(graph, &allowed, guide.row_at(place)) {
        None => {
            let chosen = sole_rows(alloc, graph, &allowed)?;
            Ok(Outcome::Fixed(Plan::of(chosen)))
        }
        Some(at) => {
            if is_full(tree) {
                return Ok(Outcome::Full);
            }
            let suggested = guide.grow(alloc, place, at.1)?;
            let value = tree.values[place];
            let parent = Parent {
                graph,
                allowed: &allowed,
                multipliers: multipliers_of(&tree.nodes[place]),
                value,
            };
            let ends = part(alloc, lookups, path, &parent, at, suggested)?;
            Ok(Outcome::Parted(ends))
        }
    }
}

/// Whether the budget has no room for two more nodes.
fn is_full(tree: &Growing) -> bool
    ensures { MatchBool result (tree.now.budget < length tree.now.nodes.items + 2) (length tree.now.nodes.items + 2 ≤ tree.now.budget) }
{
    tree.budget.saturating_sub(tree.nodes.len()) < 2
}

/// A leaf's multipliers.
fn multipliers_of(node: &Node) -> &[i64]
    requires { (ms : List ℤ) × (node.now ≡ Leaf ms) }
    ensures { node.now ≡ Leaf result.now }
{
    match node {
        Node::Leaf { multipliers } => multipliers.as_slice(),
        _ => unreachable!(),
    }
}
