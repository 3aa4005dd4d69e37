//! Branch and bound (Land and Doig, 1960), best bound first.
ghost use Rattle.std.specs.Prelude.{◌≡◌, ◌≤◌, ℕ, IfOk, List, Option};
ghost use Rattle.plan_rules.specs.Plan.{IsLawful, cost_of};
ghost use Rattle.plan_rules.specs.Greedy.{IsGreedy};
ghost use Rattle.plan_rules.specs.Tree.{every_row, rounded_up};
ghost use Rattle.plan_rules.specs.GoodGraph.{IsGoodGraph};
ghost use Rattle.assignment_search.specs.work.Lookups.{AreLookupsOf};
ghost use Rattle.assignment_search.specs.Found.{IsSearchAnswer};
ghost use Rattle.assignment_search.specs.work.Found.{IsTreeSoFar};
ghost use Rattle.assignment_search.specs.work.Growth.{IsGoodLeaf};
ghost use Rattle.assignment_search.specs.work.OpenLeaves.{AreOpen};

use crate::child::{Judged, root_leaf};
use crate::exchange::exchange;
use crate::first_plan::first_plan;
use crate::found::Found;
use crate::growth::{Growing, bound_at};
use crate::guide::Guide;
use crate::lookups::Lookups;
use crate::step::{Outcome, next};
use plan_rules::{Plan, Tree, TripGraph, cost_of};
use pool_base::OutOfMemory;
use row_tables::Drafter;
use std::alloc::Global;
use std::mem::replace;
use std::thread::Threads;

/// A lawful plan and a bound on every lawful plan's cost, with a tree of at most `budget` nodes that shows it.
///
/// The bound meets the cost unless the budget has no room for another branch. The search begins with a plain draft:
/// the held plan, and multipliers by an ascent from the first-fit ones.
pub fn search(alloc: Global, graph: &TripGraph, budget: u32) -> Result<Found, OutOfMemory>
    requires { 1 ≤ budget }
    ensures { IfOk result (IsSearchAnswer graph.now budget) }
{
    run(alloc, graph, budget, &mut Guide::plain(alloc, graph)?)
}

/// The same, begun with the draft of this drafter. All that the search takes of a draft it judges. Where the
/// drafter fails, a plain draft takes its place. The drafter is given so many workers.
pub fn search_by<R: Threads + Sync, D: Drafter>(
    rt: &R,
    alloc: Global,
    graph: &TripGraph,
    budget: u32,
    workers: u8,
    drafter: &D,
) -> Result<Found, OutOfMemory>
    requires { 1 ≤ budget }
    ensures { IfOk result (IsSearchAnswer graph.now budget) }
{
    let guide = &mut Guide::by(rt, alloc, graph, budget as usize, workers, drafter)?;
    run(alloc, graph, budget, guide)
}

/// The search by this guide.
fn run(
    alloc: Global,
    graph: &TripGraph,
    budget: u32,
    guide: &mut Guide,
) -> Result<Found, OutOfMemory>
    requires { 1 ≤ budget }
    ensures { IfOk result (IsSearchAnswer graph.now budget) }
{
    let plan = first_plan(alloc, graph)?;
    let lookups = Lookups::new(alloc, graph, guide.table())?;
    let root = root_leaf(alloc, graph, &lookups, guide)?;
    branch(alloc, graph, budget, &lookups, guide, plan, root)
}

/// Branches from the root, with this plan to begin with, until the bound meets the cost or the budget is spent.
fn branch(
    alloc: Global,
    graph: &TripGraph,
    budget: u32,
    lookups: &Lookups,
    guide: &mut Guide,
    first: Plan,
    root: Judged,
) -> Result<Found, OutOfMemory>
    requires budget { 1 ≤ budget }
    requires good { IsGoodGraph graph.now }
    requires lookups { AreLookupsOf graph.now lookups.now }
    requires lawful { IsLawful graph.now first }
    requires held { cost_of graph.now first ≤ cost_of graph.now graph.now.held }
    requires greedy { (chosen : List (Option ℕ)) → IsGreedy graph.now chosen → IsLawful graph.now chosen → cost_of graph.now first ≤ cost_of graph.now chosen }
    requires leaf { IsGoodLeaf graph.now (rounded_up root.value) every_row root.multipliers root.value }
    ensures { IfOk result (IsSearchAnswer graph.now budget) }
{
    let mut tree = Growing::new(alloc, budget as usize, root)?;
    let found = grow(alloc, graph, lookups, guide, &mut tree, first);
    drop(tree);
    found
}

/// Grows the tree with this plan to begin with, and takes its nodes out of it.
fn grow(
    alloc: Global,
    graph: &TripGraph,
    lookups: &Lookups,
    guide: &mut Guide,
    tree: &mut Growing,
    first: Plan,
) -> Result<Found, OutOfMemory>
    requires good { IsGoodGraph graph.now }
    requires lookups { AreLookupsOf graph.now lookups.now }
    requires lawful { IsLawful graph.now first }
    requires held { cost_of graph.now first ≤ cost_of graph.now graph.now.held }
    requires greedy { (chosen : List (Option ℕ)) → IsGreedy graph.now chosen → IsLawful graph.now chosen → cost_of graph.now first ≤ cost_of graph.now chosen }
    requires tree { IsTreeSoFar graph.now tree.old.budget (cost_of graph.now first) tree.old.nodes.items tree.old.values.items }
    requires leaves { AreOpen tree.old tree.old.nodes.items tree.old.values.items }
    ensures { IfOk result (IsSearchAnswer graph.now tree.old.budget) }
{
    let mut plan = first;
    let mut limit = cost_of(graph, &plan);
    loop {
        let place = tree.first();
        let bound = bound_at(tree, place);
        match next(alloc, graph, lookups, tree, place, limit, guide)? {
            Outcome::Parted(ends) => tree.grow(alloc, place, ends)?,
            Outcome::Better(better) => {
                limit = cost_of(graph, &better);
                plan = better;
            }
            Outcome::Met => return Ok(found_of(alloc, graph, plan, bound, tree)),
            Outcome::Fixed(best) => return Ok(found_of(alloc, graph, best, bound, tree)),
            Outcome::Full => {
                let best = exchange(alloc, graph, plan)?;
                return Ok(found_of(alloc, graph, best, bound, tree));
            }
        }
    }
}

/// What is found: a plan with its cost, and this tree's nodes with their bound.
fn found_of(alloc: Global, graph: &TripGraph, plan: Plan, bound: i128, tree: &mut Growing) -> Found
    requires { IsLawful graph.now plan }
    ensures plan { result.plan ≡ plan }
    ensures cost { result.cost ≡ cost_of graph.now plan }
    ensures bound { result.bound ≡ bound }
    ensures tree { result.tree ≡ tree.old.nodes.items }
{
    Found {
        cost: cost_of(graph, &plan),
        plan,
        bound,
        tree: Tree::of(replace(&mut tree.nodes, Vec::new(alloc))),
    }
}
