//! How good a bound is.
ghost use Rattle.std.specs.Prelude.{◌≡◌, ◌↔◌, ◌+◌, ◌≤◌, IfOk, IsTrue, length};
ghost use Rattle.assignment_search.specs.Index.{IsIndexOf};
ghost use Rattle.plan_rules.specs.Multipliers.{first_fit_value, usable_of};
ghost use Rattle.plan_rules.specs.Size.{IsSmallSum};
ghost use Rattle.plan_rules.specs.Tree.{every_row, rounded_up};
ghost use Rattle.assignment_search.specs.Found.{IsClose};

use crate::points::choices::is_closable;
use assignment_search::{RiderIndex, first_fit_by};
use plan_rules::{Tree, TripGraph, leaf_value, rounded_up};
use pool_base::OutOfMemory;
use row_tables::RowTable;
use std::alloc::Global;

/// Whether the bound is the plan's cost unless the budget was spent, and no worse than the first-fit
/// multipliers show at once.
pub fn is_close(
    alloc: Global,
    graph: &TripGraph,
    budget: u32,
    cost: u64,
    bound: &i128,
    tree: &Tree,
) -> Result<bool, OutOfMemory>
    ensures { IfOk result (λ yes. IsTrue yes ↔ IsClose graph.now budget cost bound.now tree.now) }
{
    if *bound < i128::from(cost) && has_budget_left(tree, budget) {
        return Ok(false);
    }
    if is_closable(graph, budget) && *bound != i128::from(cost) {
        return Ok(false);
    }
    if root_value(alloc, graph)? > *bound {
        return Ok(false);
    }
    Ok(true)
}

/// Whether two nodes more are within the budget.
fn has_budget_left(tree: &Tree, budget: u32) -> bool
    ensures { IsTrue result ↔ (length tree.now + 2 ≤ budget) }
{
    tree.nodes().len() + 2 <= budget as usize
}

/// What the first-fit multipliers of all rows show, in seconds.
fn root_value(alloc: Global, graph: &TripGraph) -> Result<i128, OutOfMemory>
    ensures { IfOk result (λ value. value ≡ rounded_up (first_fit_value graph.now every_row)) }
{
    let index = index_of(alloc, graph)?;
    let usable = vec![in alloc; true; graph.rows().len()]?;
    first_seconds(alloc, graph, &index, &usable)
}

pub(crate) fn index_of(alloc: Global, graph: &TripGraph) -> Result<RiderIndex, OutOfMemory>
    ensures { IfOk result (IsIndexOf graph.now) }
{
    let table = RowTable::of_graph(alloc, graph)?;
    RiderIndex::new(alloc, graph, &table)
}

/// The leaf value of the first-fit multipliers.
pub(crate) fn first_value(
    alloc: Global,
    graph: &TripGraph,
    index: &RiderIndex,
    usable: &[bool],
) -> Result<i128, OutOfMemory>
    requires index { IsIndexOf graph.now index.now }
    requires usable { length usable.now ≡ length graph.now.rows }
    ensures value { IfOk result (λ value. value ≡ first_fit_value graph.now (usable_of usable.now)) }
    ensures small { IfOk result (λ value. IsSmallSum 1500 value) }
{
    let multipliers = first_fit_by(alloc, graph, index, usable)?;
    Ok(leaf_value(graph, usable, multipliers.as_slice()))
}

/// The same in seconds, rounded up.
pub(crate) fn first_seconds(
    alloc: Global,
    graph: &TripGraph,
    index: &RiderIndex,
    usable: &[bool],
) -> Result<i128, OutOfMemory>
    requires index { IsIndexOf graph.now index.now }
    requires usable { length usable.now ≡ length graph.now.rows }
    ensures { IfOk result (λ value. value ≡ rounded_up (first_fit_value graph.now (usable_of usable.now))) }
{
    let multipliers = first_fit_by(alloc, graph, index, usable)?;
    Ok(rounded_up(leaf_value(graph, usable, multipliers.as_slice())))
}
