//! The value of a tree.
ghost use Rattle.std.specs.Prelude.{◌≡◌, ◌↔◌, false, IfOk, IsTrue};
ghost use Rattle.assignment_search.specs.Found.{ShowsBound};
ghost use Rattle.report_audit.specs.work.points.Refusals.{IsRefusal};

use bound_checker::{CheckFault, check};
use plan_rules::{Tree, TripGraph};
use pool_base::OutOfMemory;
use std::alloc::Global;

/// Whether the nodes are a sound tree of this value, within the budget.
pub fn shows_bound(
    alloc: Global,
    graph: &TripGraph,
    budget: u32,
    bound: &i128,
    tree: &Tree,
) -> Result<bool, OutOfMemory>
    ensures { IfOk result (λ yes. IsTrue yes ↔ ShowsBound graph.now budget bound.now tree.now) }
{
    if tree.nodes().len() > budget as usize {
        return Ok(false);
    }
    match check(alloc, graph, tree) {
        Ok(value) => {
            if value != *bound {
                return Ok(false);
            }
            Ok(true)
        }
        Err(fault) => refused(fault),
    }
}

/// A no, unless memory was wanting.
fn refused(fault: CheckFault) -> Result<bool, OutOfMemory>
    ensures { IfOk result (λ yes. (yes ≡ false) × IsRefusal fault) }
{
    match fault {
        CheckFault::OutOfMemory => Err(OutOfMemory),
        CheckFault::BadBranch { .. } => Ok(false),
        CheckFault::BadLeaf { .. } => Ok(false),
        CheckFault::BadDead { .. } => Ok(false),
        CheckFault::Unfinished => Ok(false),
        CheckFault::Extra { .. } => Ok(false),
    }
}
