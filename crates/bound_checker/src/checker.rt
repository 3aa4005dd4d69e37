ghost use Rattle.std.specs.Prelude.{◌≡◌, ℕ, OnOk, IfOk, IfErr};
ghost use Rattle.plan_rules.specs.Plan.{IsBound};
ghost use Rattle.plan_rules.specs.Tree.{IsTreeOfValue};
ghost use Rattle.bound_checker.specs.Fault.{IsTreeFault};

use crate::fault::CheckFault;
use crate::walk::Walk;
use plan_rules::{Tree, TripGraph};
use std::alloc::Global;

/// The value of a sound tree, in seconds: no lawful plan costs less. `CheckFault` names the first node
/// that is wrong.
pub fn check(alloc: Global, graph: &TripGraph, tree: &Tree) -> Result<i128, CheckFault>
    ensures tree { IfOk result (IsTreeOfValue graph.now tree.now) }
    ensures bound { IfOk result (IsBound graph.now) }
    ensures fault { IfErr result (IsTreeFault graph.now tree.now) }
{
    let allowed = vec![in alloc; true; graph.rows().len()]?;
    let mut walk = Walk {
        decisions: Vec::new(alloc),
        ended: false,
        least: None,
        allowed,
    };
    for (place, node) in tree.nodes().iter().enumerate() {
        if walk.ended {
            return Err(CheckFault::Extra { node: place as u64 });
        }
        match walk.visit(alloc, graph, node, place) {
            Ok(()) => {}
            Err(fault) => return Err(fault),
        }
    }
    if !walk.ended {
        return Err(CheckFault::Unfinished);
    }
    Ok(walk.least.unwrap_or(0))
}
