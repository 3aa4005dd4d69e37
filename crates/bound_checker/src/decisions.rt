//! Where a walk through a tree in preorder stands, and which rows may be chosen there.
ghost use Rattle.std.specs.Prelude.{◌≡◌, ◌==◌, ◌&&◌, ◌||◌, not, ◌<◌, ℕ, true, false, [], ◌∷◌, ◌++◌, length, slice_index_or, IfOk, OnOk, MatchBool};
ghost use Rattle.plan_rules.specs.Graph.{Graph, row_vehicle};
ghost use Rattle.plan_rules.specs.Path.{standing_of, IsPathOf};

use plan_rules::{Decision, TripGraph};
use pool_base::OutOfMemory;

/// Goes to the first subtree of a branch.
pub(crate) fn enter(
    decisions: &mut Vec<Decision>,
    vehicle: u32,
    row: u32,
) -> Result<(), OutOfMemory>
    ensures { OnOk result (decisions.new.items ≡ decisions.old.items ++ record { vehicle = vehicle; row = row; alone = true } ∷ []) }
{
    decisions.push(Decision {
        vehicle,
        row,
        alone: true,
    })?;
    Ok(())
}

/// Goes from a leaf or dead end to the next subtree; `false` where the tree is at its end.
pub(crate) fn leave(decisions: &mut Vec<Decision>) -> Result<bool, OutOfMemory>
    ensures next { IfOk result (λ more. (g : Graph) → MatchBool more ((standing_of g decisions.old.items).coming ≡ (standing_of g decisions.new.items).usable ∷ (standing_of g decisions.new.items).coming) ((standing_of g decisions.old.items).coming ≡ [])) }
    ensures path { OnOk result ((g : Graph) → IsPathOf g decisions.old.items → IsPathOf g decisions.new.items) }
{
    while let Some(last) = decisions.pop() {
        if last.alone {
            decisions.push(Decision {
                alone: false,
                ..last
            })?;
            return Ok(true);
        }
    }
    Ok(false)
}

/// Writes which rows may be chosen behind these decisions.
pub(crate) fn mark_allowed(graph: &TripGraph, decisions: &[Decision], allowed: &mut [bool])
    requires len { length allowed.old ≡ length graph.now.rows }
    requires path { IsPathOf graph.now decisions.now }
    ensures len { length allowed.new ≡ length allowed.old }
    ensures allowed { (k : ℕ) → k < length graph.now.rows → slice_index_or allowed.new k false ≡ (standing_of graph.now decisions.now).usable k }
{
    for mark in allowed.iter_mut() {
        *mark = true;
    }
    for decision in decisions {
        if decision.alone {
            keep_alone(graph, *decision, allowed);
        } else {
            allowed[decision.row as usize] = false;
        }
    }
}

/// Of the vehicle's rows keeps the decision's alone.
fn keep_alone(graph: &TripGraph, decision: Decision, allowed: &mut [bool])
    requires len { length allowed.old ≡ length graph.now.rows }
    requires vehicle { decision.vehicle < graph.now.vehicles }
    ensures len { length allowed.new ≡ length allowed.old }
    ensures allowed { (k : ℕ) → k < length graph.now.rows → slice_index_or allowed.new k false ≡ (slice_index_or allowed.old k false && (not (row_vehicle graph.now k == decision.vehicle) || k == decision.row)) }
{
    let vehicle = decision.vehicle as usize;
    for row in graph.first_row(vehicle)..graph.first_row(vehicle + 1) {
        allowed[row] = allowed[row] && row == decision.row as usize;
    }
}
