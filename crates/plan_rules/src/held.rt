//! Judges which row each vehicle holds, and marks the riders who must be served.
ghost use Rattle.std.specs.Prelude.{◌≡◌, ◌+◌, ◌<◌, ◌≤◌, ◌↔◌, ℕ, IsTrue, IfOk, IfErr, OnOk, length, slice_index, slice_index_or, false, nat_lt, Option};
ghost use Rattle.plan_rules.specs.work.Graph.{IsRowIndex};
ghost use Rattle.plan_rules.specs.lemmas.Plan.{MarksServed};
ghost use Rattle.plan_rules.specs.Graph.{IsWithinLimits};
ghost use Rattle.plan_rules.specs.GraphFault.{HoldsRightly, HasGoodRows, HasRowsInOrder, IsGraphFault};
ghost use Rattle.plan_rules.specs.Plan.{IsLawful};
ghost use Rattle.plan_rules.specs.Parts.{graph_of};

use crate::fault::GraphFault;
use crate::marks::{is_any_marked, mark_riders};
use crate::parts::Parts;
use std::alloc::Global;

/// Whether this vehicle holds rightly, where the riders that earlier ones hold are marked; then its
/// riders are marked too.
fn mark_held_by(parts: &Parts, starts: &[u32], vehicle: usize, marks: &mut [bool]) -> bool
    requires rows { HasGoodRows (graph_of parts.now) }
    requires starts { IsRowIndex (graph_of parts.now) starts.now }
    requires vehicle { vehicle < parts.now.vehicles }
    requires held { vehicle < length parts.now.held.items }
    requires marked { MarksServed (graph_of parts.now) parts.now.held.items vehicle marks.old }
    ensures variant { IsTrue result ↔ HoldsRightly (graph_of parts.now) vehicle }
    ensures marked { IsTrue result → MarksServed (graph_of parts.now) parts.now.held.items (vehicle + 1) marks.new }
{
    let first = starts[vehicle];
    let end = starts[vehicle + 1];
    match parts.held[vehicle] {
        None => first == end,
        Some(row) => {
            if row < first || end <= row {
                return false;
            }
            let riders = parts.rows[row as usize].riders.as_slice();
            if is_any_marked(riders, marks) {
                return false;
            }
            mark_riders(riders, marks);
            true
        }
    }
}

/// The marks of the riders who must be served.
pub fn mark_held(alloc: Global, parts: &Parts, starts: &[u32]) -> Result<Vec<bool>, GraphFault>
    requires limits { IsWithinLimits (graph_of parts.now) }
    requires rows { HasGoodRows (graph_of parts.now) }
    requires order { HasRowsInOrder (graph_of parts.now) }
    requires starts { IsRowIndex (graph_of parts.now) starts.now }
    ensures marks { IfOk result (λ marks. MarksServed (graph_of parts.now) parts.now.held.items parts.now.vehicles marks.items) }
    ensures held { OnOk result (IsLawful (graph_of parts.now) parts.now.held.items) }
    ensures fault { IfErr result (IsGraphFault (graph_of parts.now)) }
{
    let mut marks = vec![in alloc; false; parts.riders]?;
    let count = parts.vehicles.min(parts.held.len());
    for vehicle in 0..count {
        if !mark_held_by(parts, starts, vehicle, &mut marks) {
            return Err(GraphFault::Held {
                vehicle: vehicle as u64,
            });
        }
    }
    if parts.held.len() != parts.vehicles {
        return Err(GraphFault::Held {
            vehicle: parts.vehicles as u64,
        });
    }
    Ok(marks)
}
