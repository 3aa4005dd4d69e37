ghost use Rattle.std.specs.Prelude.{◌≡◌, ◌<◌, ◌≤◌, ◌+◌, All, IfOk, length};
ghost use Rattle.plan_rules.specs.Plan.{IsPlan};
ghost use Rattle.plan_rules.specs.lemmas.Plan.{MarksServed};
ghost use Rattle.dispatch_engine.specs.outcome.Told.{left_riders};

use plan_rules::{TripGraph, mark_riders};
use pool_base::OutOfMemory;
use std::alloc::Global;

/// The numbers of the riders in no chosen row, rising.
pub fn left_riders(
    alloc: Global,
    graph: &TripGraph,
    chosen: &[Option<u32>],
) -> Result<Vec<usize>, OutOfMemory>
    requires { IsPlan graph.now chosen.now }
    ensures left { IfOk result (λ left. left.items ≡ left_riders graph.now chosen.now) }
    ensures within { IfOk result (λ left. All (λ r. r < graph.now.riders) left.items) }
    ensures few { IfOk result (λ left. length left.items ≤ 1000) }
{
    let marks = chosen_marks(alloc, graph, chosen)?;
    let mut left = Vec::with_capacity(alloc, graph.rider_count())?;
    for rider in 0..graph.rider_count() {
        if !marks[rider] {
            left.push(rider)?;
        }
    }
    Ok(left)
}

/// For each rider whether they are in a chosen row.
fn chosen_marks(
    alloc: Global,
    graph: &TripGraph,
    chosen: &[Option<u32>],
) -> Result<Vec<bool>, OutOfMemory>
    requires { IsPlan graph.now chosen.now }
    ensures { IfOk result (λ marks. MarksServed graph.now chosen.now graph.now.vehicles marks.items) }
{
    let mut marks = vec![in alloc; false; graph.rider_count()]?;
    for vehicle in 0..graph.vehicle_count() {
        mark_choice(graph, chosen, vehicle, &mut marks);
    }
    Ok(marks)
}

/// Marks the riders of the vehicle's chosen row.
fn mark_choice(graph: &TripGraph, chosen: &[Option<u32>], vehicle: usize, marks: &mut [bool])
    requires plan { IsPlan graph.now chosen.now }
    requires vehicle { vehicle < graph.now.vehicles }
    requires marked { MarksServed graph.now chosen.now vehicle marks.old }
    ensures { MarksServed graph.now chosen.now (vehicle + 1) marks.new }
{
    if let Some(row) = chosen[vehicle] {
        mark_riders(graph.rows()[row as usize].riders.as_slice(), marks);
    }
}
