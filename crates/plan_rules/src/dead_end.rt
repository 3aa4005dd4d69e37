//! Whether no lawful plan is left at a place in a tree, as is seen at once.
ghost use Rattle.std.specs.Prelude.{◌≡◌, ◌+◌, ◌<◌, ◌≤◌, ◌↔◌, ℕ, IsTrue, IfSome, IfNone, MatchBool, length, slice_index_or, false, true};
ghost use Rattle.plan_rules.specs.Multipliers.{usable_of};
ghost use Rattle.plan_rules.specs.Tree.{IsSoleRow, IsDeadEnd};
ghost use Rattle.plan_rules.specs.lemmas.DeadEnd.{IsClash, IsStranded, StandsInSome, StandsInNone};
ghost use Rattle.plan_rules.specs.work.DeadEnd.{MarksSomeUsable};

use crate::graph::TripGraph;
use crate::marks::{is_any_marked, mark_riders};

/// Whether some rider stands in the sole allowed rows of two vehicles, or some rider who must be served
/// in no allowed row. The marks are work space.
pub fn is_dead_end(graph: &TripGraph, allowed: &[bool], marks: &mut [bool]) -> bool
    requires allowed { length allowed.now ≡ length graph.now.rows }
    requires marks { length marks.old ≡ graph.now.riders }
    ensures value { IsTrue result ↔ IsDeadEnd graph.now (usable_of allowed.now) }
    ensures marks { length marks.new ≡ length marks.old }
{
    clear(marks);
    if has_clash(graph, allowed, marks) {
        return true;
    }
    clear(marks);
    mark_held(graph, allowed, marks);
    has_stranded(graph, allowed, marks)
}

fn clear(marks: &mut [bool])
    ensures len { length marks.new ≡ length marks.old }
    ensures clear { (r : ℕ) → slice_index_or marks.new r false ≡ false }
{
    for mark in marks.iter_mut() {
        *mark = false;
    }
}

/// Whether a rider stands in the sole allowed rows of two vehicles.
fn has_clash(graph: &TripGraph, allowed: &[bool], marks: &mut [bool]) -> bool
    requires allowed { length allowed.now ≡ length graph.now.rows }
    requires marks { length marks.old ≡ graph.now.riders }
    requires clear { (r : ℕ) → slice_index_or marks.old r false ≡ false }
    ensures value { IsTrue result ↔ IsClash graph.now (usable_of allowed.now) }
    ensures marks { length marks.new ≡ length marks.old }
{
    let rows = graph.rows();
    for vehicle in 0..graph.vehicle_count() {
        match sole_row(graph, allowed, vehicle) {
            None => {}
            Some(row) => {
                let riders = rows[row].riders.as_slice();
                if is_any_marked(riders, marks) {
                    return true;
                }
                mark_riders(riders, marks);
            }
        }
    }
    false
}

/// The vehicle's only allowed row.
fn sole_row(graph: &TripGraph, allowed: &[bool], vehicle: usize) -> Option<usize>
    requires allowed { length allowed.now ≡ length graph.now.rows }
    requires vehicle { vehicle < graph.now.vehicles }
    ensures found { IfSome result (IsSoleRow graph.now (usable_of allowed.now) vehicle) }
    ensures none { IfNone result ((k : ℕ) → IsSoleRow graph.now (usable_of allowed.now) vehicle k → ⊥) }
{
    let count = graph.vehicle_count();
    prove!(vehicle < count);
    let mut sole = None;
    for row in graph.first_row(vehicle)..graph.first_row(vehicle + 1) {
        if allowed[row] {
            if sole.is_some() {
                return None;
            }
            sole = Some(row);
        }
    }
    sole
}

/// Marks the riders of the held rows that are allowed.
fn mark_held(graph: &TripGraph, allowed: &[bool], marks: &mut [bool])
    requires allowed { length allowed.now ≡ length graph.now.rows }
    requires marks { length marks.old ≡ graph.now.riders }
    requires clear { (r : ℕ) → slice_index_or marks.old r false ≡ false }
    ensures marked { MarksSomeUsable graph.now (usable_of allowed.now) marks.new }
    ensures marks { length marks.new ≡ length marks.old }
{
    let rows = graph.rows();
    let held = graph.held();
    for vehicle in 0..held.len() {
        if let Some(number) = held[vehicle] {
            let row = number as usize;
            if row < rows.len() && allowed[row] {
                mark_riders(rows[row].riders.as_slice(), marks);
            }
        }
    }
}

/// Whether a rider who must be served stands in no allowed row. The marked ones stand in some.
fn has_stranded(graph: &TripGraph, allowed: &[bool], marks: &[bool]) -> bool
    requires allowed { length allowed.now ≡ length graph.now.rows }
    requires marks { length marks.now ≡ graph.now.riders }
    requires marked { MarksSomeUsable graph.now (usable_of allowed.now) marks.now }
    ensures { IsTrue result ↔ IsStranded graph.now (usable_of allowed.now) }
{
    for rider in 0..graph.rider_count() {
        if graph.must(rider) && !marks[rider] && !stands(graph, allowed, rider) {
            return true;
        }
    }
    false
}

/// Whether the rider stands in an allowed row.
fn stands(graph: &TripGraph, allowed: &[bool], rider: usize) -> bool
    requires { length allowed.now ≡ length graph.now.rows }
    ensures { MatchBool result (StandsInSome graph.now (usable_of allowed.now) (length graph.now.rows) rider) (StandsInNone graph.now (usable_of allowed.now) (length graph.now.rows) rider) }
{
    let rows = graph.rows();
    for row in 0..rows.len() {
        if allowed[row] && rows[row].riders.as_slice().contains(&rider) {
            return true;
        }
    }
    false
}
