//! Whether no lawful plan is left where a walk stands, as is seen at once.
ghost use Rattle.std.specs.Prelude.{◌≡◌, ◌==◌, ◌||◌, ◌<◌, ◌↔◌, ℕ, false, IsTrue, All, IfOk, IfSome, IfNone, MatchBool, length, slice_index_or};
ghost use Rattle.std.specs.List.{list_any};
ghost use Rattle.plan_rules.specs.GoodGraph.{IsGoodGraph};
ghost use Rattle.plan_rules.specs.Multipliers.{Usable, usable_of};
ghost use Rattle.plan_rules.specs.Tree.{IsSoleRow, IsDeadEnd};
ghost use Rattle.plan_rules.specs.lemmas.DeadEnd.{IsStranded};
ghost use Rattle.plan_rules.specs.lemmas.Graph.{ChoosesRows};
ghost use Rattle.bound_checker.specs.work.DeadEnd.{AreSoleRows, ShareARider, MarksStanding, IsInBoth, IsApart};

use plan_rules::TripGraph;
use pool_base::OutOfMemory;
use std::alloc::Global;

/// Whether some rider stands in the sole allowed rows of two vehicles, or some rider who must be served in
/// no allowed row.
pub(crate) fn is_dead_end(
    alloc: Global,
    graph: &TripGraph,
    allowed: &[bool],
) -> Result<bool, OutOfMemory>
    requires { length allowed.now ≡ length graph.now.rows }
    ensures { IfOk result (λ dead. IsTrue dead ↔ IsDeadEnd graph.now (usable_of allowed.now)) }
{
    let sole = sole_rows(alloc, graph, allowed)?;
    if has_clash(graph, sole.as_slice()) {
        return Ok(true);
    }
    let standing = standing_riders(alloc, graph, allowed)?;
    Ok(has_stranded(graph, standing.as_slice()))
}

/// For each vehicle its only allowed row, if there is one.
fn sole_rows(
    alloc: Global,
    graph: &TripGraph,
    allowed: &[bool],
) -> Result<Vec<Option<usize>>, OutOfMemory>
    requires { length allowed.now ≡ length graph.now.rows }
    ensures rows { IfOk result (λ sole. AreSoleRows graph.now (usable_of allowed.now) graph.now.vehicles sole.items) }
    ensures good { IsGoodGraph graph.now }
{
    let mut sole = Vec::new(alloc);
    for vehicle in 0..graph.vehicle_count() {
        sole.push(sole_row(graph, allowed, vehicle))?;
    }
    Ok(sole)
}

/// The vehicle's only allowed row.
fn sole_row(graph: &TripGraph, allowed: &[bool], vehicle: usize) -> Option<usize>
    requires allowed { length allowed.now ≡ length graph.now.rows }
    requires vehicle { vehicle < graph.now.vehicles }
    ensures found { IfSome result (IsSoleRow graph.now (usable_of allowed.now) vehicle) }
    ensures none { IfNone result ((k : ℕ) → IsSoleRow graph.now (usable_of allowed.now) vehicle k → ⊥) }
{
    let count = graph.vehicle_count();
    prove!(vehicle < count);
    let mut sole = None;
    for row in graph.first_row(vehicle)..graph.first_row(vehicle + 1) {
        if allowed[row] {
            if sole.is_some() {
                return None;
            }
            sole = Some(row);
        }
    }
    sole
}

/// Whether a rider stands in the rows of two vehicles, of which each has one or none.
fn has_clash(graph: &TripGraph, sole: &[Option<usize>]) -> bool
    requires { ChoosesRows graph.now sole.now }
    ensures { MatchBool result ((v : ℕ) × (w : ℕ) × (v < w) × ShareARider graph.now sole.now v w) ((v w : ℕ) → v < w → ShareARider graph.now sole.now v w → ⊥) }
{
    for first in 0..sole.len() {
        if clashes(graph, sole, first) {
            return true;
        }
    }
    false
}

/// Whether a rider stands in the rows of this vehicle and of a later one.
fn clashes(graph: &TripGraph, sole: &[Option<usize>], first: usize) -> bool
    requires sole { ChoosesRows graph.now sole.now }
    requires first { first < length sole.now }
    ensures { MatchBool result ((w : ℕ) × (first < w) × ShareARider graph.now sole.now first w) ((w : ℕ) → first < w → ShareARider graph.now sole.now first w → ⊥) }
{
    let Some(one) = sole[first] else {
        return false;
    };
    let rows = graph.rows();
    let riders = rows[one].riders.as_slice();
    for second in first + 1..sole.len() {
        if let Some(other) = sole[second] {
            if share_a_rider(riders, rows[other].riders.as_slice()) {
                return true;
            }
        }
    }
    false
}

fn share_a_rider(riders: &[usize], others: &[usize]) -> bool
    ensures { MatchBool result (IsInBoth riders.now others.now) (IsApart riders.now others.now) }
{
    for rider in riders {
        if others.contains(rider) {
            return true;
        }
    }
    false
}

/// For each rider whether she stands in an allowed row.
fn standing_riders(
    alloc: Global,
    graph: &TripGraph,
    allowed: &[bool],
) -> Result<Vec<bool>, OutOfMemory>
    requires { length allowed.now ≡ length graph.now.rows }
    ensures { IfOk result (λ standing. MarksStanding graph.now (usable_of allowed.now) (length graph.now.rows) standing.items) }
{
    let mut standing = vec![in alloc; false; graph.rider_count()]?;
    let rows = graph.rows();
    for row in 0..rows.len() {
        if allowed[row] {
            mark(rows[row].riders.as_slice(), &mut standing);
        }
    }
    Ok(standing)
}

/// Marks these riders.
fn mark(riders: &[usize], marks: &mut [bool])
    requires { All (λ r. r < length marks.old) riders.now }
    ensures len { length marks.new ≡ length marks.old }
    ensures marked { (r : ℕ) → r < length marks.old → slice_index_or marks.new r false ≡ (slice_index_or marks.old r false || list_any (λ x. x == r) riders.now) }
{
    for rider in riders {
        marks[*rider] = true;
    }
}

/// Whether a rider who must be served stands in no allowed row.
fn has_stranded(graph: &TripGraph, standing: &[bool]) -> bool
    requires { length standing.now ≡ graph.now.riders }
    ensures { (usable : Usable) → MarksStanding graph.now usable (length graph.now.rows) standing.now → IsTrue result ↔ IsStranded graph.now usable }
{
    for rider in 0..graph.rider_count() {
        if graph.must(rider) && !standing[rider] {
            return true;
        }
    }
    false
}
