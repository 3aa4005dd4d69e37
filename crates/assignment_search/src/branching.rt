//! On which row a leaf is branched, or the only plan that it holds.
ghost use Rattle.std.specs.Prelude.{◌≡◌, ◌≢◌, ◌<◌, ◌≤◌, ℕ, IfNone, IfOk, IfSome, MatchOption, Option, length};
ghost use Rattle.plan_rules.specs.Multipliers.{usable_of};
ghost use Rattle.plan_rules.specs.Tree.{CanBranch, MayUse};
ghost use Rattle.assignment_search.specs.work.Growth.{IsFixed, IsSolePlan};

use plan_rules::TripGraph;
use pool_base::OutOfMemory;
use std::alloc::Global;

/// A vehicle that may use two rows, and one of them: the row that is suggested, if it may, or the first that
/// there is.
pub fn branch_row(
    graph: &TripGraph,
    allowed: &[bool],
    suggested: Option<usize>,
) -> Option<(usize, usize)>
    requires { length allowed.now ≡ length graph.now.rows }
    ensures found { IfSome result (λ at. CanBranch graph.now (usable_of allowed.now) at.0 at.1 × (at.0 < graph.now.vehicles)) }
    ensures none { IfNone result (IsFixed graph.now (usable_of allowed.now)) }
{
    if let Some(row) = suggested {
        if let Some(at) = branch_at(graph, allowed, row) {
            return Some(at);
        }
    }
    first_branch(graph, allowed)
}

/// The row with its vehicle, where the row is allowed and another one of the vehicle is too.
fn branch_at(graph: &TripGraph, allowed: &[bool], row: usize) -> Option<(usize, usize)>
    requires { length allowed.now ≡ length graph.now.rows }
    ensures { IfSome result (λ at. CanBranch graph.now (usable_of allowed.now) at.0 at.1 × (at.0 < graph.now.vehicles)) }
{
    let rows = graph.rows();
    if row >= rows.len() || !allowed[row] {
        return None;
    }
    let vehicle = rows[row].vehicle;
    let other = other_row(graph, allowed, vehicle, row)?;
    prove!(other != row);
    Some((vehicle, row))
}

/// A row that the vehicle may use beside this one.
fn other_row(graph: &TripGraph, allowed: &[bool], vehicle: usize, row: usize) -> Option<usize>
    requires allowed { length allowed.now ≡ length graph.now.rows }
    requires vehicle { vehicle < graph.now.vehicles }
    ensures { IfSome result (λ j. MayUse graph.now (usable_of allowed.now) vehicle j × (j ≢ row)) }
{
    let count = graph.vehicle_count();
    prove!(vehicle < count);
    for other in graph.first_row(vehicle)..graph.first_row(vehicle + 1) {
        if other != row && allowed[other] {
            return Some(other);
        }
    }
    None
}

/// The first vehicle that may use two rows, and the second of them.
fn first_branch(graph: &TripGraph, allowed: &[bool]) -> Option<(usize, usize)>
    requires { length allowed.now ≡ length graph.now.rows }
    ensures found { IfSome result (λ at. CanBranch graph.now (usable_of allowed.now) at.0 at.1 × (at.0 < graph.now.vehicles)) }
    ensures none { IfNone result (IsFixed graph.now (usable_of allowed.now)) }
{
    for vehicle in 0..graph.vehicle_count() {
        if let Some(row) = second_row(graph, allowed, vehicle) {
            return Some((vehicle, row));
        }
    }
    None
}

/// A row that the vehicle may use beside another one.
fn second_row(graph: &TripGraph, allowed: &[bool], vehicle: usize) -> Option<usize>
    requires allowed { length allowed.now ≡ length graph.now.rows }
    requires vehicle { vehicle < graph.now.vehicles }
    ensures found { IfSome result (CanBranch graph.now (usable_of allowed.now) vehicle) }
    ensures none { IfNone result ((j k : ℕ) → MayUse graph.now (usable_of allowed.now) vehicle j → MayUse graph.now (usable_of allowed.now) vehicle k → j ≡ k) }
{
    let count = graph.vehicle_count();
    prove!(vehicle < count);
    let mut first = None;
    for row in graph.first_row(vehicle)..graph.first_row(vehicle + 1) {
        if allowed[row] {
            if first.is_some() {
                return Some(row);
            }
            first = Some(row);
        }
    }
    None
}

/// For each vehicle a row that it may use, if it has one.
pub fn sole_rows(
    alloc: Global,
    graph: &TripGraph,
    allowed: &[bool],
) -> Result<Vec<Option<u32>>, OutOfMemory>
    requires { length allowed.now ≡ length graph.now.rows }
    ensures len { IfOk result (λ chosen. length chosen.items ≡ graph.now.vehicles) }
    ensures rows { IfOk result (λ chosen. IsSolePlan graph.now (usable_of allowed.now) chosen.items) }
{
    let mut chosen = Vec::new(alloc);
    for vehicle in 0..graph.vehicle_count() {
        chosen.push(usable_row(graph, allowed, vehicle))?;
    }
    Ok(chosen)
}

/// A row that the vehicle may use.
fn usable_row(graph: &TripGraph, allowed: &[bool], vehicle: usize) -> Option<u32>
    requires allowed { length allowed.now ≡ length graph.now.rows }
    requires vehicle { vehicle < graph.now.vehicles }
    ensures { MatchOption result ((k : ℕ) → MayUse graph.now (usable_of allowed.now) vehicle k → ⊥) (MayUse graph.now (usable_of allowed.now) vehicle) }
{
    let count = graph.vehicle_count();
    prove!(vehicle < count);
    for row in graph.first_row(vehicle)..graph.first_row(vehicle + 1) {
        if allowed[row] {
            return Some(row as u32);
        }
    }
    None
}
