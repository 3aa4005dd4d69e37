//! The two ends that a leaf becomes on a row.
ghost use Rattle.std.specs.Prelude.{◌≡◌, ◌<◌, ◌≤◌, ℕ, IfOk, length};
ghost use Rattle.plan_rules.specs.Multipliers.{usable_of};
ghost use Rattle.plan_rules.specs.GoodGraph.{IsGoodGraph};
ghost use Rattle.plan_rules.specs.Tree.{CanBranch};
ghost use Rattle.plan_rules.specs.Path.{standing_of, IsPathOf};
ghost use Rattle.assignment_search.specs.work.Lookups.{AreLookupsOf};
ghost use Rattle.assignment_search.specs.work.Apart.{AgreeApart};
ghost use Rattle.assignment_search.specs.work.Growth.{IsJudged, IsNewEnd};
ghost use Rattle.assignment_search.specs.work.Next.{IsParting};

use crate::child::{End, Parent, inherited_value, new_end};
use crate::guide::Suggested;
use crate::lookups::Lookups;
use plan_rules::{Path, TripGraph};
use pool_base::OutOfMemory;
use std::alloc::Global;

/// A vehicle and a row of it, with the end where it has this row alone and the end where it hasn't the row.
#[derive(Drop)]
pub struct Ends {
    pub vehicle: u32,
    pub row: u32,
    pub first: End,
    pub second: End,
}

/// Parts the rows at the end of this path, where the parent is, on a row of a vehicle. Multipliers may be suggested for
/// the two ends.
pub fn part(
    alloc: Global,
    lookups: &Lookups,
    mut path: Path,
    parent: &Parent<'_>,
    at: (usize, usize),
    suggested: Suggested,
) -> Result<Ends, OutOfMemory>
    requires lookups { AreLookupsOf parent.now.graph.now lookups.now }
    requires path { IsPathOf parent.now.graph.now path }
    requires before { (j : ℕ) → j < length parent.now.graph.now.rows → usable_of parent.now.allowed.now j ≡ (standing_of parent.now.graph.now path).usable j }
    requires can { CanBranch parent.now.graph.now (standing_of parent.now.graph.now path).usable at.0 at.1 }
    requires vehicle { at.0 < parent.now.graph.now.vehicles }
    ensures { IfOk result (IsParting parent.now.graph.now (standing_of parent.now.graph.now path).usable parent.now.multipliers.now) }
{
    let (vehicle, row) = at;
    let count = parent.graph.vehicle_count();
    prove!(count <= 500);
    let size = parent.graph.rows().len();
    prove!(row < size);
    let Suggested { taken, left } = suggested;
    path.enter(vehicle as u32, row as u32)?;
    let first = end_of(alloc, lookups, &path, parent, vehicle, taken)?;
    path.leave();
    let second = end_of(alloc, lookups, &path, parent, vehicle, left)?;
    Ok(Ends {
        vehicle: vehicle as u32,
        row: row as u32,
        first,
        second,
    })
}

/// The end where this path leads. Of vehicles but this one it allows the same rows as before.
fn end_of(
    alloc: Global,
    lookups: &Lookups,
    path: &Path,
    parent: &Parent<'_>,
    vehicle: usize,
    suggested: Vec<i64>,
) -> Result<End, OutOfMemory>
    requires lookups { AreLookupsOf parent.now.graph.now lookups.now }
    requires path { IsPathOf parent.now.graph.now path.now }
    requires vehicle { vehicle < parent.now.graph.now.vehicles }
    requires apart { AgreeApart parent.now.graph.now vehicle (usable_of parent.now.allowed.now) (standing_of parent.now.graph.now path.now).usable }
    ensures { IfOk result (λ end. IsNewEnd parent.now.graph.now (standing_of parent.now.graph.now path.now).usable parent.now.multipliers.now end.node end.value) }
{
    let allowed = allowed_at(alloc, parent.graph, path)?;
    let here = Parent {
        graph: parent.graph,
        allowed: &allowed,
        multipliers: parent.multipliers,
        value: inherited_value(parent, &allowed, vehicle),
    };
    new_end(alloc, lookups, &here, suggested)
}

/// The rows that may be chosen where this path leads.
pub fn allowed_at(alloc: Global, graph: &TripGraph, path: &Path) -> Result<Vec<bool>, OutOfMemory>
    requires { IsPathOf graph.now path.now }
    ensures good { IsGoodGraph graph.now }
    ensures len { IfOk result (λ marks. length marks.items ≡ length graph.now.rows) }
    ensures allowed { IfOk result (λ marks. (k : ℕ) → k < length graph.now.rows → usable_of marks.items k ≡ (standing_of graph.now path.now).usable k) }
{
    let mut allowed = vec![in alloc; true; graph.rows().len()]?;
    path.mark_usable(graph, &mut allowed);
    Ok(allowed)
}
