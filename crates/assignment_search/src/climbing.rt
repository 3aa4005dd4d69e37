//! Multipliers that climb from given ones, and never come out lower.
//!
//! Nothing is proved of how far an ascent comes: a leaf value judges what it reaches.
ghost use Rattle.std.specs.Prelude.{◌≡◌, ◌≤ℤ◌, IfOk, length};
ghost use Rattle.plan_rules.specs.Multipliers.{usable_of, leaf_value, first_fit_value};

use crate::first_fit_pass::first_fit;
use plan_rules::{Multipliers, TripGraph, cost_of, held_plan, leaf_value};
use pool_base::OutOfMemory;
use row_tables::RowTable;
use std::alloc::Global;

/// Multipliers whose leaf value is at least that of the first-fit ones, after at most so many turns of an
/// ascent from these. A turn looks at each row once.
pub fn ascend(
    alloc: Global,
    graph: &TripGraph,
    allowed: &[bool],
    turns: u32,
) -> Result<Multipliers, OutOfMemory>
    requires { length allowed.now ≡ length graph.now.rows }
    ensures value { IfOk result (λ ms. first_fit_value graph.now (usable_of allowed.now) ≤ℤ leaf_value graph.now (usable_of allowed.now) ms) }
    ensures len { IfOk result (λ ms. length ms ≡ graph.now.riders) }
{
    let start = first_fit(alloc, graph, allowed)?;
    let held = held_plan(alloc, graph)?;
    let target = 1024 * cost_of(graph, &held).min(1 << 50) as i64;
    climb(alloc, graph, allowed, start, target, turns)
}

/// Multipliers whose leaf value is at least that of the start. The target is a cost, in 1/1024 second,
/// that the value is thought to come near.
pub fn climb(
    alloc: Global,
    graph: &TripGraph,
    allowed: &[bool],
    start: Multipliers,
    target: i64,
    turns: u32,
) -> Result<Multipliers, OutOfMemory>
    requires allowed { length allowed.now ≡ length graph.now.rows }
    requires start { length start ≡ graph.now.riders }
    ensures value { IfOk result (λ ms. leaf_value graph.now (usable_of allowed.now) start ≤ℤ leaf_value graph.now (usable_of allowed.now) ms) }
    ensures len { IfOk result (λ ms. length ms ≡ graph.now.riders) }
{
    let table = RowTable::of_allowed(alloc, graph, allowed)?;
    let first = Vec::from_slice(alloc, start.as_slice())?;
    let reached = row_tables::ascend(alloc, &table, first, target, turns)?;
    Ok(better_of(graph, allowed, start, Multipliers::of(reached)))
}

/// The multipliers of greater leaf value, of which the second may be for other riders.
fn better_of(
    graph: &TripGraph,
    allowed: &[bool],
    start: Multipliers,
    reached: Multipliers,
) -> Multipliers
    requires allowed { length allowed.now ≡ length graph.now.rows }
    requires start { length start ≡ graph.now.riders }
    ensures value { leaf_value graph.now (usable_of allowed.now) start ≤ℤ leaf_value graph.now (usable_of allowed.now) result }
    ensures len { length result ≡ graph.now.riders }
{
    if reached.as_slice().len() != graph.rider_count() {
        return start;
    }
    let value = leaf_value(graph, allowed, reached.as_slice());
    if value < leaf_value(graph, allowed, start.as_slice()) {
        return start;
    }
    reached
}
