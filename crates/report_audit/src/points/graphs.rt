//! What is told of the graphs.
ghost use Rattle.std.specs.Prelude.{◌≡◌, ◌↔◌, IfOk, IsTrue};
ghost use Rattle.dispatch_engine.specs.outcome.Instance.{AreExact, posed_by};
ghost use Rattle.dispatch_engine.specs.outcome.Points.{Holds};
ghost use Rattle.dispatch_engine.specs.declared.outcome.point.Point.TheVariants.{Graphs as GraphsPoint};

use dispatch_engine::{Graphs, lapsed_ids, rr_lines, rv_lines, trip_row_lines};
use pool_base::{OutOfMemory, RiderId, VehicleId};
use request_book::{Planned, TripRowLine};
use std::alloc::Global;

/// Whether lapsed promises, edges and rows are told as they are.
pub(crate) fn tells_graphs(
    alloc: Global,
    graphs: &Graphs<'_, '_>,
    planned: &Planned,
) -> Result<bool, OutOfMemory>
    requires { AreExact graphs.now }
    ensures { IfOk result (λ yes. IsTrue yes ↔ Holds graphs.now.instance.now.settings.now GraphsPoint planned.now (posed_by graphs.now)) }
{
    let settled = graphs.instance.settled;
    if !are_same_riders(&lapsed_ids(alloc, settled)?, planned.lapsed.as_slice()) {
        return Ok(false);
    }
    if !are_same_edges(&rv_lines(alloc, settled, graphs.rv)?, planned.rv.as_slice()) {
        return Ok(false);
    }
    if !are_same_pairs(
        &rr_lines(alloc, settled, graphs.rr.all())?,
        planned.rr.as_slice(),
    ) {
        return Ok(false);
    }
    let rows = trip_row_lines(alloc, settled, graphs.graph.rows())?;
    Ok(are_same_rows(&rows, planned.rows.as_slice()))
}

pub(crate) fn are_same_riders(riders: &[RiderId], others: &[RiderId]) -> bool
    ensures { IsTrue result ↔ (riders.now ≡ others.now) }
{
    riders == others
}

fn are_same_edges(edges: &[(VehicleId, RiderId)], others: &[(VehicleId, RiderId)]) -> bool
    ensures { IsTrue result ↔ (edges.now ≡ others.now) }
{
    edges == others
}

fn are_same_pairs(pairs: &[(RiderId, RiderId)], others: &[(RiderId, RiderId)]) -> bool
    ensures { IsTrue result ↔ (pairs.now ≡ others.now) }
{
    pairs == others
}

/// Whether the two lists of rows are the same.
fn are_same_rows(rows: &[TripRowLine], others: &[TripRowLine]) -> bool
    ensures { IsTrue result ↔ (rows.now ≡ others.now) }
{
    if rows.len() != others.len() {
        return false;
    }
    for place in 0..rows.len() {
        if !is_same_row(&rows[place], &others[place]) {
            return false;
        }
    }
    true
}

/// Whether the two rows are the same.
fn is_same_row(row: &TripRowLine, other: &TripRowLine) -> bool
    ensures { IsTrue result ↔ (row.now ≡ other.now) }
{
    row.vehicle == other.vehicle
        && row.cost == other.cost
        && are_same_riders(row.riders.as_slice(), other.riders.as_slice())
}
