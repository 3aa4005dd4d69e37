ghost use Rattle.std.specs.Prelude.{◌≡◌, ◌<◌, ◌≤◌, ℕ, All, IfOk, filter, length, map};
ghost use Rattle.stop_orders.specs.task.Settled.{vehicle_at};
ghost use Rattle.dispatch_engine.specs.outcome.Told.{rider_id, trip_row_line};

use crate::outcome::told::id_of;
use arrayvec::ArrayVec;
use plan_rules::TripRow;
use pool_base::{OutOfMemory, RiderId, VehicleId};
use request_book::TripRowLine;
use std::alloc::Global;
use stop_orders::Settled;
use trip_graph::RvEdge;

/// The ids of riders whose promise has lapsed, in the batch's order.
pub fn lapsed_ids(alloc: Global, settled: &Settled) -> Result<Vec<RiderId>, OutOfMemory>
    ensures { IfOk result (λ ids. ids.items ≡ map (λ r. r.id) (filter (λ r. r.lapsed) settled.entry.now.riders)) }
{
    let mut ids = Vec::new(alloc);
    for rider in settled.riders.as_slice() {
        if rider.lapsed {
            ids.push(rider.id)?;
        }
    }
    Ok(ids)
}

/// The ids of riders, given by their numbers.
pub fn rider_ids(
    alloc: Global,
    settled: &Settled,
    riders: &[usize],
) -> Result<Vec<RiderId>, OutOfMemory>
    requires { All (λ r. r < length settled.now.riders) riders.now }
    ensures { IfOk result (λ ids. ids.items ≡ map (rider_id settled.entry.now) riders.now) }
{
    let mut ids = Vec::with_capacity(alloc, riders.len())?;
    for &rider in riders {
        ids.push(id_of(settled, rider))?;
    }
    Ok(ids)
}

/// The edges between vehicles and riders, by their ids.
pub fn rv_lines(
    alloc: Global,
    settled: &Settled,
    edges: &[RvEdge],
) -> Result<Vec<(VehicleId, RiderId)>, OutOfMemory>
    requires vehicles { All (λ edge. edge.vehicle < length settled.now.vehicles) edges.now }
    requires riders { All (λ edge. edge.rider < length settled.now.riders) edges.now }
    ensures { IfOk result (λ lines. lines.items ≡ map (λ edge. ((vehicle_at settled.entry.now edge.vehicle).id, rider_id settled.entry.now edge.rider)) edges.now) }
{
    let mut lines = Vec::with_capacity(alloc, edges.len())?;
    for edge in edges {
        let vehicle = settled.vehicles.as_slice()[edge.vehicle].id;
        lines.push((vehicle, id_of(settled, edge.rider)))?;
    }
    Ok(lines)
}

/// The edges between riders, by their ids.
pub fn rr_lines(
    alloc: Global,
    settled: &Settled,
    pairs: &[(usize, usize)],
) -> Result<Vec<(RiderId, RiderId)>, OutOfMemory>
    requires firsts { All (λ (pair : ℕ × ℕ). pair.0 < length settled.now.riders) pairs.now }
    requires seconds { All (λ (pair : ℕ × ℕ). pair.1 < length settled.now.riders) pairs.now }
    ensures { IfOk result (λ lines. lines.items ≡ map (λ (pair : ℕ × ℕ). (rider_id settled.entry.now pair.0, rider_id settled.entry.now pair.1)) pairs.now) }
{
    let mut lines = Vec::with_capacity(alloc, pairs.len())?;
    for &(first, second) in pairs {
        lines.push((id_of(settled, first), id_of(settled, second)))?;
    }
    Ok(lines)
}

/// The rows of a trip graph, by their ids.
pub fn trip_row_lines(
    alloc: Global,
    settled: &Settled,
    rows: &[TripRow],
) -> Result<Vec<TripRowLine>, OutOfMemory>
    requires vehicles { All (λ row. row.vehicle < length settled.now.vehicles) rows.now }
    requires riders { All (λ row. All (λ r. r < length settled.now.riders) row.riders.items) rows.now }
    requires few { All (λ row. length row.riders.items ≤ 6) rows.now }
    ensures { IfOk result (λ lines. lines.items ≡ map (trip_row_line settled.entry.now) rows.now) }
{
    let mut lines = Vec::with_capacity(alloc, rows.len())?;
    for row in rows {
        lines.push(line_of(settled, row))?;
    }
    Ok(lines)
}

/// A row, by its ids.
fn line_of(settled: &Settled, row: &TripRow) -> TripRowLine
    requires vehicle { row.now.vehicle < length settled.now.vehicles }
    requires riders { All (λ r. r < length settled.now.riders) row.now.riders.items }
    requires few { length row.now.riders.items ≤ 6 }
    ensures { result ≡ trip_row_line settled.entry.now row.now }
{
    TripRowLine {
        vehicle: settled.vehicles.as_slice()[row.vehicle].id,
        riders: ids_of(settled, row.riders.as_slice()),
        cost: row.cost,
    }
}

/// The ids of a row's riders.
fn ids_of(settled: &Settled, riders: &[usize]) -> ArrayVec<RiderId, 6>
    requires riders { All (λ r. r < length settled.now.riders) riders.now }
    requires few { length riders.now ≤ 6 }
    ensures { result.items ≡ map (rider_id settled.entry.now) riders.now }
{
    let mut ids = ArrayVec::new();
    for rider in riders {
        ids.push(id_of(settled, *rider));
    }
    ids
}
