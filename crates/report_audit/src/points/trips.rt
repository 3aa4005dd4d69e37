//! The trips of a plan, and the plan that they give.
ghost use Rattle.std.specs.Prelude.{◌↔◌, ◌<◌, ℕ, IfOk, IsTrue, List, MatchOption, Option, length};
ghost use Rattle.plan_rules.specs.Graph.{IsRowOf};
ghost use Rattle.plan_rules.specs.Plan.{IsPlan};
ghost use Rattle.pool_base.specs.Times.{travel_time};
ghost use Rattle.dispatch_engine.specs.outcome.Instance.{AreExact};
ghost use Rattle.dispatch_engine.specs.outcome.Trips.{AreTrips};
ghost use Rattle.report_audit.specs.work.points.Orders.{HasOwnIds};
ghost use Rattle.report_audit.specs.work.points.Trips.{GivesTrips, TellsRow};

use crate::points::orders::told_order;
use dispatch_engine::Graphs;
use plan_rules::Plan;
use pool_base::OutOfMemory;
use request_book::ChosenTrip;
use std::alloc::Global;
use stop_orders::{delay_of, serves, task_of};

/// The plan that gives each vehicle that isn't late the row of its own of which its trip tells; `None`
/// where there is no such plan.
pub(crate) fn plan_of_trips(
    alloc: Global,
    graphs: &Graphs<'_, '_>,
    trips: &[ChosenTrip],
) -> Result<Option<Plan>, OutOfMemory>
    requires exact { AreExact graphs.now }
    requires ids { HasOwnIds graphs.now.instance.now.settled.now }
    ensures { IfOk result (λ found. MatchOption found
        ((chosen : List (Option ℕ)) → IsPlan graphs.now.graph.now chosen → AreTrips graphs.now.instance.now.points.now (travel_time graphs.now.instance.now.times.now) graphs.now.instance.now.settled.now graphs.now.graph.now chosen trips.now → ⊥)
        (λ plan. GivesTrips graphs.now.instance.now.points.now (travel_time graphs.now.instance.now.times.now) graphs.now.instance.now.settled.now graphs.now.graph.now plan trips.now)) }
{
    let vehicles = graphs.instance.settled.vehicles.as_slice();
    let mut chosen = Vec::new(alloc);
    let mut place = 0;
    for vehicle in 0..vehicles.len() {
        if vehicles[vehicle].late {
            chosen.push(None)?;
            continue;
        }
        if place >= trips.len() {
            return Ok(None);
        }
        let Some(row) = row_of_trip(graphs, vehicle, &trips[place]) else {
            return Ok(None);
        };
        chosen.push(Some(row))?;
        place += 1;
    }
    if place < trips.len() {
        return Ok(None);
    }
    Ok(Some(Plan::of(chosen)))
}

/// The vehicle's row of which the trip tells.
fn row_of_trip(graphs: &Graphs<'_, '_>, vehicle: usize, trip: &ChosenTrip) -> Option<u32>
    requires exact { AreExact graphs.now }
    requires ids { HasOwnIds graphs.now.instance.now.settled.now }
    requires vehicle { vehicle < length graphs.now.instance.now.settled.now.vehicles }
    ensures { MatchOption result
        ((row : ℕ) → IsRowOf graphs.now.graph.now vehicle row → TellsRow graphs.now.instance.now.points.now (travel_time graphs.now.instance.now.times.now) graphs.now.instance.now.settled.now graphs.now.graph.now vehicle row trip.now → ⊥)
        (λ row. IsRowOf graphs.now.graph.now vehicle row × TellsRow graphs.now.instance.now.points.now (travel_time graphs.now.instance.now.times.now) graphs.now.instance.now.settled.now graphs.now.graph.now vehicle row trip.now) }
{
    let graph = graphs.graph;
    let count = graph.vehicle_count();
    prove!(vehicle < count);
    for row in graph.first_row(vehicle)..graph.first_row(vehicle + 1) {
        if tells_row(graphs, vehicle, row, trip) {
            return Some(row as u32);
        }
    }
    None
}

/// Whether the trip tells of this row of the vehicle.
fn tells_row(graphs: &Graphs<'_, '_>, vehicle: usize, row: usize, trip: &ChosenTrip) -> bool
    requires exact { AreExact graphs.now }
    requires ids { HasOwnIds graphs.now.instance.now.settled.now }
    requires vehicle { vehicle < length graphs.now.instance.now.settled.now.vehicles }
    requires row { IsRowOf graphs.now.graph.now vehicle row }
    ensures { IsTrue result ↔ TellsRow graphs.now.instance.now.points.now (travel_time graphs.now.instance.now.times.now) graphs.now.instance.now.settled.now graphs.now.graph.now vehicle row trip.now }
{
    let size = graphs.graph.rows().len();
    prove!(row < size);
    let one = &graphs.graph.rows()[row];
    let instance = graphs.instance;
    if trip.vehicle != instance.settled.vehicles.as_slice()[vehicle].id || trip.cost != one.cost {
        return false;
    }
    let riders = one.riders.as_slice();
    let task = task_of(instance.settled, vehicle, riders);
    let stops = trip.stops.as_slice();
    let Some(order) = told_order(instance, vehicle, riders, &task, stops) else {
        return false;
    };
    if !serves(&task, instance.times, order.as_slice()) {
        return false;
    }
    let Some(delay) = delay_of(&task, instance.times, order.as_slice()) else {
        return false;
    };
    delay == trip.cost
}
