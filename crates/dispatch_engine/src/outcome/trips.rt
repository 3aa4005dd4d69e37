ghost use Rattle.std.specs.Prelude.{◌≡◌, ◌+◌, ◌<◌, false, IfOk, length};
ghost use Rattle.plan_rules.specs.Plan.{IsLawful};
ghost use Rattle.pool_base.specs.Times.{travel_time};
ghost use Rattle.stop_orders.specs.task.Settled.{vehicle_at};
ghost use Rattle.dispatch_engine.specs.outcome.Instance.{AreExact};
ghost use Rattle.dispatch_engine.specs.outcome.Trips.{IsTripOf, AreTrips};

use crate::outcome::instance::Graphs;
use crate::outcome::told::tell_stops;
use pool_base::{OutOfMemory, Steps};
use request_book::ChosenTrip;
use std::alloc::Global;
use std::marker::Brand;
use std::sync::ledger::{Blank, Ledger};
use stop_orders::{Workspace, least_delay_with, task_of};

/// The trip that the plan gives each vehicle that isn't late, with an order of stops of least delay.
pub(crate) fn chosen_trips(
    alloc: Global,
    graphs: &Graphs<'_, '_>,
    chosen: &[Option<u32>],
) -> Result<Vec<ChosenTrip>, OutOfMemory>
    requires exact { AreExact graphs.now }
    requires lawful { IsLawful graphs.now.graph.now chosen.now }
    ensures { IfOk result (λ trips. AreTrips graphs.now.instance.now.points.now (travel_time graphs.now.instance.now.times.now) graphs.now.instance.now.settled.now graphs.now.graph.now chosen.now trips.items) }
{
    all_trips::<Brand>(alloc, graphs, chosen, Blank::new(1))
}

fn all_trips<L: Ledger>(
    alloc: Global,
    graphs: &Graphs<'_, '_>,
    chosen: &[Option<u32>],
    blank: Blank,
) -> Result<Vec<ChosenTrip>, OutOfMemory>
    requires exact { AreExact graphs.now }
    requires lawful { IsLawful graphs.now.graph.now chosen.now }
    requires name { blank.name ≡ L.name }
    requires parts { blank.parts ≡ L.parts }
    requires share { 0 < blank.parts }
    ensures { IfOk result (λ trips. AreTrips graphs.now.instance.now.points.now (travel_time graphs.now.instance.now.times.now) graphs.now.instance.now.settled.now graphs.now.graph.now chosen.now trips.items) }
{
    let mut steps = Steps::<L>::new(blank);
    let mut workspace = Workspace::new(alloc);
    let vehicles = graphs.instance.settled.vehicles.as_slice();
    let mut trips = Vec::new(alloc);
    for vehicle in 0..vehicles.len() {
        if vehicles[vehicle].late {
            continue;
        }
        let trip = trip_of(graphs, chosen, vehicle, &mut workspace, &mut steps)?;
        trips.push(trip)?;
    }
    Ok(trips)
}

/// The trip of a vehicle's chosen row. The row is there, since the vehicle isn't late, and some order
/// serves it.
fn trip_of<L: Ledger>(
    graphs: &Graphs<'_, '_>,
    chosen: &[Option<u32>],
    vehicle: usize,
    workspace: &mut Workspace,
    steps: &mut Steps<L>,
) -> Result<ChosenTrip, OutOfMemory>
    requires exact { AreExact graphs.now }
    requires lawful { IsLawful graphs.now.graph.now chosen.now }
    requires vehicle { vehicle < length graphs.now.instance.now.settled.now.vehicles }
    requires in_time { (vehicle_at graphs.now.instance.now.settled.now vehicle).late ≡ false }
    ensures { IfOk result (IsTripOf graphs.now.instance.now.points.now (travel_time graphs.now.instance.now.times.now) graphs.now.instance.now.settled.now graphs.now.graph.now chosen.now vehicle) }
{
    let instance = graphs.instance;
    let id = instance.settled.vehicles.as_slice()[vehicle].id;
    let Some(number) = chosen[vehicle] else {
        unreachable!()
    };
    let row = &graphs.graph.rows()[number as usize];
    let riders = row.riders.as_slice();
    let task = task_of(instance.settled, vehicle, riders);
    let Some(route) = least_delay_with(workspace, &task, instance.times, steps)? else {
        unreachable!()
    };
    let order = route.stops.as_slice();
    let stops = tell_stops::<22>(instance, vehicle, riders, &task, order);
    Ok(ChosenTrip {
        vehicle: id,
        cost: row.cost,
        stops,
    })
}
