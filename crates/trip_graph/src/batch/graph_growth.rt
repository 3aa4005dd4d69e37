ghost use Rattle.std.specs.Prelude.{◌≡◌, ◌+◌, ◌<◌, ◌≤◌, IfOk};
ghost use Rattle.plan_rules.specs.declared.fault.GraphFault.TheVariants.{OutOfMemory as NoMemory};
ghost use Rattle.pool_base.specs.Times.{point_count, travel_time};
ghost use Rattle.stop_orders.specs.task.Sound.{IsSound};
ghost use Rattle.trip_graph.specs.work.batch.Levels.{AreLevels, level_total};
ghost use Rattle.trip_graph.specs.batch.Answer.{IsAnswer, IsTripGraphOf};

use crate::batch::all_levels::all_levels;
use crate::batch::answer::GraphAnswer;
use crate::batch::batch_growth::BatchGrowth;
use crate::batch::edges::edges_of;
use crate::batch::rows::{add_vehicle, held_row};
use crate::batch::workers::Workers;
use crate::pairs::rider_rider_graph::rider_rider;
use crate::vehicle::vehicle_trips::VehicleTrips;
use plan_rules::{GraphFault, TripGraph};
use pool_base::{OutOfMemory, Sequence, Times};
use rider_limits::Settings;
use shared_work::Gate;
use std::alloc::Global;
use std::thread::Threads;
use stop_orders::{Settled, laws};

/// The three graphs of a batch: which vehicle can serve which rider, which two riders could share an empty
/// vehicle, and which vehicle can serve which trips of at most `settings.trip` riders, at which least
/// delays; `Overflow` exactly where there are more rows than `settings.pairs`.
///
/// The trips are grown size by size, by `settings.workers` workers. For each size the vehicles that have
/// rows of one rider fewer are taken in runs of at most 32. Each vehicle of a run is a piece of work, and
/// the gate hears of it as a worker begins it. What comes out is the same for every number of workers.
pub fn grow_graph<G: Gate>(
    rt: &(impl Threads + Sync),
    alloc: Global,
    settled: &Settled,
    times: &Times,
    settings: &Settings,
    gate: &G,
) -> Result<GraphAnswer, OutOfMemory>
    requires { IsSound settings.now.trip (point_count times.now) (travel_time times.now) settled.now }
    ensures { IfOk result (IsAnswer settings.entry.now (travel_time times.entry.now) settled.entry.now) }
{
    // What is settled for the settings' trips is so for trips of six.
    laws::sound_for_larger();
    let rr = rider_rider(alloc, settled, times)?;
    let growth = BatchGrowth {
        settled,
        times,
        pairs: &rr,
    };
    let workers = Workers {
        rt,
        count: settings.workers,
        gate,
    };
    let room = u64::from(settings.pairs);
    let mut levels = Vec::new(alloc);
    if !all_levels(alloc, &workers, &growth, settings.trip, room, &mut levels)? {
        return Ok(GraphAnswer::Overflow);
    }
    let rv = edges_of(alloc, levels[1].as_slice())?;
    let graph = graph_of(alloc, settled, times, settings, &levels)?;
    Ok(GraphAnswer::Graph {
        graph,
        rv: Sequence::of(rv),
        rr,
    })
}

/// The graph of these levels, with the row that each vehicle holds.
fn graph_of(
    alloc: Global,
    settled: &Settled,
    times: &Times,
    settings: &Settings,
    levels: &[Sequence<VehicleTrips>],
) -> Result<TripGraph, OutOfMemory>
    requires sound { IsSound settings.now.trip (point_count times.now) (travel_time times.now) settled.now }
    requires levels { AreLevels (travel_time times.now) settled.now (settings.now.trip + 1) levels.now }
    requires few { level_total levels.now ≤ settings.now.pairs }
    ensures { IfOk result (IsTripGraphOf settings.entry.now (travel_time times.entry.now) settled.entry.now) }
{
    // What the graph's own rules ask of costs and late vehicles.
    laws::delays_are_small();
    laws::sub_trips_are_servable();
    let vehicles = settled.vehicles.as_slice();
    let mut rows = Vec::new(alloc);
    let mut held = Vec::with_capacity(alloc, vehicles.len())?;
    for vehicle in 0..vehicles.len() {
        let from = rows.len();
        add_vehicle(levels, vehicle, &mut rows)?;
        held.push(held_row(&rows, from, &vehicles[vehicle]))?;
    }
    let riders = settled.riders.as_slice().len();
    match TripGraph::new(alloc, vehicles.len(), riders, settings.penalty, rows, held) {
        Ok(graph) => Ok(graph),
        Err(fault) => Err(memory_of(fault)),
    }
}

/// Nothing else is wrong with the rows.
fn memory_of(fault: GraphFault) -> OutOfMemory
    requires { fault ≡ NoMemory }
{
    match fault {
        GraphFault::OutOfMemory => OutOfMemory,
        _ => unreachable!(),
    }
}
