//! The batch on the line: a copy of it, who could ride in which vehicle, and the trips of its vehicle.
ghost use Rattle.std.specs.Prelude.{◌≡◌, ℕ, ◌<◌, Contains, length};
ghost use Rattle.pool_base.specs.Times.{point_count, travel_time};
ghost use Rattle.request_book.specs.Points.{ArePoints};
ghost use Rattle.stop_orders.specs.task.Settled.{IsRrEdge};
ghost use Rattle.stop_orders.specs.task.Sound.{IsSound};

use crate::line::{LINE, batch_on, network_of, settings};
use crate::walking::fast;
use dispatch_engine::settle;
use pool_base::{OutOfMemory, Steps, Times};
use request_book::{Points, Snapshot};
use road_network::Network;
use std::alloc::Global;
use std::marker::Brand;
use std::sync::ledger::{Blank, Ledger};
use std::thread::Threads;
use stop_orders::{PairList, Settled};
use trip_graph::{Grown, grow, rider_rider, rider_vehicle};

/// How many edges and trips a batch has. There are no trips where there is no room for all of them.
type Counts = (usize, Option<usize>);

fn counts_on_line(rt: &(impl Threads + Sync), alloc: Global, room: u64) -> Option<Counts> {
    let network = network_of(alloc, LINE)?;
    let batch = batch_on(alloc, &network)?;
    let copy = batch.copy(alloc).ok()?;
    if copy.same(&batch) {
        counts_of(rt, alloc, &network, &copy, room).ok()
    } else {
        None
    }
}

fn counts_of(
    rt: &(impl Threads + Sync),
    alloc: Global,
    network: &Network,
    snapshot: &Snapshot,
    room: u64,
) -> Result<Counts, OutOfMemory> {
    let points = snapshot.points(alloc)?;
    match fast(rt, alloc, network, points.nodes()) {
        Some(Ok(times)) => counts_over(alloc, snapshot, &points, &times, room),
        _ => Err(OutOfMemory),
    }
}

fn counts_over(
    alloc: Global,
    snapshot: &Snapshot,
    points: &Points,
    times: &Times,
    room: u64,
) -> Result<Counts, OutOfMemory>
    requires { ArePoints snapshot.now points.now }
{
    if times.len() != points.nodes().len() {
        return Err(OutOfMemory);
    }
    let settled = settle(alloc, snapshot, &settings(), points, times)?;
    counts_of_settled(alloc, &settled, times, room)
}

fn counts_of_settled(
    alloc: Global,
    settled: &Settled,
    times: &Times,
    room: u64,
) -> Result<Counts, OutOfMemory>
    requires { IsSound 6 (point_count times.now) (travel_time times.now) settled.now }
{
    let edges = rider_vehicle(alloc, settled, times)?;
    if settled.vehicles.as_slice().is_empty() {
        return Ok((edges.len(), None));
    }
    let pairs = rider_rider(alloc, settled, times)?;
    let trips = count_of_first::<Brand>(alloc, settled, times, &pairs, room, Blank::new(1))?;
    Ok((edges.len(), trips))
}

fn count_of_first<L: Ledger>(
    alloc: Global,
    settled: &Settled,
    times: &Times,
    pairs: &PairList,
    room: u64,
    blank: Blank,
) -> Result<Option<usize>, OutOfMemory>
    requires sound { IsSound 6 (point_count times.now) (travel_time times.now) settled.now }
    requires pairs { (a b : ℕ) → IsRrEdge (travel_time times.now) settled.now a b → Contains pairs.now (a, b) }
    requires some { 0 < length settled.now.vehicles }
    requires name { blank.name ≡ L.name }
    requires parts { blank.parts ≡ L.parts }
    requires share { 0 < blank.parts }
{
    let mut steps = Steps::<L>::new(blank);
    match grow(alloc, settled, times, pairs, 0, 4, room, &mut steps)? {
        Grown::All(trips) => Ok(Some(trips.rows().len())),
        Grown::TooMany => Ok(None),
    }
}

/// Either rider could ride, alone or with the other.
#[test]
fn two_riders_and_a_vehicle(rt: HostRuntime) {
    assert_eq!(rt; counts_on_line(&rt, rt.alloc(), 4), Some((2, Some(4))));
    assert_eq!(rt; counts_on_line(&rt, rt.alloc(), 3), Some((2, None)));
}
