ghost use Rattle.std.specs.Prelude.{◌≡◌, ◌<◌, ◌≤◌, All, length, map, slice_index};
ghost use Rattle.std.specs.List.{zip};
ghost use Rattle.pool_base.specs.Times.{point_count, travel_time};
ghost use Rattle.stop_orders.specs.task.Order.{IsKnown};
ghost use Rattle.stop_orders.specs.task.Settled.{trip_task, vehicle_at};
ghost use Rattle.stop_orders.specs.task.Task.{IsTask, IsOrderOf, seconds_of, visit_at};
ghost use Rattle.stop_orders.specs.task.Visit.{place_of};
ghost use Rattle.dispatch_engine.specs.outcome.Told.{rider_id, told_stop};

use crate::outcome::instance::Instance;
use arrayvec::ArrayVec;
use pool_base::RiderId;
use request_book::PlannedStop;
use stop_orders::{Settled, Stop, Task, visit_of};

/// Tells the stops of a vehicle's order for a trip, each with its second. The task is the vehicle's with
/// the trip.
pub fn tell_stops<const N: usize>(
    instance: &Instance<'_>,
    vehicle: usize,
    trip: &[usize],
    task: &Task,
    stops: &[Stop],
) -> ArrayVec<PlannedStop, N>
    requires vehicle { vehicle < length instance.now.settled.now.vehicles }
    requires riders { All (λ r. r < length instance.now.settled.now.riders) trip.now }
    requires task { task.now ≡ trip_task instance.now.settled.now vehicle trip.now }
    requires valid { IsTask (point_count instance.now.times.now) task.now }
    requires order { IsOrderOf task.now stops.now }
    requires room { length stops.now ≤ N }
    ensures { result.items ≡ map (told_stop instance.now.points.now instance.now.settled.now vehicle trip.now)
        (zip stops.now (seconds_of (travel_time instance.now.times.now) (trip_task instance.now.settled.now vehicle trip.now) stops.now)) }
{
    let mut told = ArrayVec::new();
    let mut place = task.start;
    let mut free = task.ready;
    for stop in stops {
        let to = visit_of(task, *stop).place();
        let second = free + instance.times.seconds(place, to) as u64;
        told.push(tell_stop(instance, vehicle, trip, *stop, to, second));
        place = to;
        free = second + task.dwell as u64;
    }
    told
}

/// Tells whom a stop picks up or drops, at the node of this place.
fn tell_stop(
    instance: &Instance<'_>,
    vehicle: usize,
    trip: &[usize],
    stop: Stop,
    place: usize,
    second: u64,
) -> PlannedStop
    requires vehicle { vehicle < length instance.now.settled.now.vehicles }
    requires riders { All (λ r. r < length instance.now.settled.now.riders) trip.now }
    requires known { IsKnown (length trip.now) (length (vehicle_at instance.now.settled.now vehicle).aboard.items) stop }
    requires within { place < point_count instance.now.times.now }
    requires place { place ≡ place_of (visit_at (trip_task instance.now.settled.now vehicle trip.now) stop) }
    ensures { result ≡ told_stop instance.now.points.now instance.now.settled.now vehicle trip.now (stop, second) }
{
    let settled = instance.settled;
    let node = instance.points.nodes()[place];
    match stop {
        Stop::Pick(i) => PlannedStop {
            pick: true,
            rider: id_of(settled, trip[i as usize]),
            node,
            second,
        },
        Stop::Drop(i) => PlannedStop {
            pick: false,
            rider: id_of(settled, trip[i as usize]),
            node,
            second,
        },
        Stop::Alight(j) => PlannedStop {
            pick: false,
            rider: passenger_id(settled, vehicle, j as usize),
            node,
            second,
        },
    }
}

/// The id of a passenger: the ids stand beside the legs.
fn passenger_id(settled: &Settled, vehicle: usize, passenger: usize) -> RiderId
    requires { vehicle < length settled.now.vehicles }
    ensures { result ≡ slice_index (vehicle_at settled.entry.now vehicle).aboard_ids.items passenger }
{
    let ids = settled.vehicles.as_slice()[vehicle].aboard_ids.as_slice();
    ids.get(passenger).copied().unwrap_or_default()
}

/// The id of a rider, given by its number.
pub(crate) fn id_of(settled: &Settled, rider: usize) -> RiderId
    requires { rider < length settled.now.riders }
    ensures { result ≡ rider_id settled.entry.now rider }
{
    settled.riders.as_slice()[rider].id
}
