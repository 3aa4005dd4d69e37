//! Orders of stops, read from what is told of them.
ghost use Rattle.std.specs.Prelude.{◌≡◌, ◌<◌, ◌≤◌, ℕ, List, All, IfNone, IfSome, IsTrue, MatchOption, Some, length, slice_index, ◌↔◌};
ghost use Rattle.dispatch_engine.specs.outcome.Told.{rider_id, told_stop};
ghost use Rattle.dispatch_engine.specs.lemmas.outcome.Named.{told_stops};
ghost use Rattle.pool_base.specs.Times.{point_count, travel_time};
ghost use Rattle.stop_orders.specs.task.Order.{IsKnown};
ghost use Rattle.stop_orders.specs.task.Settled.{IsTrip, trip_task, vehicle_at};
ghost use Rattle.stop_orders.specs.task.Task.{IsTask, IsOrderOf};
ghost use Rattle.stop_orders.specs.declared.task.stop.Stop.{Stop as OneStop};
ghost use Rattle.report_audit.specs.work.points.Orders.{HasOwnIds};

use arrayvec::ArrayVec;
use dispatch_engine::{Instance, tell_stops};
use pool_base::RiderId;
use request_book::PlannedStop;
use stop_orders::{Settled, SettledRider, Stop, Task, is_order};

/// The order of a vehicle's stops for a trip that is told so; `None` where there is none. The task is the
/// vehicle's with the trip.
pub(crate) fn told_order(
    instance: &Instance<'_>,
    vehicle: usize,
    trip: &[usize],
    task: &Task,
    told: &[PlannedStop],
) -> Option<ArrayVec<Stop, 22>>
    requires ids { HasOwnIds instance.now.settled.now }
    requires vehicle { vehicle < length instance.now.settled.now.vehicles }
    requires trip { IsTrip (length instance.now.settled.now.riders) trip.now }
    requires few { length trip.now ≤ 6 }
    requires task { task.now ≡ trip_task instance.now.settled.now vehicle trip.now }
    requires valid { IsTask (point_count instance.now.times.now) task.now }
    ensures order { IfSome result (λ order. IsOrderOf task.now order.items) }
    ensures told { IfSome result (λ order. told.now ≡ told_stops instance.now.points.now (travel_time instance.now.times.now) instance.now.settled.now vehicle trip.now order.items) }
    ensures only { IfSome result (λ order. (stops : List OneStop) → IsOrderOf task.now stops → told.now ≡ told_stops instance.now.points.now (travel_time instance.now.times.now) instance.now.settled.now vehicle trip.now stops → order.items ≡ stops) }
    ensures none { IfNone result ((stops : List OneStop) → IsOrderOf task.now stops → told.now ≡ told_stops instance.now.points.now (travel_time instance.now.times.now) instance.now.settled.now vehicle trip.now stops → ⊥) }
{
    let Some(order) = read_order(instance.settled, vehicle, trip, told) else {
        return None;
    };
    if !is_order(task, order.as_slice()) {
        return None;
    }
    let stops = tell_stops::<22>(instance, vehicle, trip, task, order.as_slice());
    if !are_same_stops(stops.as_slice(), told) {
        return None;
    }
    Some(order)
}

/// The stops of a vehicle with a trip that are told so; `None` where one is of nobody there, or there are
/// more than an order can have. Who uses them judges them.
fn read_order(
    settled: &Settled,
    vehicle: usize,
    trip: &[usize],
    told: &[PlannedStop],
) -> Option<ArrayVec<Stop, 22>>
    requires ids { HasOwnIds settled.now }
    requires vehicle { vehicle < length settled.now.vehicles }
    requires trip { IsTrip (length settled.now.riders) trip.now }
    requires few { length trip.now ≤ 6 }
    requires passengers { length (vehicle_at settled.now vehicle).aboard.items ≤ 10 }
    ensures { (points : List ℕ) (tau : ℕ → ℕ → ℕ) (stops : List OneStop) → IsOrderOf (trip_task settled.entry.now vehicle trip.now) stops
        → told.now ≡ told_stops points tau settled.entry.now vehicle trip.now stops → MatchOption result ⊥ (λ order. order.items ≡ stops) }
{
    let mut order = ArrayVec::new();
    for stop in told {
        if order.is_full() {
            return None;
        }
        let Some(next) = read_stop(settled, vehicle, trip, *stop) else {
            return None;
        };
        order.push(next);
    }
    Some(order)
}

/// The stop that is told so.
fn read_stop(settled: &Settled, vehicle: usize, trip: &[usize], told: PlannedStop) -> Option<Stop>
    requires ids { HasOwnIds settled.now }
    requires vehicle { vehicle < length settled.now.vehicles }
    requires trip { IsTrip (length settled.now.riders) trip.now }
    requires few { length trip.now ≤ 6 }
    requires passengers { length (vehicle_at settled.now vehicle).aboard.items ≤ 10 }
    ensures { (points : List ℕ) (stop : OneStop) (second : ℕ) → IsKnown (length trip.now) (length (vehicle_at settled.entry.now vehicle).aboard.items) stop
        → told ≡ told_stop points settled.entry.now vehicle trip.now (stop, second) → result ≡ Some stop }
{
    let passengers = settled.vehicles.as_slice()[vehicle].aboard_ids.as_slice();
    match place_of_rider(settled, trip, told.rider) {
        Some(number) => {
            if told.pick {
                Some(Stop::Pick(number as u8))
            } else {
                Some(Stop::Drop(number as u8))
            }
        }
        None => match place_aboard(passengers, told.rider) {
            Some(number) => Some(Stop::Alight(number as u8)),
            None => None,
        },
    }
}

/// The first place among these riders of the one with this id.
pub(crate) fn place_of_rider(settled: &Settled, riders: &[usize], id: RiderId) -> Option<usize>
    requires { All (λ r. r < length settled.now.riders) riders.now }
    ensures { MatchOption result ((i : ℕ) → i < length riders.now → rider_id settled.entry.now (slice_index riders.now i) ≡ id → ⊥)
        (λ i. (i < length riders.now) × (rider_id settled.entry.now (slice_index riders.now i) ≡ id)) }
{
    let known = settled.riders.as_slice();
    for place in 0..riders.len() {
        if known[riders[place]].id == id {
            return Some(place);
        }
    }
    None
}

/// The first place of this id among passengers.
fn place_aboard(passengers: &[RiderId], id: RiderId) -> Option<usize>
    ensures { MatchOption result ((i : ℕ) → i < length passengers.now → slice_index passengers.now i ≡ id → ⊥)
        (λ i. (i < length passengers.now) × (slice_index passengers.now i ≡ id)) }
{
    for place in 0..passengers.len() {
        if passengers[place] == id {
            return Some(place);
        }
    }
    None
}

fn are_same_stops(stops: &[PlannedStop], others: &[PlannedStop]) -> bool
    ensures { IsTrue result ↔ (stops.now ≡ others.now) }
{
    stops == others
}
