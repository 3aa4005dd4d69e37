ghost use Rattle.std.specs.Prelude.{◌≡◌, ℕ, ◌+◌, ◌<◌, ◌≤◌, ◌⊎◌, [], All, Contains, IfOk, MatchBool, Some, length, map, slice_get, sum_by, slice_index_or};
ghost use Rattle.pool_base.specs.Times.{point_count, travel_time};
ghost use Rattle.request_book.specs.values.Vehicle.{HasSeats};
ghost use Rattle.request_book.specs.declared.values.passenger.Passenger.{Passenger};
ghost use Rattle.stop_orders.specs.task.Task.{IsLeg, IsTask, IsServable, leg_at, persons};
ghost use Rattle.stop_orders.specs.task.Settled.{no_rider, vehicle_task};
ghost use Rattle.stop_orders.specs.task.Sound.{IsShort};
ghost use Rattle.dispatch_engine.specs.limits.Requests.{IsLegOf, request_at};
ghost use Rattle.dispatch_engine.specs.work.limits.Requests.{IsBetweenPlaces, ArePlain, CanBeKept};
ghost use Rattle.dispatch_engine.specs.limits.Promised.{promised_to, IsLive};
ghost use Rattle.dispatch_engine.specs.limits.Settling.{IsPlaced};
ghost use Rattle.dispatch_engine.specs.work.limits.Settling.{HasVehiclePlaces, IsSettledVehicle, AreSettledVehicles};

use crate::limits::kept_riders::legs_as_promised;
use crate::limits::promised::riders_promised_to;
use crate::limits::requests::{Journey, leg_of, place_of};
use crate::limits::serving::can_serve;
use arrayvec::ArrayVec;
use pool_base::{OutOfMemory, RiderId, Second, Times};
use request_book::{Passenger, Points, Rider, Vehicle};
use rider_limits::Settings;
use std::alloc::Global;
use stop_orders::{Leg, SettledRider, SettledVehicle, Task};

/// What the vehicles' limits follow from: the batch's second, and its riders as they asked and before promises are looked at.
#[derive(Drop)]
pub(crate) struct Basis<'a> {
    pub settings: &'a Settings,
    pub points: &'a Points,
    pub times: &'a Times,
    pub sealed_at: Second,
    pub requests: &'a [Rider],
    pub plain: &'a [SettledRider],
    pub ghost table: { point_count times.now ≡ length points.now },
    pub ghost right: { ArePlain settings.now points.now (travel_time times.now) requests.now plain.now },
}

/// The vehicles of a batch, each with its place, whether it is late, and the riders that it keeps.
pub(crate) fn settled_vehicles(
    alloc: Global,
    basis: &Basis<'_>,
    vehicles: &[Vehicle],
) -> Result<Vec<SettledVehicle>, OutOfMemory>
    requires places { All (HasVehiclePlaces basis.now.points.now) vehicles.now }
    requires seats { All HasSeats vehicles.now }
    ensures { IfOk result (λ settled. AreSettledVehicles basis.now.settings.now basis.now.points.now (travel_time basis.now.times.now) basis.now.sealed_at basis.now.requests.now basis.now.plain.now vehicles.now settled.items) }
{
    let mut settled = Vec::with_capacity(alloc, vehicles.len())?;
    for vehicle in vehicles {
        let one = settled_vehicle(alloc, basis, vehicle)?;
        settled.push(one)?;
    }
    Ok(settled)
}

fn settled_vehicle(
    alloc: Global,
    basis: &Basis<'_>,
    vehicle: &Vehicle,
) -> Result<SettledVehicle, OutOfMemory>
    requires places { HasVehiclePlaces basis.now.points.now vehicle.now }
    requires seats { HasSeats vehicle.now }
    ensures { IfOk result (IsSettledVehicle basis.now.settings.now basis.now.points.now (travel_time basis.now.times.now) basis.now.sealed_at basis.now.requests.now basis.now.plain.now vehicle.now) }
{
    let settings = basis.settings;
    let times = basis.times;
    let placed = placed_vehicle(settings, basis.points, times, basis.sealed_at, vehicle);
    let late = is_late(alloc, settings.dwell, times, &placed)?;
    let held = held_riders(alloc, settings, times, basis.requests, basis.plain, &placed)?;
    Ok(SettledVehicle {
        id: placed.id,
        start: placed.start,
        ready: placed.ready,
        seats: placed.seats,
        aboard: placed.aboard,
        aboard_ids: placed.aboard_ids,
        late,
        held,
    })
}

/// A vehicle with its place, the second from which on it can leave, and its passengers; it holds nobody yet.
fn placed_vehicle(
    settings: &Settings,
    points: &Points,
    times: &Times,
    now: Second,
    vehicle: &Vehicle,
) -> SettledVehicle
    requires table { point_count times.now ≡ length points.now }
    requires places { HasVehiclePlaces points.now vehicle.now }
    requires seats { HasSeats vehicle.now }
    ensures placed { IsPlaced settings.now points.now (travel_time times.now) now vehicle.now result }
    ensures valid { IsTask (length points.now) (vehicle_task settings.now.dwell result []) }
    ensures short { All IsShort result.aboard.items }
{
    let passengers = vehicle.aboard.as_slice();
    let ready = vehicle.time.get().max(now.get());
    SettledVehicle {
        id: vehicle.id,
        start: place_of(points, vehicle.node),
        ready: u64::from(ready),
        seats: vehicle.seats,
        aboard: legs_of(settings, points, times, passengers),
        aboard_ids: ids_of(passengers),
        late: false,
        held: ArrayVec::new(),
    }
}

/// The passengers' legs.
fn legs_of(
    settings: &Settings,
    points: &Points,
    times: &Times,
    passengers: &[Passenger],
) -> ArrayVec<Leg, 10>
    requires table { point_count times.now ≡ length points.now }
    requires places { All (λ p. IsBetweenPlaces points.now p.origin p.destination) passengers.now }
    requires count { length passengers.now ≤ 10 }
    ensures count { length result.items ≡ length passengers.now }
    ensures legs { (k : ℕ) (p : Passenger) → slice_get passengers.now k ≡ Some p → IsLegOf settings.now points.now (travel_time times.now) p.origin p.destination p.time p.party (leg_at result.items k) }
    ensures valid { All (IsLeg (length points.now)) result.items }
    ensures short { All IsShort result.items }
    ensures persons { persons result.items ≡ sum_by (λ p. p.party) passengers.now }
{
    let mut legs = ArrayVec::new();
    for passenger in passengers {
        let journey = Journey {
            origin: passenger.origin,
            destination: passenger.destination,
            time: passenger.time,
            party: passenger.party,
        };
        legs.push(leg_of(settings, points, times, &journey));
    }
    legs
}

fn ids_of(passengers: &[Passenger]) -> ArrayVec<RiderId, 10>
    requires { length passengers.now ≤ 10 }
    ensures { result.items ≡ map (λ p. p.rider) passengers.now }
{
    let mut ids = ArrayVec::new();
    for passenger in passengers {
        ids.push(passenger.rider);
    }
    ids
}

/// The task of a vehicle with these riders.
fn task_with(vehicle: &SettledVehicle, dwell: u16, riders: ArrayVec<Leg, 6>) -> Task
    ensures { result ≡ vehicle_task dwell vehicle.now riders.items }
{
    let mut aboard = ArrayVec::new();
    aboard
        .try_extend_from_slice(vehicle.aboard.as_slice())
        .unwrap();
    Task {
        start: vehicle.start,
        ready: vehicle.ready,
        dwell,
        seats: vehicle.seats,
        aboard,
        riders,
    }
}

/// Whether no order serves the vehicle's passengers.
fn is_late(
    alloc: Global,
    dwell: u16,
    times: &Times,
    vehicle: &SettledVehicle,
) -> Result<bool, OutOfMemory>
    requires { IsTask (point_count times.now) (vehicle_task dwell vehicle.now []) }
    ensures { IfOk result (λ late. MatchBool late (IsServable (travel_time times.now) (vehicle_task dwell vehicle.now []) → ⊥)
        (IsServable (travel_time times.now) (vehicle_task dwell vehicle.now []))) }
{
    let task = task_with(vehicle, dwell, ArrayVec::new());
    let can = can_serve(alloc, &task, times)?;
    Ok(!can)
}

/// All riders promised to the vehicle, where some order serves them all as promised; else nobody.
fn held_riders(
    alloc: Global,
    settings: &Settings,
    times: &Times,
    requests: &[Rider],
    plain: &[SettledRider],
    vehicle: &SettledVehicle,
) -> Result<ArrayVec<usize, 6>, OutOfMemory>
    requires same { length plain.now ≡ length requests.now }
    requires legs { (k : ℕ) → k < length requests.now → CanBeKept (point_count times.now) settings.now.wait (request_at requests.now k) (slice_index_or plain.now k no_rider).leg }
    requires valid { IsTask (point_count times.now) (vehicle_task settings.now.dwell vehicle.now []) }
    ensures { IfOk result (λ held. (IsLive settings.now (travel_time times.now) requests.now plain.now vehicle.now × (held.items ≡ promised_to vehicle.now.id requests.now))
        ⊎ ((0 < length (promised_to vehicle.now.id requests.now) → IsLive settings.now (travel_time times.now) requests.now plain.now vehicle.now → ⊥) × (held.items ≡ []))) }
{
    let Some(trip) = riders_promised_to(requests, vehicle.id, usize::from(settings.trip)) else {
        return Ok(ArrayVec::new());
    };
    if trip.is_empty() {
        return Ok(trip);
    }
    let legs = legs_as_promised(settings.wait, requests, plain, trip.as_slice());
    let task = task_with(vehicle, settings.dwell, legs);
    if can_serve(alloc, &task, times)? {
        Ok(trip)
    } else {
        Ok(ArrayVec::new())
    }
}
