ghost use Rattle.std.specs.Prelude.{◌≡◌, ◌+◌, ◌<◌, ◌≤◌, All, Contains, IfOk, Some, length, slice_get};
ghost use Rattle.pool_base.specs.Times.{point_count, travel_time};
ghost use Rattle.stop_orders.specs.task.Task.{IsLeg};
ghost use Rattle.stop_orders.specs.task.Sound.{IsShort};
ghost use Rattle.dispatch_engine.specs.limits.Requests.{IsLegOf};
ghost use Rattle.dispatch_engine.specs.lemmas.limits.NamedPromises.{ideal_second};
ghost use Rattle.dispatch_engine.specs.work.limits.Requests.{IsPlainRider, ArePlain, IsBetweenPlaces};

use pool_base::{NodeId, OutOfMemory, Party, Second, Times};
use request_book::{Points, Rider};
use rider_limits::Settings;
use std::alloc::Global;
use stop_orders::{Leg, SettledRider};

/// What limits the leg of a rider, who waits or is aboard.
#[derive(Drop)]
pub(crate) struct Journey {
    pub origin: NodeId,
    pub destination: NodeId,
    /// When the rider asked.
    pub time: Second,
    pub party: Party,
}

/// The leg of a journey, with the limits that follow from its second.
pub(crate) fn leg_of(settings: &Settings, points: &Points, times: &Times, journey: &Journey) -> Leg
    requires table { point_count times.now ≡ length points.now }
    requires places { IsBetweenPlaces points.now journey.now.origin journey.now.destination }
    ensures leg { IsLegOf settings.now points.now (travel_time times.now) journey.now.origin journey.now.destination journey.now.time journey.now.party result }
    ensures valid { IsLeg (length points.now) result }
    ensures short { IsShort result }
{
    let from = place_of(points, journey.origin);
    let to = place_of(points, journey.destination);
    let second = u64::from(journey.time.get());
    let ideal = ideal_of(times, from, to, second);
    // A party has 1 to 6 persons, as its type keeps.
    let _persons = journey.party.get();
    Leg {
        origin: from,
        destination: to,
        latest_pickup: second + u64::from(settings.wait),
        ideal,
        latest_dropoff: ideal + u64::from(settings.delay),
        party: journey.party,
    }
}

/// Where a node of the batch stands in the table.
pub(crate) fn place_of(points: &Points, node: NodeId) -> usize
    requires { Contains points.now node }
    ensures place { slice_get points.now result ≡ Some node }
    ensures within { result < length points.now }
{
    match points.place(node) {
        Some(place) => place,
        None => unreachable!(),
    }
}

/// When a rider would arrive who left at this second; this second where there is no way.
fn ideal_of(times: &Times, from: usize, to: usize, second: u64) -> u64
    requires from { from < point_count times.now }
    requires to { to < point_count times.now }
    requires second { second ≤ 1000000000 }
    ensures value { result ≡ ideal_second (travel_time times.now) second from to }
    ensures within { result ≤ 2000000000 }
{
    match times.get(from, to) {
        Some(seconds) => second + u64::from(seconds),
        None => second,
    }
}

/// The riders, each with the wait alone as limit, and each promise lapsed.
pub(crate) fn plain_riders(
    alloc: Global,
    settings: &Settings,
    points: &Points,
    times: &Times,
    requests: &[Rider],
) -> Result<Vec<SettledRider>, OutOfMemory>
    requires table { point_count times.now ≡ length points.now }
    requires places { All (λ r. IsBetweenPlaces points.now r.origin r.destination) requests.now }
    ensures { IfOk result (λ riders. ArePlain settings.now points.now (travel_time times.now) requests.now riders.items) }
{
    let mut riders = Vec::with_capacity(alloc, requests.len())?;
    for request in requests {
        riders.push(plain_rider(settings, points, times, request))?;
    }
    Ok(riders)
}

fn plain_rider(settings: &Settings, points: &Points, times: &Times, request: &Rider) -> SettledRider
    requires table { point_count times.now ≡ length points.now }
    requires places { IsBetweenPlaces points.now request.now.origin request.now.destination }
    ensures { IsPlainRider settings.now points.now (travel_time times.now) request.now result }
{
    let journey = Journey {
        origin: request.origin,
        destination: request.destination,
        time: request.time,
        party: request.party,
    };
    let leg = leg_of(settings, points, times, &journey);
    SettledRider {
        id: request.id,
        leg,
        lapsed: request.promise.is_some(),
    }
}
