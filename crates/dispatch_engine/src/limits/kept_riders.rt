ghost use Rattle.std.specs.Prelude.{◌≡◌, ℕ, ◌+◌, ◌<◌, ◌≤◌, All, Contains, IfOk, length};
ghost use Rattle.dispatch_engine.specs.limits.Promised.{promised_limit};
ghost use Rattle.dispatch_engine.specs.lemmas.limits.NamedPromises.{kept_leg, kept_legs, IsHeld};
ghost use Rattle.dispatch_engine.specs.work.limits.Promised.{kept_rider, AreKept};

use arrayvec::ArrayVec;
use pool_base::OutOfMemory;
use request_book::Rider;
use std::alloc::Global;
use stop_orders::{Leg, SettledRider, SettledVehicle};

/// The last second at which a promise and the wait let the rider be picked up.
fn limit_of(wait: u32, request: &Rider) -> u64
    requires { wait ≤ 7200 }
    ensures { result ≡ promised_limit wait request.now }
{
    let latest = u64::from(request.time.get()) + u64::from(wait);
    match request.promise {
        Some(promise) => promise.pickup.min(latest),
        None => latest,
    }
}

/// The leg with the pickup that was promised.
fn leg_as_promised(wait: u32, request: &Rider, leg: Leg) -> Leg
    requires { wait ≤ 7200 }
    ensures { result ≡ kept_leg wait request.now leg }
{
    Leg {
        origin: leg.origin,
        destination: leg.destination,
        latest_pickup: limit_of(wait, request),
        ideal: leg.ideal,
        latest_dropoff: leg.latest_dropoff,
        party: leg.party,
    }
}

/// The legs of these riders, each with the pickup that was promised.
pub(crate) fn legs_as_promised(
    wait: u32,
    requests: &[Rider],
    riders: &[SettledRider],
    trip: &[usize],
) -> ArrayVec<Leg, 6>
    requires wait { wait ≤ 7200 }
    requires same { length riders.now ≡ length requests.now }
    requires within { All (λ k. k < length requests.now) trip.now }
    requires size { length trip.now ≤ 6 }
    ensures { result.items ≡ kept_legs wait requests.now riders.now trip.now }
{
    let mut legs = ArrayVec::new();
    for number in trip {
        let rider = riders[*number];
        legs.push(leg_as_promised(wait, &requests[*number], rider.leg));
    }
    legs
}

/// The riders, where those whom one of the vehicles holds have the pickup that was promised.
pub(crate) fn riders_as_promised(
    alloc: Global,
    wait: u32,
    requests: &[Rider],
    plain: &[SettledRider],
    vehicles: &[SettledVehicle],
) -> Result<Vec<SettledRider>, OutOfMemory>
    requires wait { wait ≤ 7200 }
    requires same { length plain.now ≡ length requests.now }
    requires within { All (λ v. All (λ k. k < length requests.now) v.held.items) vehicles.now }
    ensures { IfOk result (λ riders. AreKept wait requests.now plain.now (IsHeld vehicles.now) plain.now riders.items) }
{
    let mut riders = Vec::from_slice(alloc, plain)?;
    for vehicle in vehicles {
        keep_promises(&mut riders, wait, requests, plain, vehicle.held.as_slice());
    }
    Ok(riders)
}

/// Gives these riders the pickup that was promised.
fn keep_promises(
    riders: &mut Vec<SettledRider>,
    wait: u32,
    requests: &[Rider],
    plain: &[SettledRider],
    held: &[usize],
)
    requires wait { wait ≤ 7200 }
    requires same { length plain.now ≡ length requests.now }
    requires all { length riders.old.items ≡ length plain.now }
    requires within { All (λ k. k < length requests.now) held.now }
    ensures { AreKept wait requests.now plain.now (Contains held.now) riders.old.items riders.new.items }
{
    for number in held {
        riders[*number] = rider_as_promised(wait, &requests[*number], plain[*number]);
    }
}

fn rider_as_promised(wait: u32, request: &Rider, rider: SettledRider) -> SettledRider
    requires { wait ≤ 7200 }
    ensures { result ≡ kept_rider wait request.now rider }
{
    SettledRider {
        id: rider.id,
        leg: leg_as_promised(wait, request, rider.leg),
        lapsed: false,
    }
}
