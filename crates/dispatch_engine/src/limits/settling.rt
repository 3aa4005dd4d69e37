ghost use Rattle.std.specs.Prelude.{◌≡◌, ◌≤◌, IfOk, length, map};
ghost use Rattle.pool_base.specs.Times.{point_count, travel_time};
ghost use Rattle.request_book.specs.Points.{ArePoints};
ghost use Rattle.stop_orders.specs.task.Settled.{greatest};
ghost use Rattle.stop_orders.specs.task.Sound.{IsSound};
ghost use Rattle.dispatch_engine.specs.limits.Settling.{IsSettled};

use crate::limits::kept_riders::riders_as_promised;
use crate::limits::requests::plain_riders;
use crate::limits::settled_vehicles::{Basis, settled_vehicles};
use pool_base::{OutOfMemory, Times};
use request_book::{Points, Snapshot, Vehicle};
use rider_limits::Settings;
use std::alloc::Global;
use stop_orders::{Settled, SettledRiders, SettledVehicles};

/// The batch with its places and limits: which vehicles are late, which promises are kept, and which have
/// lapsed. The points are the snapshot's, and the table is over them.
///
/// Vehicles and riders stand in the snapshot's order.
pub fn settle(
    alloc: Global,
    snapshot: &Snapshot,
    settings: &Settings,
    points: &Points,
    times: &Times,
) -> Result<Settled, OutOfMemory>
    requires points { ArePoints snapshot.now points.now }
    requires table { point_count times.now ≡ length points.now }
    ensures settled { IfOk result (IsSettled settings.entry.now points.entry.now (travel_time times.entry.now) snapshot.entry.now) }
    ensures sound { IfOk result (IsSound settings.entry.now.trip (point_count times.entry.now) (travel_time times.entry.now)) }
{
    let requests = snapshot.riders.as_slice();
    let plain = plain_riders(alloc, settings, points, times, requests)?;
    let basis = Basis {
        settings,
        points,
        times,
        sealed_at: snapshot.now,
        requests,
        plain: &plain,
    };
    let vehicles = settled_vehicles(alloc, &basis, snapshot.vehicles.as_slice())?;
    let riders = riders_as_promised(alloc, settings.wait, requests, &plain, &vehicles)?;
    Ok(Settled {
        now: u64::from(snapshot.now.get()),
        dwell: settings.dwell,
        most_seats: most_seats(snapshot.vehicles.as_slice()),
        vehicles: SettledVehicles::of(vehicles),
        riders: SettledRiders::of(riders),
    })
}

/// The greatest number of seats of a vehicle, 0 without vehicles.
fn most_seats(vehicles: &[Vehicle]) -> u8
    ensures { result ≡ greatest (map (λ v. v.seats) vehicles.now) }
{
    let mut most = 0;
    for vehicle in vehicles {
        most = most.max(vehicle.seats);
    }
    most
}
