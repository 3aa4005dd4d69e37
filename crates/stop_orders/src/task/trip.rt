ghost use Rattle.std.specs.Prelude.{◌≡◌, ◌<◌, ◌≤◌, length, map, slice_index_or};
ghost use Rattle.stop_orders.specs.task.Settled.{no_rider, IsTrip, trip_task};

use crate::{Leg, Settled, SettledRider, Task};
use arrayvec::ArrayVec;

/// The task of a vehicle of the batch with a trip, given as rising numbers of riders.
pub fn task_of(settled: &Settled, vehicle: usize, trip: &[usize]) -> Task
    requires vehicle { vehicle < length settled.now.vehicles }
    requires trip { IsTrip (length settled.now.riders) trip.now }
    requires size { length trip.now ≤ 6 }
    ensures { result ≡ trip_task settled.entry.now vehicle trip.entry.now }
{
    let vehicle = &settled.vehicles.as_slice()[vehicle];
    Task {
        start: vehicle.start,
        ready: vehicle.ready,
        dwell: settled.dwell,
        seats: vehicle.seats,
        aboard: copy_of(&vehicle.aboard),
        riders: legs_of(settled.riders.as_slice(), trip),
    }
}

fn copy_of(legs: &[Leg]) -> ArrayVec<Leg, 10>
    requires { length legs.now ≤ 10 }
    ensures { result.items ≡ legs.now }
{
    let mut copy = ArrayVec::new();
    for leg in legs {
        copy.push(*leg);
    }
    copy
}

fn legs_of(riders: &[SettledRider], trip: &[usize]) -> ArrayVec<Leg, 6>
    requires trip { IsTrip (length riders.now) trip.now }
    requires size { length trip.now ≤ 6 }
    ensures { result.items ≡ map (λ r. (slice_index_or riders.now r no_rider).leg) trip.now }
{
    let mut legs = ArrayVec::new();
    for rider in trip {
        legs.push(riders[*rider].leg);
    }
    legs
}
