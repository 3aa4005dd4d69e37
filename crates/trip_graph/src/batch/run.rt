ghost use Rattle.std.specs.Prelude.{◌<◌, ◌≤◌, length};
ghost use Rattle.trip_graph.specs.work.batch.Runs.{AreNext};

use crate::vehicle::vehicle_trips::VehicleTrips;
use arrayvec::ArrayVec;

/// How many vehicles are grown in one run, with the room that stands at its start.
pub(crate) const RUN: usize = 32;

/// The next vehicles that have rows, rising, and the vehicle from which the run after this one goes on.
#[derive(Drop)]
pub(crate) struct Run {
    pub(crate) vehicles: ArrayVec<usize, 32>,
    pub(crate) end: usize,
}

/// The next vehicles with rows, from one on, at most 32.
pub(crate) fn next_run(lists: &[VehicleTrips], from: usize) -> Run
    requires { from < length lists.now }
    ensures on { from < result.end }
    ensures end { result.end ≤ length lists.now }
    ensures next { AreNext lists.now from result.vehicles.items result.end }
{
    let mut vehicles = ArrayVec::new();
    let mut end = from;
    'vehicles: while end < lists.len() && vehicles.len() < RUN {
        if !lists[end].rows().is_empty() {
            vehicles.push(end);
        }
        end += 1;
    }
    Run { vehicles, end }
}
