ghost use Rattle.std.specs.Prelude.{ℕ, ◌+◌, ◌-◌, ◌<◌, ◌≤◌, IfOk, Contains, length};
ghost use Rattle.pool_base.specs.Times.{point_count, travel_time};
ghost use Rattle.stop_orders.specs.task.Settled.{IsRrEdge};
ghost use Rattle.stop_orders.specs.task.Sound.{IsSound};
ghost use Rattle.trip_graph.specs.vehicle.Rows.{IsGrownOf, TakesSteps};

use crate::vehicle::grown::Grown;
use crate::vehicle::level::Level;
use crate::vehicle::level_growth::{empty_level, grow_level};
use crate::vehicle::vehicle_trips::VehicleTrips;
use pool_base::{OutOfMemory, Steps, Times};
use std::alloc::Global;
use std::sync::ledger::Ledger;
use stop_orders::{PairList, Settled};

/// The vehicle's rows of at most `trip` riders, 1 to 6, by size, then riders; `TooMany` exactly where there
/// are more than `room`. They are grown level by level.
///
/// With m for the lesser of the number of rows and `room + 1`, it makes at most m x (riders + 1) + 1 searches.
pub fn grow<L: Ledger>(
    alloc: Global,
    settled: &Settled,
    times: &Times,
    pairs: &PairList,
    vehicle: usize,
    trip: u8,
    room: u64,
    steps: &mut Steps<L>,
) -> Result<Grown, OutOfMemory>
    requires sound { IsSound 6 (point_count times.now) (travel_time times.now) settled.now }
    requires pairs { (a b : ℕ) → IsRrEdge (travel_time times.now) settled.now a b → Contains pairs.now (a, b) }
    requires vehicle { vehicle < length settled.now.vehicles }
    requires smallest { 1 ≤ trip }
    requires largest { trip ≤ 6 }
    ensures grown { IfOk result (IsGrownOf (travel_time times.entry.now) settled.entry.now vehicle trip room) }
    ensures steps { TakesSteps (travel_time times.entry.now) settled.entry.now vehicle trip room steps.old steps.new }
{
    let mut below = empty_level(alloc, settled, times, vehicle, steps)?;
    let mut smaller = Vec::new(alloc);
    if below.rows().len() as u64 > room {
        return Ok(Grown::TooMany);
    }
    for size in 0..trip {
        let left = room - (smaller.len() as u64 + below.rows().len() as u64);
        let next = match grow_level(
            alloc,
            settled,
            times,
            pairs,
            vehicle,
            size + 1,
            &below,
            left,
            steps,
        )? {
            Level::All(next) => next,
            Level::TooMany => return Ok(Grown::TooMany),
        };
        let mut done = below.into_rows();
        smaller.append(&mut done)?;
        below = next;
    }
    let mut last = below.into_rows();
    smaller.append(&mut last)?;
    Ok(Grown::All(VehicleTrips::of(smaller)))
}
