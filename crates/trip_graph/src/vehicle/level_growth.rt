ghost use Rattle.std.specs.Prelude.{ℕ, ◌+◌, ◌-◌, ◌*◌, ◌<◌, ◌≤◌, IfOk, Contains, length};
ghost use Rattle.pool_base.specs.Times.{point_count, travel_time};
ghost use Rattle.stop_orders.specs.task.Settled.{IsRrEdge};
ghost use Rattle.stop_orders.specs.task.Sound.{IsSound};
ghost use Rattle.trip_graph.specs.vehicle.Rows.{AreRowsOfSize, IsLevelOf};

use crate::vehicle::growing::Growing;
use crate::vehicle::growth::Growth;
use crate::vehicle::level::Level;
use crate::vehicle::row_growth::grow_size;
use crate::vehicle::trip_of::TripOf;
use crate::vehicle::vehicle_trips::VehicleTrips;
use arrayvec::ArrayVec;
use pool_base::{OutOfMemory, Steps, Times};
use std::alloc::Global;
use std::sync::ledger::Ledger;
use stop_orders::{PairList, Settled, Workspace, laws, least_cost_with, task_of};

/// The vehicle's rows of size 0: the empty trip, or nothing where no order serves the passengers in time.
///
/// It is one search.
pub fn empty_level<L: Ledger>(
    alloc: Global,
    settled: &Settled,
    times: &Times,
    vehicle: usize,
    steps: &mut Steps<L>,
) -> Result<VehicleTrips, OutOfMemory>
    requires sound { IsSound 6 (point_count times.now) (travel_time times.now) settled.now }
    requires vehicle { vehicle < length settled.now.vehicles }
    ensures rows { IfOk result (AreRowsOfSize (travel_time times.entry.now) settled.entry.now vehicle 0) }
    ensures steps { steps.new ≤ steps.old + 1 }
{
    let mut workspace = Workspace::new(alloc);
    let task = task_of(settled, vehicle, &[]);
    let Some(cost) = least_cost_with(&mut workspace, &task, times, steps)? else {
        return Ok(VehicleTrips::new(alloc));
    };
    let mut rows = Vec::new(alloc);
    rows.push(TripOf {
        riders: ArrayVec::new(),
        cost,
    })?;
    Ok(VehicleTrips::of(rows))
}

/// The vehicle's rows of the size `level`, 1 to 6, from those of one rider fewer; `TooMany` exactly where
/// there are more than `room`.
///
/// Each row and each later one that differs from it in the last rider alone give one trip of one rider
/// more. It is tried where all its smaller trips are rows, and two riders where they are one of the pairs.
/// This is the level-wise search for frequent sets of R. Agrawal and R. Srikant, "Fast algorithms for mining
/// association rules", VLDB 1994, section 2.1. A search is made at most for each row below and each rider.
pub fn grow_level<L: Ledger>(
    alloc: Global,
    settled: &Settled,
    times: &Times,
    pairs: &PairList,
    vehicle: usize,
    level: u8,
    below: &VehicleTrips,
    room: u64,
    steps: &mut Steps<L>,
) -> Result<Level, OutOfMemory>
    requires sound { IsSound 6 (point_count times.now) (travel_time times.now) settled.now }
    requires pairs { (a b : ℕ) → IsRrEdge (travel_time times.now) settled.now a b → Contains pairs.now (a, b) }
    requires vehicle { vehicle < length settled.now.vehicles }
    requires smallest { 1 ≤ level }
    requires largest { level ≤ 6 }
    requires below { AreRowsOfSize (travel_time times.now) settled.now vehicle (level - 1) below.now }
    ensures level { IfOk result (IsLevelOf (travel_time times.entry.now) settled.entry.now vehicle level room) }
    ensures steps { steps.new ≤ steps.old + length below.entry.now * length settled.entry.now.riders }
{
    // A trip can be served only where its smaller trips can, and two riders only where they are one of the pairs.
    laws::sub_trips_are_servable();
    laws::pairs_are_edges();
    let growth = Growth {
        settled,
        times,
        pairs,
        vehicle,
        room,
    };
    let mut growing = Growing {
        workspace: Workspace::new(alloc),
        found: Vec::new(alloc),
        near: 0,
    };
    let all = grow_size(&growth, below.rows(), level as usize, &mut growing, steps)?;
    let Growing { found, .. } = growing;
    if all {
        Ok(Level::All(VehicleTrips::of(found)))
    } else {
        Ok(Level::TooMany)
    }
}
