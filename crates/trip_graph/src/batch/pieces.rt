ghost use Rattle.std.specs.Prelude.{◌≡◌, ◌-◌, ◌<◌, ◌≤◌, IfOk, length};
ghost use Rattle.trip_graph.specs.work.batch.Growth.{CanGrowBatch, batch_of, tau_of};
ghost use Rattle.trip_graph.specs.vehicle.Rows.{AreRowsOfSize, IsLevelOf};

use crate::batch::batch_growth::BatchGrowth;
use crate::vehicle::level::Level;
use crate::vehicle::level_growth::{empty_level, grow_level};
use crate::vehicle::vehicle_trips::VehicleTrips;
use pool_base::{OutOfMemory, Steps};
use std::alloc::Global;
use std::marker::Brand;
use std::sync::ledger::{Blank, Ledger};

/// The rows of one vehicle without riders.
pub(crate) fn empty_piece(
    alloc: Global,
    growth: &BatchGrowth<'_>,
    vehicle: usize,
) -> Result<VehicleTrips, OutOfMemory>
    requires can { CanGrowBatch growth.now }
    requires vehicle { vehicle < length (batch_of growth.now).vehicles }
    ensures { IfOk result (AreRowsOfSize (tau_of growth.now) (batch_of growth.now) vehicle 0) }
{
    count_empty::<Brand>(alloc, growth, vehicle, Blank::new(1))
}

fn count_empty<L: Ledger>(
    alloc: Global,
    growth: &BatchGrowth<'_>,
    vehicle: usize,
    blank: Blank,
) -> Result<VehicleTrips, OutOfMemory>
    requires can { CanGrowBatch growth.now }
    requires vehicle { vehicle < length (batch_of growth.now).vehicles }
    requires name { blank.name ≡ L.name }
    requires parts { blank.parts ≡ L.parts }
    requires share { 0 < blank.parts }
    ensures { IfOk result (AreRowsOfSize (tau_of growth.now) (batch_of growth.now) vehicle 0) }
{
    let mut steps = Steps::<L>::new(blank);
    empty_level(alloc, growth.settled, growth.times, vehicle, &mut steps)
}

/// The rows of one vehicle of one size, from those of one rider fewer.
pub(crate) fn level_piece(
    alloc: Global,
    growth: &BatchGrowth<'_>,
    vehicle: usize,
    level: u8,
    below: &VehicleTrips,
    room: u64,
) -> Result<Level, OutOfMemory>
    requires can { CanGrowBatch growth.now }
    requires vehicle { vehicle < length (batch_of growth.now).vehicles }
    requires smallest { 1 ≤ level }
    requires largest { level ≤ 6 }
    requires below { AreRowsOfSize (tau_of growth.now) (batch_of growth.now) vehicle (level - 1) below.now }
    ensures { IfOk result (IsLevelOf (tau_of growth.now) (batch_of growth.now) vehicle level room) }
{
    count_level::<Brand>(alloc, growth, vehicle, level, below, room, Blank::new(1))
}

fn count_level<L: Ledger>(
    alloc: Global,
    growth: &BatchGrowth<'_>,
    vehicle: usize,
    level: u8,
    below: &VehicleTrips,
    room: u64,
    blank: Blank,
) -> Result<Level, OutOfMemory>
    requires can { CanGrowBatch growth.now }
    requires vehicle { vehicle < length (batch_of growth.now).vehicles }
    requires smallest { 1 ≤ level }
    requires largest { level ≤ 6 }
    requires below { AreRowsOfSize (tau_of growth.now) (batch_of growth.now) vehicle (level - 1) below.now }
    requires name { blank.name ≡ L.name }
    requires parts { blank.parts ≡ L.parts }
    requires share { 0 < blank.parts }
    ensures { IfOk result (IsLevelOf (tau_of growth.now) (batch_of growth.now) vehicle level room) }
{
    let mut steps = Steps::<L>::new(blank);
    grow_level(
        alloc,
        growth.settled,
        growth.times,
        growth.pairs,
        vehicle,
        level,
        below,
        room,
        &mut steps,
    )
}
