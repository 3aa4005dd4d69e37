ghost use Rattle.std.specs.Prelude.{◌<◌, ◌≤◌, length};
ghost use Rattle.trip_graph.specs.work.batch.Growth.{CanGrowLevel, batch_of, tau_of};

use crate::batch::batch_growth::BatchGrowth;
use crate::batch::pieces::level_piece;
use crate::vehicle::level::Level;
use crate::vehicle::vehicle_trips::VehicleTrips;
use pool_base::OutOfMemory;
use shared_work::Job;
use std::alloc::Global;

/// The growth of some vehicles from the rows of `size` riders to those of one rider more: each vehicle is a
/// piece that needs nothing of the others, with the room that stands at the start.
#[derive(Drop)]
pub struct LevelRun<'a, 'b> {
    pub(crate) growth: &'a BatchGrowth<'b>,
    pub(crate) size: u8,
    pub(crate) below: &'a [VehicleTrips],
    pub(crate) vehicles: &'a [usize],
    /// How many rows of the size there may be.
    pub(crate) room: u64,
    /// How many there are of the vehicles before.
    pub(crate) found: u64,
}

impl Job for LevelRun<'_, '_> {
    ghost use Rattle.std.specs.Prelude.{◌<◌, ◌≤◌, ◌+◌, ◌-◌, length, slice_index};
    ghost use Rattle.trip_graph.specs.vehicle.Rows.{IsLevelOf};
    ghost use Rattle.trip_graph.specs.work.batch.Growth.{CanGrowLevel, batch_of, tau_of};

    type Out = Level;

    ghost can = { λ run piece. CanGrowLevel run.growth.now run.size run.below.now × (run.found ≤ run.room) × (piece < length run.vehicles.now) × (slice_index run.vehicles.now piece < length run.below.now) };

    ghost right = { λ run piece level. IsLevelOf (tau_of run.growth.now) (batch_of run.growth.now) (slice_index run.vehicles.now piece) (run.size + 1) (run.room - run.found) level };

    fn run(&self, alloc: Global, piece: u32) -> Result<Level, OutOfMemory> {
        let vehicle = self.vehicles[piece as usize];
        let below = &self.below[vehicle];
        let left = self.room - self.found;
        level_piece(alloc, self.growth, vehicle, self.size + 1, below, left)
    }
}
