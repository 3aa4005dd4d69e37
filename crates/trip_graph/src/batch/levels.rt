ghost use Rattle.std.specs.Prelude.{◌≡◌, ◌+◌, ◌-◌, ◌<◌, ◌≤◌, [], IfOk, MatchOption, OnOk, length};
ghost use Rattle.trip_graph.specs.work.batch.Growth.{CanGrowBatch, CanGrowLevel, batch_of, tau_of};
ghost use Rattle.trip_graph.specs.work.batch.Levels.{AreLevelsUpTo, HasMoreOfSize, row_total};
ghost use Rattle.trip_graph.specs.work.batch.Runs.{AreEmpty, AreLevelsOf, AreNext, AreWithin};

use crate::batch::batch_growth::BatchGrowth;
use crate::batch::level_run::LevelRun;
use crate::batch::pieces::empty_piece;
use crate::batch::run::next_run;
use crate::batch::workers::Workers;
use crate::vehicle::level::Level;
use crate::vehicle::vehicle_trips::VehicleTrips;
use pool_base::OutOfMemory;
use shared_work::Gate;
use std::alloc::Global;
use std::thread::Threads;
use stop_orders::laws;

/// Lists the rows of all vehicles without riders, and gives how many they are.
pub(crate) fn first_level(
    alloc: Global,
    growth: &BatchGrowth<'_>,
    lists: &mut Vec<VehicleTrips>,
) -> Result<u64, OutOfMemory>
    requires can { CanGrowBatch growth.now }
    requires none { lists.old.items ≡ [] }
    ensures { IfOk result (λ total. AreLevelsUpTo (tau_of growth.now) (batch_of growth.now) 0 (length (batch_of growth.now).vehicles) lists.new.items
        × (total ≡ row_total lists.new.items) × (total ≤ 500)) }
{
    let count = growth.settled.vehicles.as_slice().len();
    let mut total = 0;
    for vehicle in 0..count {
        let trips = empty_piece(alloc, growth, vehicle)?;
        total += trips.rows().len() as u64;
        lists.push(trips)?;
    }
    Ok(total)
}

/// Lists the rows of all vehicles of `size + 1` riders, from those of `size` riders, and gives how many they are; `None`
/// exactly where they are more than `room`. The vehicles that have rows of `size` riders are grown in runs, each by all
/// workers.
pub(crate) fn next_level<R: Threads + Sync, G: Gate>(
    alloc: Global,
    workers: &Workers<'_, R, G>,
    growth: &BatchGrowth<'_>,
    size: u8,
    below: &[VehicleTrips],
    room: u64,
    lists: &mut Vec<VehicleTrips>,
) -> Result<Option<u64>, OutOfMemory>
    requires can { CanGrowBatch growth.now }
    requires size { size < 6 }
    requires below { AreLevelsUpTo (tau_of growth.now) (batch_of growth.now) size (length (batch_of growth.now).vehicles) below.now }
    requires none { lists.old.items ≡ [] }
    ensures { IfOk result (λ answer. MatchOption answer (HasMoreOfSize (tau_of growth.now) (batch_of growth.now) (size + 1) room)
        (λ total. AreLevelsUpTo (tau_of growth.now) (batch_of growth.now) (size + 1) (length (batch_of growth.now).vehicles) lists.new.items
        × (total ≡ row_total lists.new.items) × (total ≤ room))) }
{
    let mut total = 0;
    'runs: while lists.len() < below.len() {
        let next = next_run(below, lists.len());
        let run = LevelRun {
            growth,
            size,
            below,
            vehicles: next.vehicles.as_slice(),
            room,
            found: total,
        };
        let levels = grow_run(alloc, workers, &run)?;
        let Some(found) = add_run(alloc, &run, levels, next.end, lists)? else {
            return Ok(None);
        };
        total = found;
    }
    Ok(Some(total))
}

/// Grows the vehicles of a run, by all workers.
fn grow_run<R: Threads + Sync, G: Gate>(
    alloc: Global,
    workers: &Workers<'_, R, G>,
    run: &LevelRun<'_, '_>,
) -> Result<Vec<Level>, OutOfMemory>
    requires can { CanGrowLevel run.now.growth.now run.now.size run.now.below.now }
    requires vehicles { AreWithin (length run.now.below.now) run.now.vehicles.now }
    requires few { length run.now.vehicles.now ≤ 32 }
    requires fits { run.now.found ≤ run.now.room }
    ensures { IfOk result (λ levels. AreLevelsOf (tau_of run.now.growth.now) (batch_of run.now.growth.now) (run.now.size + 1) (run.now.room - run.now.found) run.now.vehicles.now levels.items) }
{
    workers.run(alloc, run.vehicles.len() as u32, run)
}

/// Puts the rows of a run's vehicles behind those of the vehicles before, without a copy, and gives the new
/// total; vehicles that had no rows get none. `None` where there is no room for all.
fn add_run(
    alloc: Global,
    run: &LevelRun<'_, '_>,
    levels: Vec<Level>,
    end: usize,
    lists: &mut Vec<VehicleTrips>,
) -> Result<Option<u64>, OutOfMemory>
    requires can { CanGrowLevel run.now.growth.now run.now.size run.now.below.now }
    requires vehicles { AreWithin (length run.now.below.now) run.now.vehicles.now }
    requires fits { run.now.found ≤ run.now.room }
    requires levels { AreLevelsOf (tau_of run.now.growth.now) (batch_of run.now.growth.now) (run.now.size + 1) (run.now.room - run.now.found) run.now.vehicles.now levels.items }
    requires next { AreNext run.now.below.now (length lists.old.items) run.now.vehicles.now end }
    requires end { end ≤ length run.now.below.now }
    requires before { AreLevelsUpTo (tau_of run.now.growth.now) (batch_of run.now.growth.now) (run.now.size + 1) (length lists.old.items) lists.old.items }
    requires total { run.now.found ≡ row_total lists.old.items }
    ensures { IfOk result (λ answer. MatchOption answer (HasMoreOfSize (tau_of run.now.growth.now) (batch_of run.now.growth.now) (run.now.size + 1) run.now.room)
        (λ found. AreLevelsUpTo (tau_of run.now.growth.now) (batch_of run.now.growth.now) (run.now.size + 1) end lists.new.items
        × (found ≡ row_total lists.new.items) × (found ≤ run.now.room))) }
{
    let mut found = run.found;
    let mut number = 0;
    for level in levels {
        skip_to(alloc, run, run.vehicles[number], lists)?;
        let Level::All(trips) = level else {
            return Ok(None);
        };
        let more = trips.rows().len() as u64;
        if more > run.room - found {
            return Ok(None);
        }
        found += more;
        lists.push(trips)?;
        number += 1;
    }
    skip_to(alloc, run, end, lists)?;
    Ok(Some(found))
}

/// Gives no rows to the vehicles up to this one: they have none of one rider fewer.
fn skip_to(
    alloc: Global,
    run: &LevelRun<'_, '_>,
    end: usize,
    lists: &mut Vec<VehicleTrips>,
) -> Result<(), OutOfMemory>
    requires can { CanGrowLevel run.now.growth.now run.now.size run.now.below.now }
    requires on { length lists.old.items ≤ end }
    requires within { end ≤ length run.now.below.now }
    requires empty { AreEmpty run.now.below.now (length lists.old.items) end }
    requires before { AreLevelsUpTo (tau_of run.now.growth.now) (batch_of run.now.growth.now) (run.now.size + 1) (length lists.old.items) lists.old.items }
    ensures level { OnOk result (AreLevelsUpTo (tau_of run.now.growth.now) (batch_of run.now.growth.now) (run.now.size + 1) end lists.new.items) }
    ensures total { OnOk result (row_total lists.new.items ≡ row_total lists.old.items) }
{
    // A trip can be served only where its smaller trips can.
    laws::sub_trips_are_servable();
    for _vehicle in lists.len()..end {
        lists.push(VehicleTrips::new(alloc))?;
    }
    Ok(())
}
