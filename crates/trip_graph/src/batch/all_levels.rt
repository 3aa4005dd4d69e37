ghost use Rattle.std.specs.Prelude.{◌≡◌, ◌+◌, ◌≤◌, [], IfOk, MatchBool};
ghost use Rattle.trip_graph.specs.work.batch.Growth.{CanGrowBatch, batch_of, tau_of};
ghost use Rattle.trip_graph.specs.work.batch.Levels.{AreLevels, level_total};
ghost use Rattle.trip_graph.specs.batch.Answer.{HasMoreRows};

use crate::batch::batch_growth::BatchGrowth;
use crate::batch::levels::{first_level, next_level};
use crate::batch::workers::Workers;
use crate::vehicle::vehicle_trips::VehicleTrips;
use pool_base::{OutOfMemory, Sequence};
use shared_work::Gate;
use std::alloc::Global;
use std::thread::Threads;

/// Lists the rows of all vehicles of each size from 0 to `most`; `false` exactly where they are more than `room`.
pub(crate) fn all_levels<R: Threads + Sync, G: Gate>(
    alloc: Global,
    workers: &Workers<'_, R, G>,
    growth: &BatchGrowth<'_>,
    most: u8,
    room: u64,
    levels: &mut Vec<Sequence<VehicleTrips>>,
) -> Result<bool, OutOfMemory>
    requires can { CanGrowBatch growth.now }
    requires most { most ≤ 6 }
    requires none { levels.old.items ≡ [] }
    ensures { IfOk result (λ fit. MatchBool fit (AreLevels (tau_of growth.now) (batch_of growth.now) (most + 1) levels.new.items × (level_total levels.new.items ≤ room))
        (HasMoreRows (tau_of growth.now) (batch_of growth.now) most room)) }
{
    let mut first = Vec::new(alloc);
    let mut total = first_level(alloc, growth, &mut first)?;
    if total > room {
        return Ok(false);
    }
    levels.push(Sequence::of(first))?;
    for size in 0..most {
        let mut next = Vec::new(alloc);
        let below = levels[usize::from(size)].as_slice();
        let left = room - total;
        let Some(more) = next_level(alloc, workers, growth, size, below, left, &mut next)? else {
            return Ok(false);
        };
        total += more;
        levels.push(Sequence::of(next))?;
    }
    Ok(true)
}
