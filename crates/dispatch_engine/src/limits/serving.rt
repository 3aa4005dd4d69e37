ghost use Rattle.std.specs.Prelude.{◌≡◌, ◌<◌, IfOk, MatchBool};
ghost use Rattle.pool_base.specs.Times.{point_count, travel_time};
ghost use Rattle.stop_orders.specs.task.Task.{IsTask, IsServable};

use pool_base::{OutOfMemory, Steps, Times};
use std::alloc::Global;
use std::marker::Brand;
use std::sync::ledger::{Blank, Ledger};
use stop_orders::{Task, least_delay};

/// Whether some order serves the task.
pub(crate) fn can_serve(alloc: Global, task: &Task, times: &Times) -> Result<bool, OutOfMemory>
    requires { IsTask (point_count times.now) task.now }
    ensures { IfOk result (λ can. MatchBool can (IsServable (travel_time times.now) task.now) (IsServable (travel_time times.now) task.now → ⊥)) }
{
    search::<Brand>(alloc, task, times, Blank::new(1))
}

fn search<L: Ledger>(
    alloc: Global,
    task: &Task,
    times: &Times,
    blank: Blank,
) -> Result<bool, OutOfMemory>
    requires valid { IsTask (point_count times.now) task.now }
    requires name { blank.name ≡ L.name }
    requires parts { blank.parts ≡ L.parts }
    requires share { 0 < blank.parts }
    ensures { IfOk result (λ can. MatchBool can (IsServable (travel_time times.now) task.now) (IsServable (travel_time times.now) task.now → ⊥)) }
{
    let mut steps = Steps::<L>::new(blank);
    let route = least_delay(alloc, task, times, &mut steps)?;
    Ok(route.is_some())
}
