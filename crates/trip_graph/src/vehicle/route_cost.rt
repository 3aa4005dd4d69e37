ghost use Rattle.std.specs.Prelude.{◌≡◌, ◌+◌, ◌<◌, IfOk, IfSome, IfNone, OnOk, length};
ghost use Rattle.pool_base.specs.Times.{point_count, travel_time};
ghost use Rattle.stop_orders.specs.task.Task.{IsTask, IsServable, IsLeastDelay};
ghost use Rattle.trip_graph.specs.work.vehicle.TripGrowth.{task_with};

use pool_base::{OutOfMemory, Steps, Times};
use std::sync::ledger::Ledger;
use stop_orders::{Leg, Task, Workspace, least_cost_with};

/// The least delay of an order that serves the task with one more rider; `None` where no order serves it. It is one
/// search, in the room of earlier ones. The task stays as it was, so that no copy of it is made for each rider who is
/// tried.
pub(crate) fn cost_with<L: Ledger>(
    workspace: &mut Workspace,
    task: &mut Task,
    leg: Leg,
    times: &Times,
    steps: &mut Steps<L>,
) -> Result<Option<u64>, OutOfMemory>
    requires valid { IsTask (point_count times.now) (task_with task.old leg) }
    requires room { length task.old.riders.items < 6 }
    ensures least { IfOk result (λ answer. IfSome answer (IsLeastDelay (travel_time times.entry.now) (task_with task.old leg))) }
    ensures none { IfOk result (λ answer. IfNone answer (IsServable (travel_time times.entry.now) (task_with task.old leg) → ⊥)) }
    ensures task { OnOk result (task.new ≡ task.old) }
    ensures step { steps.new ≡ steps.old + 1 }
{
    task.riders.push(leg);
    let cost = least_cost_with(workspace, task, times, steps)?;
    task.riders.pop();
    Ok(cost)
}
