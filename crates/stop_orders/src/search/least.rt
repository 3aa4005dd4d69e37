ghost use Rattle.std.specs.Prelude.{◌≡◌, ◌+◌, ◌≤◌, List, IfOk, IfSome, IfNone};
ghost use Rattle.pool_base.specs.Times.{point_count, travel_time};
ghost use Rattle.stop_orders.specs.declared.task.stop.Stop.{Stop as OneStop};
ghost use Rattle.stop_orders.specs.task.Task.{IsTask, Serves, order_delay};
ghost use Rattle.stop_orders.specs.work.search.Label.{IsRoutable};

use crate::Workspace;
use crate::search::label::first_label_of;
use crate::search::label_store::LabelStore;
use crate::search::search::{is_hopeless, try_all};
use crate::task::route::Route;
use crate::task::task::Task;
use arrayvec::ArrayVec;
use pool_base::{OutOfMemory, Steps, Times};
use std::alloc::Global;
use std::sync::ledger::Ledger;

/// The least delay of an order that serves the task, and an order that has it; `None` exactly where no
/// order serves. It counts one step.
pub fn least_delay<L: Ledger>(
    alloc: Global,
    task: &Task,
    times: &Times,
    steps: &mut Steps<L>,
) -> Result<Option<Route>, OutOfMemory>
    requires valid { IsTask (point_count times.now) task.now }
    ensures serves { IfOk result (λ found. IfSome found (λ route. Serves (travel_time times.now) task.now route.stops.items)) }
    ensures delay { IfOk result (λ found. IfSome found (λ route. route.delay ≡ order_delay (travel_time times.now) task.now route.stops.items)) }
    ensures least { IfOk result (λ found. IfSome found (λ route. (stops : List OneStop) → Serves (travel_time times.now) task.now stops
        → route.delay ≤ order_delay (travel_time times.now) task.now stops)) }
    ensures none { IfOk result (λ found. IfNone found ((stops : List OneStop) → Serves (travel_time times.now) task.now stops → ⊥)) }
    ensures step { steps.new ≡ steps.old + 1 }
{
    least_delay_with(&mut Workspace::new(alloc), task, times, steps)
}

/// `least_delay` in the room of earlier searches.
pub fn least_delay_with<L: Ledger>(
    workspace: &mut Workspace,
    task: &Task,
    times: &Times,
    steps: &mut Steps<L>,
) -> Result<Option<Route>, OutOfMemory>
    requires valid { IsTask (point_count times.now) task.now }
    ensures serves { IfOk result (λ found. IfSome found (λ route. Serves (travel_time times.now) task.now route.stops.items)) }
    ensures delay { IfOk result (λ found. IfSome found (λ route. route.delay ≡ order_delay (travel_time times.now) task.now route.stops.items)) }
    ensures least { IfOk result (λ found. IfSome found (λ route. (stops : List OneStop) → Serves (travel_time times.now) task.now stops
        → route.delay ≤ order_delay (travel_time times.now) task.now stops)) }
    ensures none { IfOk result (λ found. IfNone found ((stops : List OneStop) → Serves (travel_time times.now) task.now stops → ⊥)) }
    ensures step { steps.new ≡ steps.old + 1 }
{
    steps.tick();
    least_route(&mut workspace.store, task, times)
}

/// The same whatever the limits of the task.
pub(crate) fn least_route(
    store: &mut LabelStore,
    task: &Task,
    times: &Times,
) -> Result<Option<Route>, OutOfMemory>
    requires valid { IsRoutable (point_count times.now) task.now }
    ensures serves { IfOk result (λ found. IfSome found (λ route. Serves (travel_time times.now) task.now route.stops.items)) }
    ensures delay { IfOk result (λ found. IfSome found (λ route. route.delay ≡ order_delay (travel_time times.now) task.now route.stops.items)) }
    ensures least { IfOk result (λ found. IfSome found (λ route. (stops : List OneStop) → Serves (travel_time times.now) task.now stops
        → route.delay ≤ order_delay (travel_time times.now) task.now stops)) }
    ensures none { IfOk result (λ found. IfNone found ((stops : List OneStop) → Serves (travel_time times.now) task.now stops → ⊥)) }
{
    store.begin(task.riders.len() * 2 + task.aboard.len())?;
    let label = first_label_of(task);
    let mut best = None;
    if is_hopeless(task, times, &label, &best, store) {
        return Ok(None);
    }
    let mut path = ArrayVec::new();
    try_all(task, times, &label, &mut path, &mut best, store)?;
    Ok(best)
}
