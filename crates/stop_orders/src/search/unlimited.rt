ghost use Rattle.std.specs.Prelude.{◌≡◌, ◌≤◌, [], List, IfOk, IfSome, IfNone, length, map};
ghost use Rattle.pool_base.specs.Times.{point_count, travel_time};
ghost use Rattle.stop_orders.specs.declared.task.stop.Stop.{Stop as OneStop};
ghost use Rattle.stop_orders.specs.task.Task.{IsTask, IsOrderOf, ReachesAll, order_delay};
ghost use Rattle.stop_orders.specs.work.search.Unlimited.{without_latest, without_limits};

use crate::Workspace;
use crate::search::least::least_route;
use crate::task::leg::Leg;
use crate::task::route::Route;
use crate::task::task::Task;
use arrayvec::ArrayVec;
use pool_base::{OutOfMemory, Times};
use std::alloc::Global;

/// The least delay of an order in which all passengers can be dropped off, however late, and an order that
/// has it; `None` exactly where no order reaches all their places. The task has no riders.
pub fn least_delay_unlimited(
    alloc: Global,
    task: &Task,
    times: &Times,
) -> Result<Option<Route>, OutOfMemory>
    requires valid { IsTask (point_count times.now) task.now }
    requires alone { task.now.riders.items ≡ [] }
    ensures order { IfOk result (λ found. IfSome found (λ route. IsOrderOf task.now route.stops.items)) }
    ensures reaches { IfOk result (λ found. IfSome found (λ route. ReachesAll (travel_time times.now) task.now route.stops.items)) }
    ensures delay { IfOk result (λ found. IfSome found (λ route. route.delay ≡ order_delay (travel_time times.now) task.now route.stops.items)) }
    ensures least { IfOk result (λ found. IfSome found (λ route. (stops : List OneStop) → IsOrderOf task.now stops
        → ReachesAll (travel_time times.now) task.now stops → route.delay ≤ order_delay (travel_time times.now) task.now stops)) }
    ensures none { IfOk result (λ found. IfNone found ((stops : List OneStop) → IsOrderOf task.now stops
        → ReachesAll (travel_time times.now) task.now stops → ⊥)) }
{
    let unlimited = without_limits_of(task);
    let mut workspace = Workspace::new(alloc);
    least_route(&mut workspace.store, &unlimited, times)
}

fn without_limits_of(task: &Task) -> Task
    requires few { length task.now.aboard.items ≤ 10 }
    requires alone { task.now.riders.items ≡ [] }
    ensures { result ≡ without_limits task.now }
{
    Task {
        start: task.start,
        ready: task.ready,
        dwell: task.dwell,
        seats: task.seats,
        aboard: without_latest_of(&task.aboard),
        riders: ArrayVec::new(),
    }
}

fn without_latest_of(legs: &[Leg]) -> ArrayVec<Leg, 10>
    requires { length legs.now ≤ 10 }
    ensures { result.items ≡ map without_latest legs.now }
{
    let mut unlimited = ArrayVec::new();
    for leg in legs {
        unlimited.push(Leg {
            latest_dropoff: u64::MAX,
            ..*leg
        });
    }
    unlimited
}
