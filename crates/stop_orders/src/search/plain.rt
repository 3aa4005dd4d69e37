ghost use Rattle.std.specs.Prelude.{◌≡◌, ◌+◌, ◌<◌, ◌≤◌, List, IfSome, IfNone, length};
ghost use Rattle.pool_base.specs.Times.{point_count, travel_time};
ghost use Rattle.stop_orders.specs.declared.task.stop.Stop.{Stop as OneStop};
ghost use Rattle.stop_orders.specs.task.Task.{IsTask, IsOrderOf, Serves, order_delay};
ghost use Rattle.stop_orders.specs.lemmas.task.Rest.{left_count};
ghost use Rattle.stop_orders.specs.lemmas.search.Plain.{IsFound, StaysGood, NoneBetter, MakesOrders};
ghost use Rattle.stop_orders.specs.work.search.Plain.{AllTried};

use crate::search::search::is_better;
use crate::task::done::stop_of;
use crate::task::route::copy_of_stops;
use crate::{Done, Route, Stop, Task, delay_of, serves};
use arrayvec::ArrayVec;
use pool_base::Times;

/// The least delay over all orders that serve the task, and an order that has it; `None` exactly where no
/// order serves. It tries each order, so it is for small tasks: the measure of faster searches.
pub fn least_over_all_orders(task: &Task, times: &Times) -> Option<Route>
    requires valid { IsTask (point_count times.now) task.now }
    ensures serves { IfSome result (λ route. Serves (travel_time times.now) task.now route.stops.items) }
    ensures delay { IfSome result (λ route. route.delay ≡ order_delay (travel_time times.now) task.now route.stops.items) }
    ensures least { IfSome result (λ route. (stops : List OneStop) → Serves (travel_time times.now) task.now stops
        → route.delay ≤ order_delay (travel_time times.now) task.now stops) }
    ensures none { IfNone result ((stops : List OneStop) → Serves (travel_time times.now) task.now stops → ⊥) }
{
    let mut path = ArrayVec::new();
    let mut best = None;
    try_rests(task, times, Done::none(), &mut path, &mut best);
    best
}

/// Tries all orders that begin with these stops.
fn try_rests(
    task: &Task,
    times: &Times,
    done: Done,
    path: &mut ArrayVec<Stop, 22>,
    best: &mut Option<Route>,
)
    requires valid { IsTask (point_count times.now) task.now }
    requires orders { MakesOrders task.now done path.old.items }
    requires room { length path.old.items
        + left_count (length task.now.riders.items) (length task.now.aboard.items) done ≤ 22 }
    requires found { IsFound (travel_time times.now) task.now best.old }
    ensures path { path.new.items ≡ path.old.items }
    ensures found { IsFound (travel_time times.now) task.now best.new }
    ensures kept { StaysGood best.old best.new }
    ensures tried { AllTried (travel_time times.now) task.now done path.old.items best.new }
{
    let riders = task.riders.len();
    let passengers = task.aboard.len();
    if done.is_all(riders, passengers) {
        keep_better(task, times, path, best);
        return;
    }
    for k in 0..22u8 {
        let stop = stop_of(k);
        if done.is_next(riders, passengers, stop) {
            path.push(stop);
            try_rests(task, times, done.with(stop), path, best);
            path.pop();
        }
    }
}

/// Keeps an order where it serves with less delay than what was found.
fn keep_better(task: &Task, times: &Times, stops: &[Stop], best: &mut Option<Route>)
    requires valid { IsTask (point_count times.now) task.now }
    requires order { IsOrderOf task.now stops.now }
    requires room { length stops.now ≤ 22 }
    requires found { IsFound (travel_time times.now) task.now best.old }
    ensures found { IsFound (travel_time times.now) task.now best.new }
    ensures kept { StaysGood best.old best.new }
    ensures tried { Serves (travel_time times.now) task.now stops.now
        → NoneBetter best.new (order_delay (travel_time times.now) task.now stops.now) }
{
    if !serves(task, times, stops) {
        return;
    }
    if let Some(delay) = delay_of(task, times, stops) {
        if is_better(delay, best) {
            *best = Some(Route {
                stops: copy_of_stops(stops),
                delay,
            });
        }
    }
}
