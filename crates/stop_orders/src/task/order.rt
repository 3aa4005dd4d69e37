ghost use Rattle.std.specs.Prelude.{◌↔◌, IsTrue};
ghost use Rattle.stop_orders.specs.task.Task.{IsOrderOf};

use crate::{Done, Stop, Task};

/// Whether the stops are an order for the task: each rider is picked up once and dropped once, after it;
/// each passenger gets out once; and there is no other stop.
pub fn is_order(task: &Task, stops: &[Stop]) -> bool
    ensures { IsTrue result ↔ IsOrderOf task.now stops.now }
{
    let riders = task.riders.len();
    let passengers = task.aboard.len();
    let mut done = Done::none();
    for stop in stops {
        if !done.is_next(riders, passengers, *stop) {
            return false;
        }
        done = done.with(*stop);
    }
    done.is_all(riders, passengers)
}
