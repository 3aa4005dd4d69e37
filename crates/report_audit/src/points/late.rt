//! Late vehicles.
ghost use Rattle.std.specs.Prelude.{◌≡◌, ◌↔◌, ◌<◌, [], IfOk, IsTrue, length};
ghost use Rattle.dispatch_engine.specs.outcome.Instance.{HasSoundLimits};
ghost use Rattle.dispatch_engine.specs.outcome.Trips.{IsLate, IsLateOrder, AreLate};
ghost use Rattle.pool_base.specs.Times.{point_count, travel_time};
ghost use Rattle.stop_orders.specs.task.Settled.{trip_task};
ghost use Rattle.stop_orders.specs.task.Task.{IsTask};
ghost use Rattle.report_audit.specs.work.points.Orders.{HasOwnIds};
ghost use Rattle.report_audit.specs.work.points.Trips.{IsLeast};

use crate::points::orders::told_order;
use dispatch_engine::Instance;
use pool_base::OutOfMemory;
use request_book::{LateVehicle, PlannedStop};
use std::alloc::Global;
use stop_orders::{Task, delay_of, least_delay_unlimited, task_of};

/// Whether these are the late vehicles, each with an order of its passengers of least delay.
pub(crate) fn are_late(
    alloc: Global,
    instance: &Instance<'_>,
    late: &[LateVehicle],
) -> Result<bool, OutOfMemory>
    requires sound { HasSoundLimits instance.now }
    requires ids { HasOwnIds instance.now.settled.now }
    ensures { IfOk result (λ yes. IsTrue yes ↔ AreLate instance.now.points.now (travel_time instance.now.times.now) instance.now.settled.now late.now) }
{
    let vehicles = instance.settled.vehicles.as_slice();
    let mut place = 0;
    for vehicle in 0..vehicles.len() {
        if !vehicles[vehicle].late {
            continue;
        }
        if place >= late.len() {
            return Ok(false);
        }
        if !is_late(alloc, instance, vehicle, &late[place])? {
            return Ok(false);
        }
        place += 1;
    }
    Ok(late.len() <= place)
}

/// Whether this is told rightly of a late vehicle.
fn is_late(
    alloc: Global,
    instance: &Instance<'_>,
    vehicle: usize,
    late: &LateVehicle,
) -> Result<bool, OutOfMemory>
    requires sound { HasSoundLimits instance.now }
    requires ids { HasOwnIds instance.now.settled.now }
    requires vehicle { vehicle < length instance.now.settled.now.vehicles }
    ensures { IfOk result (λ yes. IsTrue yes ↔ IsLate instance.now.points.now (travel_time instance.now.times.now) instance.now.settled.now vehicle late.now) }
{
    if late.vehicle != instance.settled.vehicles.as_slice()[vehicle].id {
        return Ok(false);
    }
    let task = task_of(instance.settled, vehicle, &[]);
    match least_delay_unlimited(alloc, &task, instance.times)? {
        None => match &late.stops {
            None => Ok(late.delay == 0),
            Some(_told) => Ok(false),
        },
        Some(route) => match &late.stops {
            None => Ok(false),
            Some(told) => {
                if late.delay != route.delay {
                    return Ok(false);
                }
                let told = told.as_slice();
                Ok(is_late_order(instance, vehicle, &task, late.delay, told))
            }
        },
    }
}

/// Whether these stops are an order of the passengers that has this delay, which is the least.
fn is_late_order(
    instance: &Instance<'_>,
    vehicle: usize,
    task: &Task,
    delay: u64,
    told: &[PlannedStop],
) -> bool
    requires ids { HasOwnIds instance.now.settled.now }
    requires vehicle { vehicle < length instance.now.settled.now.vehicles }
    requires task { task.now ≡ trip_task instance.now.settled.now vehicle [] }
    requires valid { IsTask (point_count instance.now.times.now) task.now }
    requires least { IsLeast (travel_time instance.now.times.now) task.now delay }
    ensures { IsTrue result ↔ IsLateOrder instance.now.points.now (travel_time instance.now.times.now) instance.now.settled.now vehicle delay told.now }
{
    let Some(order) = told_order(instance, vehicle, &[], task, told) else {
        return false;
    };
    let Some(found) = delay_of(task, instance.times, order.as_slice()) else {
        return false;
    };
    found == delay
}
