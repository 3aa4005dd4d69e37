ghost use Rattle.std.specs.Prelude.{◌<◌, IfOk, length};
ghost use Rattle.pool_base.specs.Times.{travel_time};
ghost use Rattle.dispatch_engine.specs.outcome.Instance.{HasSoundLimits};
ghost use Rattle.dispatch_engine.specs.outcome.Trips.{IsLate, AreLate};

use crate::outcome::instance::Instance;
use crate::outcome::told::tell_stops;
use pool_base::OutOfMemory;
use request_book::LateVehicle;
use std::alloc::Global;
use stop_orders::{least_delay_unlimited, task_of};

/// The vehicles whose passengers can't all be dropped in time, each with an order of least delay.
pub(crate) fn late_lines(
    alloc: Global,
    instance: &Instance<'_>,
) -> Result<Vec<LateVehicle>, OutOfMemory>
    requires { HasSoundLimits instance.now }
    ensures { IfOk result (λ late. AreLate instance.now.points.now (travel_time instance.now.times.now) instance.now.settled.now late.items) }
{
    let vehicles = instance.settled.vehicles.as_slice();
    let mut lines = Vec::new(alloc);
    for vehicle in 0..vehicles.len() {
        if !vehicles[vehicle].late {
            continue;
        }
        let line = late_line(alloc, instance, vehicle)?;
        lines.push(line)?;
    }
    Ok(lines)
}

/// A late vehicle with an order of least delay; without one where some place can't be reached.
fn late_line(
    alloc: Global,
    instance: &Instance<'_>,
    vehicle: usize,
) -> Result<LateVehicle, OutOfMemory>
    requires sound { HasSoundLimits instance.now }
    requires vehicle { vehicle < length instance.now.settled.now.vehicles }
    ensures { IfOk result (IsLate instance.now.points.now (travel_time instance.now.times.now) instance.now.settled.now vehicle) }
{
    let id = instance.settled.vehicles.as_slice()[vehicle].id;
    let task = task_of(instance.settled, vehicle, &[]);
    match least_delay_unlimited(alloc, &task, instance.times)? {
        None => Ok(LateVehicle {
            vehicle: id,
            delay: 0,
            stops: None,
        }),
        Some(route) => {
            let order = route.stops.as_slice();
            let stops = tell_stops::<10>(instance, vehicle, &[], &task, order);
            Ok(LateVehicle {
                vehicle: id,
                delay: route.delay,
                stops: Some(stops),
            })
        }
    }
}
