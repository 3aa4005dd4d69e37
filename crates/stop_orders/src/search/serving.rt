ghost use Rattle.std.specs.Prelude.{◌≡◌, ◌+◌, ◌^◌, ◌<◌, ◌≤◌, ◌↔◌, IsTrue, MatchOption, length, take, slice_index};
ghost use Rattle.pool_base.specs.Times.{point_count, travel_time};
ghost use Rattle.pool_base.specs.TravelTime.{never, longest};
ghost use Rattle.stop_orders.specs.task.Order.{IsKnown};
ghost use Rattle.stop_orders.specs.task.Task.{IsTask, IsOrderOf, ReachesAll, Serves, visit_at, seconds_of, order_delay};

use crate::search::position::{arrival, first_position_of, position_after_visit};
use crate::{Stop, Task, Visit, is_order};
use pool_base::Times;

/// What the clock and the seats see of a stop of the task.
pub fn visit_of(task: &Task, stop: Stop) -> Visit
    requires { IsKnown (length task.now.riders.items) (length task.now.aboard.items) stop }
    ensures { result ≡ visit_at task.now stop }
{
    match stop {
        Stop::Pick(i) => {
            let leg = task.riders[i as usize];
            Visit::Pickup {
                place: leg.origin,
                latest: leg.latest_pickup,
                party: leg.party,
            }
        }
        Stop::Drop(i) => {
            let leg = task.riders[i as usize];
            Visit::Dropoff {
                place: leg.destination,
                latest: leg.latest_dropoff,
                ideal: leg.ideal,
                party: leg.party,
            }
        }
        Stop::Alight(j) => {
            let leg = task.aboard[j as usize];
            Visit::Dropoff {
                place: leg.destination,
                latest: leg.latest_dropoff,
                ideal: leg.ideal,
                party: leg.party,
            }
        }
    }
}

/// The second of the k-th stop of an order, counted from 0; `None` exactly where a place up to it can't
/// be reached.
pub fn stop_second(task: &Task, times: &Times, stops: &[Stop], k: usize) -> Option<u64>
    requires valid { IsTask (point_count times.now) task.now }
    requires order { IsOrderOf task.now stops.now }
    requires within { k < length stops.now }
    ensures { MatchOption result (ReachesAll (travel_time times.now) task.now (take (k + 1) stops.now) → ⊥)
        (λ second. ReachesAll (travel_time times.now) task.now (take (k + 1) stops.now)
        × (second ≡ slice_index (seconds_of (travel_time times.now) task.now stops.now) k)) }
{
    let mut place = task.start;
    let mut free = task.ready;
    for stop in &stops[..k] {
        let to = visit_of(task, *stop).place();
        let second = arrival(times, place, free, to)?;
        place = to;
        free = second + task.dwell as u64;
    }
    arrival(times, place, free, visit_of(task, stops[k]).place())
}

/// Whether the stops are an order that serves the task: all its places can be reached, each stop is in
/// time, and each party finds free seats. `false` also where the stops are no order.
pub fn serves(task: &Task, times: &Times, stops: &[Stop]) -> bool
    requires valid { IsTask (point_count times.now) task.now }
    ensures { IsTrue result ↔ Serves (travel_time times.now) task.now stops.now }
{
    if !is_order(task, stops) {
        return false;
    }
    let mut position = first_position_of(task);
    for stop in stops {
        let visit = visit_of(task, *stop);
        let Some(next) = position_after_visit(times, task.dwell, position, &visit) else {
            return false;
        };
        position = next;
    }
    true
}

/// The delay of an order: the sum, over its drop-offs, of the seconds after the ideal one. `None` exactly
/// where some place can't be reached.
pub fn delay_of(task: &Task, times: &Times, stops: &[Stop]) -> Option<u64>
    requires valid { IsTask (point_count times.now) task.now }
    requires order { IsOrderOf task.now stops.now }
    ensures { MatchOption result (ReachesAll (travel_time times.now) task.now stops.now → ⊥)
        (λ delay. ReachesAll (travel_time times.now) task.now stops.now
        × (delay ≡ order_delay (travel_time times.now) task.now stops.now)) }
{
    let mut place = task.start;
    let mut free = task.ready;
    let mut delay = 0u64;
    for stop in stops {
        let visit = visit_of(task, *stop);
        let to = visit.place();
        let second = arrival(times, place, free, to)?;
        delay += visit.lateness(second);
        place = to;
        free = second + task.dwell as u64;
    }
    Some(delay)
}
