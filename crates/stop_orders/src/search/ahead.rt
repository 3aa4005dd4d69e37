ghost use Rattle.std.specs.Prelude.{◌≡◌, ℕ, ◌+◌, ◌-◌, ◌*◌, ◌<◌, ◌≤◌, Bool, MatchOption, IfSome, IfNone};
ghost use Rattle.pool_base.specs.Times.{point_count, travel_time};
ghost use Rattle.pool_base.specs.TravelTime.{never};
ghost use Rattle.stop_orders.specs.work.search.Label.{IsRoutable, IsRoutableLeg, task_riders, task_passengers};
ghost use Rattle.stop_orders.specs.work.search.Ahead.{CanStill, late_at_once, RiderCan, PassengerCan, least_ahead, rider_late, passenger_late};

use crate::search::label::Label;
use crate::search::position::arrival;
use crate::task::leg::Leg;
use crate::task::task::Task;
use pool_base::Times;

/// A lower bound of the delay from a label on, as if the vehicle went to each rider at once; `None` only
/// where not even so someone is served in time.
#[inline(always)]
pub(crate) fn look_ahead(task: &Task, times: &Times, label: &Label) -> Option<u64>
    requires valid { IsRoutable (point_count times.now) task.now }
    requires place { label.now.place < point_count times.now }
    requires free { label.now.free ≤ 30000000000 }
    ensures bound { IfSome result (λ delay. delay ≡ least_ahead (travel_time times.now) task.now label.now) }
    ensures small { IfSome result (λ delay. delay ≤ 1600000000000) }
    ensures none { IfNone result (((i : ℕ) → i < task_riders task.now → RiderCan (travel_time times.now) task.now label.now i)
        → ((j : ℕ) → j < task_passengers task.now → PassengerCan (travel_time times.now) task.now label.now j) → ⊥) }
{
    let mut delay = 0u64;
    for i in 0..task.riders.len() {
        let picked = label.done.is_picked(i);
        let dropped = label.done.is_dropped(i);
        delay += late_if_at_once(times, task.dwell, &task.riders[i], picked, dropped, label)?;
    }
    for j in 0..task.aboard.len() {
        let out = label.done.is_out(j);
        delay += late_if_at_once(times, task.dwell, &task.aboard[j], true, out, label)?;
    }
    Some(delay)
}

/// The delay of one rider where the vehicle goes there at once; `None` exactly where that is too late.
#[inline(always)]
fn late_if_at_once(
    times: &Times,
    dwell: u16,
    leg: &Leg,
    picked: bool,
    dropped: bool,
    label: &Label,
) -> Option<u64>
    requires leg { IsRoutableLeg (point_count times.now) leg.now }
    requires dwell { dwell ≤ 600 }
    requires place { label.now.place < point_count times.now }
    requires free { label.now.free ≤ 30000000000 }
    ensures { MatchOption result (CanStill (travel_time times.now) dwell leg.now picked dropped label.now.place label.now.free → ⊥)
        (λ late. CanStill (travel_time times.now) dwell leg.now picked dropped label.now.place label.now.free
        × (late ≡ late_at_once (travel_time times.now) dwell leg.now picked dropped label.now.place label.now.free)
        × (late ≤ 100000000000)) }
{
    if dropped {
        return Some(0);
    }
    if picked {
        return dropped_at(times, leg, label.place, label.free);
    }
    let pickup = arrival(times, label.place, label.free, leg.origin)?;
    if pickup > leg.latest_pickup {
        return None;
    }
    dropped_at(times, leg, leg.origin, pickup + dwell as u64)
}

/// The delay of a drop-off straight from a place; `None` exactly where it is too late.
#[inline(always)]
fn dropped_at(times: &Times, leg: &Leg, place: usize, free: u64) -> Option<u64>
    requires leg { IsRoutableLeg (point_count times.now) leg.now }
    requires place { place < point_count times.now }
    requires free { free ≤ 40000000000 }
    ensures { MatchOption result
        ((travel_time times.now place leg.now.destination < never) × (free + travel_time times.now place leg.now.destination ≤ leg.now.latest_dropoff) → ⊥)
        (λ late. (travel_time times.now place leg.now.destination < never) × (free + travel_time times.now place leg.now.destination ≤ leg.now.latest_dropoff)
        × (late ≡ free + travel_time times.now place leg.now.destination - leg.now.ideal) × (late ≤ 100000000000)) }
{
    let second = arrival(times, place, free, leg.destination)?;
    if second > leg.latest_dropoff {
        return None;
    }
    Some(second.saturating_sub(leg.ideal))
}
