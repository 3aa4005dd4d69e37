ghost use Rattle.std.specs.Prelude.{◌≡◌, ◌+◌, ◌<◌, ◌≤◌, MatchOption, length};
ghost use Rattle.pool_base.specs.Times.{point_count, travel_time};
ghost use Rattle.pool_base.specs.TravelTime.{never};
ghost use Rattle.stop_orders.specs.task.Order.{IsKnown};
ghost use Rattle.stop_orders.specs.task.Task.{persons, visit_at};
ghost use Rattle.stop_orders.specs.task.Visit.{boarding_of};
ghost use Rattle.stop_orders.specs.declared.task.visit.Visit.TheVariants.{Dropoff};
ghost use Rattle.stop_orders.specs.work.search.Label.{IsRoutable, CanVisit, second_at, label_at, first_label, task_riders, task_passengers};
ghost use Rattle.stop_orders.specs.work.search.Search.{HasNoStop, IsOnlyStop};

use crate::search::position::{arrival, free_seats_of};
use crate::task::done::Done;
use crate::task::leg::Leg;
use crate::task::stop::Stop;
use crate::task::task::Task;
use pool_base::Times;

/// What stops that were made lead to: which are done, where the vehicle is, from which second on it can
/// leave, how many seats are free, and the delay so far.
#[derive(Clone, Copy)]
pub struct Label {
    pub done: Done,
    pub room: u32,
    pub place: usize,
    pub free: u64,
    pub delay: u64,
}

/// The label before the first stop.
pub(crate) fn first_label_of(task: &Task) -> Label
    requires seated { persons task.now.aboard.items ≤ task.now.seats }
    requires few { length task.now.aboard.items ≤ 10 }
    ensures { result ≡ first_label task.now }
{
    Label {
        done: Done::none(),
        place: task.start,
        free: task.ready,
        room: free_seats_of(task),
        delay: 0,
    }
}

/// The next stop of a person, riders first; `None` exactly where the person was dropped.
#[inline(always)]
pub(crate) fn next_stop(task: &Task, label: &Label, person: usize) -> Option<Stop>
    requires riders { task_riders task.now ≤ 6 }
    requires passengers { task_passengers task.now ≤ 10 }
    requires person { person < task_riders task.now + task_passengers task.now }
    ensures { MatchOption result (HasNoStop (task_riders task.now) (task_passengers task.now) label.now.done person)
        (IsOnlyStop (task_riders task.now) (task_passengers task.now) label.now.done person) }
{
    let riders = task.riders.len();
    if person >= riders {
        let passenger = person - riders;
        if label.done.is_out(passenger) {
            return None;
        }
        return Some(Stop::Alight(passenger as u8));
    }
    if label.done.is_dropped(person) {
        return None;
    }
    if label.done.is_picked(person) {
        return Some(Stop::Drop(person as u8));
    }
    Some(Stop::Pick(person as u8))
}

/// The second at which a stop is reached; `None` exactly where it can't be reached, is late, or finds too few seats.
#[inline(always)]
pub(crate) fn second_of(task: &Task, times: &Times, label: &Label, stop: Stop) -> Option<u64>
    requires valid { IsRoutable (point_count times.now) task.now }
    requires known { IsKnown (task_riders task.now) (task_passengers task.now) stop }
    requires place { label.now.place < point_count times.now }
    requires free { label.now.free ≤ 30000000000 }
    ensures { MatchOption result (CanVisit (travel_time times.now) task.now label.now stop → ⊥)
        (λ second. CanVisit (travel_time times.now) task.now label.now stop
        × (second ≡ second_at (travel_time times.now) task.now label.now stop)) }
{
    match stop {
        Stop::Pick(i) => {
            let leg = &task.riders[i as usize];
            if leg.party.get() as u32 > label.room {
                return None;
            }
            second_in_time(times, label, leg.origin, leg.latest_pickup)
        }
        Stop::Drop(i) => {
            let leg = &task.riders[i as usize];
            second_in_time(times, label, leg.destination, leg.latest_dropoff)
        }
        Stop::Alight(j) => {
            let leg = &task.aboard[j as usize];
            second_in_time(times, label, leg.destination, leg.latest_dropoff)
        }
    }
}

/// The second at which a place is reached; `None` exactly where it can't be reached, or is late.
#[inline(always)]
fn second_in_time(times: &Times, label: &Label, place: usize, latest: u64) -> Option<u64>
    requires to { place < point_count times.now }
    requires place { label.now.place < point_count times.now }
    requires free { label.now.free ≤ 30000000000 }
    ensures { MatchOption result
        ((travel_time times.now label.now.place place < never) × (label.now.free + travel_time times.now label.now.place place ≤ latest) → ⊥)
        (λ second. (travel_time times.now label.now.place place < never) × (label.now.free + travel_time times.now label.now.place place ≤ latest)
        × (second ≡ label.now.free + travel_time times.now label.now.place place)) }
{
    let second = arrival(times, label.place, label.free, place)?;
    if second > latest {
        return None;
    }
    Some(second)
}

/// The label after one more stop, which is reached at this second and finds its seats.
#[inline(always)]
pub(crate) fn label_after(task: &Task, label: &Label, stop: Stop, second: u64) -> Label
    requires known { IsKnown (task_riders task.now) (task_passengers task.now) stop }
    requires few { task_riders task.now ≤ 6 }
    requires fewer { task_passengers task.now ≤ 10 }
    requires dwell { task.now.dwell ≤ 600 }
    requires second { second ≤ 40000000000 }
    requires seats { boarding_of (visit_at task.now stop) ≤ label.now.room }
    requires room { label.now.room ≤ 150 }
    requires delay { label.now.delay ≤ 3000000000000 }
    ensures { result ≡ label_at task.now label.now stop second }
{
    match stop {
        Stop::Pick(i) => {
            let leg = &task.riders[i as usize];
            Label {
                done: label.done.with(stop),
                place: leg.origin,
                free: second + task.dwell as u64,
                room: label.room - leg.party.get() as u32,
                delay: label.delay,
            }
        }
        Stop::Drop(i) => label_out(task, label, stop, second, &task.riders[i as usize]),
        Stop::Alight(j) => label_out(task, label, stop, second, &task.aboard[j as usize]),
    }
}

/// The label after the drop-off of this leg, which is reached at this second.
#[inline(always)]
fn label_out(task: &Task, label: &Label, stop: Stop, second: u64, leg: &Leg) -> Label
    requires known { IsKnown (task_riders task.now) (task_passengers task.now) stop }
    requires few { task_riders task.now ≤ 6 }
    requires fewer { task_passengers task.now ≤ 10 }
    requires dwell { task.now.dwell ≤ 600 }
    requires second { second ≤ 40000000000 }
    requires room { label.now.room ≤ 150 }
    requires delay { label.now.delay ≤ 3000000000000 }
    requires dropoff { visit_at task.now stop ≡ Dropoff leg.now.destination leg.now.latest_dropoff leg.now.ideal leg.now.party }
    ensures { result ≡ label_at task.now label.now stop second }
{
    Label {
        done: label.done.with(stop),
        place: leg.destination,
        free: second + task.dwell as u64,
        room: label.room + leg.party.get() as u32,
        delay: label.delay + second.saturating_sub(leg.ideal),
    }
}
