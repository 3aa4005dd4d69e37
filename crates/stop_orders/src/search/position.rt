ghost use Rattle.std.specs.Prelude.{◌≡◌, ◌+◌, ◌-◌, ◌^◌, ◌<◌, ◌≤◌, MatchOption, length};
ghost use Rattle.pool_base.specs.Times.{point_count, travel_time};
ghost use Rattle.pool_base.specs.TravelTime.{never, longest};
ghost use Rattle.stop_orders.specs.task.Visit.{place_of, latest_of, boarding_of};
ghost use Rattle.stop_orders.specs.task.Task.{persons};
ghost use Rattle.stop_orders.specs.work.search.Position.{first_position, position_after, CanVisitFrom};

use crate::validity::persons_of;
use crate::{Task, Visit};
use pool_base::Times;

/// Where a vehicle is, from which second on it can leave, and how many of its seats are free.
#[derive(Clone, Copy)]
pub struct Position {
    pub place: usize,
    pub free: u64,
    pub room: u32,
}

/// How many seats the passengers leave free.
pub fn free_seats_of(task: &Task) -> u32
    requires few { length task.now.aboard.items ≤ 10 }
    requires seated { persons task.now.aboard.items ≤ task.now.seats }
    ensures { result ≡ task.now.seats - persons task.now.aboard.items }
{
    task.seats as u32 - persons_of(&task.aboard)
}

/// The position of the task's vehicle before its first stop.
pub(crate) fn first_position_of(task: &Task) -> Position
    requires few { length task.now.aboard.items ≤ 10 }
    requires seated { persons task.now.aboard.items ≤ task.now.seats }
    ensures { result ≡ first_position task.now }
{
    Position {
        place: task.start,
        free: task.ready,
        room: free_seats_of(task),
    }
}

/// The second at which a vehicle that is free to leave one place at `free` is at another one.
pub fn arrival(times: &Times, place: usize, free: u64, to: usize) -> Option<u64>
    requires from { place < point_count times.now }
    requires to { to < point_count times.now }
    requires fits { free < 2 ^ 40 }
    ensures { MatchOption result (travel_time times.now place to ≡ never)
        (λ second. (travel_time times.now place to < never) × (second ≡ free + travel_time times.now place to)
        × (second ≤ free + longest)) }
{
    let seconds = times.get(place, to)?;
    Some(free + seconds as u64)
}

/// The position after a visit; `None` exactly where the visit can't be reached, is late, or finds too few
/// seats.
pub(crate) fn position_after_visit(
    times: &Times,
    dwell: u16,
    position: Position,
    visit: &Visit,
) -> Option<Position>
    requires from { position.place < point_count times.now }
    requires to { place_of visit.now < point_count times.now }
    requires fits { position.free < 2 ^ 40 }
    requires seats { position.room < 2 ^ 31 }
    ensures { MatchOption result (CanVisitFrom (travel_time times.now) position visit.now → ⊥)
        (λ next. CanVisitFrom (travel_time times.now) position visit.now
        × (next ≡ position_after (travel_time times.now) dwell position visit.now)) }
{
    let second = arrival(times, position.place, position.free, visit.place())?;
    if second > visit.latest() || visit.boarding() as u32 > position.room {
        return None;
    }
    Some(Position {
        place: visit.place(),
        free: second + dwell as u64,
        room: visit.room_after(position.room),
    })
}
