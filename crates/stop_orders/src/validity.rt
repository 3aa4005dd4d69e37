ghost use Rattle.std.specs.Prelude.{◌≡◌, ◌<◌, ◌≤◌, ◌↔◌, All, IsTrue, length};
ghost use Rattle.pool_base.specs.TravelTime.{longest};
ghost use Rattle.stop_orders.specs.task.Task.{IsLeg, IsTask, persons};

use crate::{Leg, Task};
use pool_base::Party;

/// Whether the task is one over a table of so many places: its places are below `points`, it is ready at
/// 1,000,000,000 at the latest, its dwell is at most 600, its seats are at most 10 and enough for the
/// passengers, and all limits are at most 4,000,000,000.
pub fn is_valid(task: &Task, points: usize) -> bool
    ensures { IsTrue result ↔ IsTask points task.now }
{
    is_valid_vehicle(task, points)
        && are_legs(&task.aboard, points)
        && are_legs(&task.riders, points)
        && persons_of(&task.aboard) <= task.seats as u32
}

fn is_valid_vehicle(task: &Task, points: usize) -> bool
    ensures { IsTrue result ↔ ((task.now.start < points) × (task.now.ready ≤ longest) × (task.now.dwell ≤ 600)
        × (task.now.seats ≤ 10)) }
{
    task.start < points && task.ready <= 1_000_000_000 && task.dwell <= 600 && task.seats <= 10
}

fn are_legs(legs: &[Leg], points: usize) -> bool
    ensures { IsTrue result ↔ All (IsLeg points) legs.now }
{
    for leg in legs {
        if !is_leg(leg, points) {
            return false;
        }
    }
    true
}

fn is_leg(leg: &Leg, points: usize) -> bool
    ensures { IsTrue result ↔ IsLeg points leg.now }
{
    leg.origin < points
        && leg.destination < points
        && leg.latest_pickup <= 4_000_000_000
        && leg.ideal <= 4_000_000_000
        && leg.latest_dropoff <= 4_000_000_000
        && is_party(leg.party)
}

/// Every party is one.
fn is_party(party: Party) -> bool
    ensures valid { IsTrue result }
    ensures within { (1 ≤ party) × (party ≤ 6) }
{
    party.get() >= 1
}

/// How many persons the legs have together.
pub(crate) fn persons_of(legs: &[Leg]) -> u32
    requires { length legs.now ≤ 10 }
    ensures { result ≡ persons legs.now }
{
    let mut persons = 0u32;
    for leg in legs {
        persons += leg.party.get() as u32;
    }
    persons
}
