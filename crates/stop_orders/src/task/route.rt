ghost use Rattle.std.specs.Prelude.{◌≡◌, ◌≤◌, length};

use crate::Stop;
use arrayvec::ArrayVec;

/// An order of stops, and its delay in seconds.
#[derive(Drop)]
pub struct Route {
    pub stops: ArrayVec<Stop, 22>,
    pub delay: u64,
}

/// Stops of an order, as a route holds them.
pub fn copy_of_stops(stops: &[Stop]) -> ArrayVec<Stop, 22>
    requires { length stops.now ≤ 22 }
    ensures { result.items ≡ stops.now }
{
    let mut copy = ArrayVec::new();
    for stop in stops {
        copy.push(*stop);
    }
    copy
}
