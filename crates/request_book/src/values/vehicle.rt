ghost use Rattle.std.specs.Prelude.{◌≡◌, ◌↔◌, IsTrue};

use crate::values::passenger::Passenger;
use arrayvec::ArrayVec;
use pool_base::{NodeId, Second, VehicleId};

/// A vehicle where it was last reported, with its passengers in the order in which they got in.
///
/// The passengers lie in place, with room for ten, so one more takes no memory.
#[derive(Drop, PartialEq, Eq)]
pub struct Vehicle {
    pub id: VehicleId,
    pub seats: u8,
    pub node: NodeId,
    pub time: Second,
    pub aboard: ArrayVec<Passenger, 10>,
}

impl Vehicle {
    /// An equal vehicle. It takes no memory.
    pub fn copied(&self) -> Vehicle
        ensures { result ≡ self.now }
    {
        Vehicle {
            id: self.id,
            seats: self.seats,
            node: self.node,
            time: self.time,
            aboard: copied_passengers(&self.aboard),
        }
    }
}

fn copied_passengers(passengers: &ArrayVec<Passenger, 10>) -> ArrayVec<Passenger, 10>
    ensures { result ≡ passengers.now }
{
    let mut copy = ArrayVec::new();
    for passenger in passengers.as_slice() {
        copy.push(*passenger);
    }
    copy
}
