ghost use Rattle.std.specs.Prelude.{◌≡◌};

use pool_base::Party;

/// One rider's way, from place to place, and its limits. Places are indexes of a table of travel times.
#[derive(Clone, Copy)]
pub struct Leg {
    pub origin: usize,
    pub destination: usize,
    /// The last second at which the rider may be picked up.
    pub latest_pickup: u64,
    /// The second from which on an arrival counts as delayed.
    pub ideal: u64,
    /// The last second at which the rider may be dropped off.
    pub latest_dropoff: u64,
    /// How many persons ride.
    pub party: Party,
}

/// A leg of one person from place 0 to itself, whose limits are all 0.
impl Default for Leg {
    ghost is_default = { λ leg. leg ≡ record { origin = 0; destination = 0; latest_pickup = 0; ideal = 0; latest_dropoff = 0; party = 1 } };

    fn default() -> Leg {
        Leg {
            origin: 0,
            destination: 0,
            latest_pickup: 0,
            ideal: 0,
            latest_dropoff: 0,
            party: Party::ONE,
        }
    }
}
