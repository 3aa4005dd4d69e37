ghost use Rattle.std.specs.Prelude.{◌≡◌, ◌<◌};

use road_network::Hop;
use std::marker::Model;

/// A hop in 8 bytes, where `Hop` takes 16.
#[derive(Clone, Copy)]
pub struct ShortHop {
    to: u32,
    seconds: u32,
}

impl Model for ShortHop {
    ghost use Rattle.road_network.specs.declared.hop.Hop.{Hop};

    ghost Value = { Hop };

    ghost view = { λ a. record { to = a.to; seconds = a.seconds } };

    ghost inverse = { λ hop. record { to = hop.to; seconds = hop.seconds } };
}

impl ShortHop {
    /// A hop to one of at most 100,000 nodes.
    pub fn of(hop: Hop) -> ShortHop
        requires { hop.to < 100000 }
        ensures { result ≡ hop }
    {
        ShortHop {
            to: hop.to as u32,
            seconds: hop.seconds,
        }
    }

    /// The index of the node where it ends.
    #[inline]
    pub fn to(self) -> usize
        ensures { result ≡ self.to }
    {
        self.to as usize
    }

    /// The seconds that the hop takes.
    #[inline]
    pub fn seconds(self) -> u32
        ensures { result ≡ self.seconds }
    {
        self.seconds
    }
}
