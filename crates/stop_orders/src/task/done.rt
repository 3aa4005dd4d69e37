ghost use Rattle.std.specs.Prelude.{◌≡◌, ℕ, ◌+◌, ◌<◌, ◌≤◌, ◌↔◌, true, IsTrue};
ghost use Rattle.stop_orders.specs.task.Order.{IsKnown};
ghost use Rattle.stop_orders.specs.task.Done.{has, with_bit, with_stop, IsNextStop, IsAllDone};
ghost use Rattle.stop_orders.specs.work.task.Rest.{stop_with};

use crate::Stop;
use std::marker::Model;

/// A set of stops that are done, a bit each: of up to 6 riders and 10 passengers.
#[derive(Clone, Copy, PartialEq, Eq)]
pub struct Done {
    bits: u32,
}

impl Model for Done {
    ghost use Rattle.std.specs.Prelude.{ℕ};

    ghost Value = { ℕ };

    ghost view = { λ done. done.bits };

    ghost inverse = { λ n. record { bits = n } };
}

impl Done {
    /// No stop.
    pub fn none() -> Done
        ensures { result ≡ 0 }
    {
        Done { bits: 0 }
    }

    /// Whether the pickup of this rider is done.
    pub fn is_picked(self, rider: usize) -> bool
        requires { rider < 6 }
        ensures { result ≡ has self rider }
    {
        self.has(rider)
    }

    /// Whether the drop-off of this rider is done.
    pub fn is_dropped(self, rider: usize) -> bool
        requires { rider < 6 }
        ensures { result ≡ has self (6 + rider) }
    {
        self.has(6 + rider)
    }

    /// Whether this passenger got out.
    pub fn is_out(self, passenger: usize) -> bool
        requires { passenger < 10 }
        ensures { result ≡ has self (12 + passenger) }
    {
        self.has(12 + passenger)
    }

    fn has(self, bit: usize) -> bool
        requires { bit < 32 }
        ensures { result ≡ has self bit }
    {
        (self.bits >> bit) & 1 == 1
    }

    /// The set with one more stop.
    pub fn with(self, stop: Stop) -> Done
        requires { IsKnown 6 10 stop }
        ensures { result ≡ with_stop self stop }
    {
        match stop {
            Stop::Pick(i) => self.with_bit(i as usize),
            Stop::Drop(i) => self.with_bit(6 + i as usize),
            Stop::Alight(j) => self.with_bit(12 + j as usize),
        }
    }

    fn with_bit(self, bit: usize) -> Done
        requires { bit < 32 }
        ensures { result ≡ with_bit self bit }
    {
        Done {
            bits: self.bits | (1 << bit),
        }
    }

    /// A number that spreads the sets, for tables of them.
    pub fn hash(self) -> u32 {
        self.bits.wrapping_mul(2_654_435_761) >> 8
    }

    /// Whether the stop is one of so many riders and passengers and may come next.
    pub fn is_next(self, riders: usize, passengers: usize, stop: Stop) -> bool
        requires riders { riders ≤ 6 }
        requires passengers { passengers ≤ 10 }
        ensures { IsTrue result ↔ IsNextStop riders passengers self stop }
    {
        match stop {
            Stop::Pick(i) => {
                let i = i as usize;
                i < riders && !self.is_picked(i) && !self.is_dropped(i)
            }
            Stop::Drop(i) => {
                let i = i as usize;
                i < riders && self.is_picked(i) && !self.is_dropped(i)
            }
            Stop::Alight(j) => {
                let j = j as usize;
                j < passengers && !self.is_out(j)
            }
        }
    }

    /// Whether everyone was dropped, of so many riders and passengers.
    pub fn is_all(self, riders: usize, passengers: usize) -> bool
        requires riders { riders ≤ 6 }
        requires passengers { passengers ≤ 10 }
        ensures { IsTrue result ↔ IsAllDone riders passengers self }
    {
        self.all_dropped(riders) && self.all_out(passengers)
    }

    fn all_dropped(self, riders: usize) -> bool
        requires { riders ≤ 6 }
        ensures { IsTrue result ↔ ((i : ℕ) → i < riders → has self (6 + i) ≡ true) }
    {
        for i in 0..riders {
            if !self.is_dropped(i) {
                return false;
            }
        }
        true
    }

    fn all_out(self, passengers: usize) -> bool
        requires { passengers ≤ 10 }
        ensures { IsTrue result ↔ ((j : ℕ) → j < passengers → has self (12 + j) ≡ true) }
    {
        for j in 0..passengers {
            if !self.is_out(j) {
                return false;
            }
        }
        true
    }
}

/// The stop with this bit: riders' pickups from 0, their drop-offs from 6, passengers from 12.
pub(crate) fn stop_of(bit: u8) -> Stop
    ensures { result ≡ stop_with bit }
{
    if bit < 6 {
        Stop::Pick(bit)
    } else if bit < 12 {
        Stop::Drop(bit - 6)
    } else {
        Stop::Alight(bit - 12)
    }
}
