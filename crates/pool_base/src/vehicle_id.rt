ghost use Rattle.std.specs.Prelude.{◌≡◌, ℕ, ◌≤◌, ◌↔◌, IsSome, IfSome};

use std::marker::Model;

/// The name of a vehicle, from 0 to 1,000,000,000.
#[derive(Clone, Copy, PartialEq, Eq, Hash)]
pub struct VehicleId {
    number: u32,
}

impl Model for VehicleId {
    ghost Value = { ℕ };

    ghost view = { λ id. id.number };

    ghost invariant = { λ id. id.number ≤ 1000000000 };

    ghost inverse = { λ n. record { number = n } };
}

impl VehicleId {
    /// `None` exactly where the number is above 1,000,000,000.
    pub fn new(number: u64) -> Option<Self>
        ensures valid { IsSome result ↔ (number ≤ 1000000000) }
        ensures value { IfSome result (λ id. id ≡ number) }
    {
        if number <= 1_000_000_000 {
            Some(VehicleId {
                number: number as u32,
            })
        } else {
            None
        }
    }

    /// The number of the id.
    pub fn get(self) -> u32
        ensures value { result ≡ self }
        ensures within { self ≤ 1000000000 }
    {
        self.number
    }
}

impl Default for VehicleId {
    ghost is_default = { λ id. id ≡ 0 };

    fn default() -> Self {
        VehicleId { number: 0 }
    }
}
