ghost use Rattle.std.specs.Prelude.{◌≡◌, ℕ, ◌≤◌, ◌↔◌, IsSome, IfSome};

use std::marker::Model;

/// How many persons ride on one request, from 1 to 6.
#[derive(Clone, Copy, PartialEq, Eq)]
pub struct Party {
    persons: u8,
}

impl Model for Party {
    ghost Value = { ℕ };

    ghost view = { λ party. party.persons };

    ghost invariant = { λ party. (1 ≤ party.persons) × (party.persons ≤ 6) };

    ghost inverse = { λ n. record { persons = n } };
}

impl Party {
    /// A party of one person.
    pub const ONE: Party = Party { persons: 1 };

    /// `None` exactly where the number is not 1 to 6.
    pub fn new(persons: u64) -> Option<Self>
        ensures valid { IsSome result ↔ ((1 ≤ persons) × (persons ≤ 6)) }
        ensures value { IfSome result (λ party. party ≡ persons) }
    {
        if persons >= 1 && persons <= 6 {
            Some(Party {
                persons: persons as u8,
            })
        } else {
            None
        }
    }

    /// How many persons there are.
    pub fn get(self) -> u8
        ensures value { result ≡ self }
        ensures within { (1 ≤ self) × (self ≤ 6) }
    {
        self.persons
    }
}

/// One person.
impl Default for Party {
    ghost is_default = { λ party. party ≡ 1 };

    fn default() -> Self {
        Party::ONE
    }
}
