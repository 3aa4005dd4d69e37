ghost use Rattle.std.specs.Prelude.{◌≡◌, ℕ, List, Option};

use std::marker::Model;

/// A row for each vehicle, by its number: a list that is made of a `Vec` and gives it back.
#[derive(Drop)]
pub struct Plan {
    chosen: Vec<Option<u32>>,
}

impl Model for Plan {
    ghost Value = { List (Option ℕ) };

    ghost view = { λ p. p.chosen.items };
}

impl Plan {
    /// The plan with these rows, one for each vehicle or none.
    pub fn of(chosen: Vec<Option<u32>>) -> Self
        ensures { result ≡ chosen.items }
    {
        Plan { chosen }
    }

    /// The row of each vehicle, or none.
    pub fn chosen(&self) -> &[Option<u32>]
        ensures { result.now ≡ self.now }
    {
        self.chosen.as_slice()
    }

    /// The row of each vehicle, or none.
    pub fn into_chosen(self) -> Vec<Option<u32>>
        ensures { result.items ≡ self }
    {
        self.chosen
    }
}
