ghost use Rattle.std.specs.Prelude.{◌≡◌, ℤ, List};

use std::marker::Model;

/// A multiplier for each rider, in 1/1024 second: a list that is made of a `Vec` and gives it back.
#[derive(Drop)]
pub struct Multipliers {
    values: Vec<i64>,
}

impl Model for Multipliers {
    ghost Value = { List ℤ };

    ghost view = { λ m. m.values.items };
}

impl Multipliers {
    /// These multipliers, one for each rider.
    pub fn of(values: Vec<i64>) -> Self
        ensures { result ≡ values.items }
    {
        Multipliers { values }
    }

    /// The multipliers, rider by rider.
    pub fn as_slice(&self) -> &[i64]
        ensures { result.now ≡ self.now }
    {
        self.values.as_slice()
    }

    /// The multipliers, rider by rider.
    pub fn into_vec(self) -> Vec<i64>
        ensures { result.items ≡ self }
    {
        self.values
    }
}
