ghost use Rattle.std.specs.Prelude.{◌≡◌, ◌==◌, ℕ, ℤ, List, length};

use std::marker::Model;

/// Where idle vehicles go: a matching, its total, and the potentials that show that it is best.
#[derive(Drop)]
pub struct Moves {
    /// Indexes into the idle vehicles and the riders left out, by rising vehicle.
    pub pairs: Pairs,
    /// The sum of the pairs' seconds.
    pub total: u64,
    /// One potential for each idle vehicle, at most 0.
    pub from: Potentials,
    /// One potential for each rider left out, at most 0.
    pub to: Potentials,
}

/// Pairs of indexes into two lists.
#[derive(Drop)]
pub struct Pairs {
    items: Vec<(usize, usize)>,
}

impl Model for Pairs {
    ghost Value = { List (ℕ × ℕ) };

    ghost view = { λ pairs. pairs.items.items };
}

impl Pairs {
    /// These pairs.
    pub fn of(items: Vec<(usize, usize)>) -> Pairs
        ensures { result ≡ items.items }
    {
        Pairs { items }
    }

    /// The pairs in their order.
    pub fn into_vec(self) -> Vec<(usize, usize)>
        ensures { result.items ≡ self }
    {
        self.items
    }

    /// The pairs in their order.
    pub fn as_slice(&self) -> &[(usize, usize)]
        ensures { result.now ≡ self.now }
    {
        self.items.as_slice()
    }

    /// How many pairs there are.
    pub fn len(&self) -> usize
        ensures { result ≡ length self.now }
    {
        self.items.len()
    }

    /// Whether there is no pair.
    pub fn is_empty(&self) -> bool
        ensures { result ≡ (length self.now == 0) }
    {
        self.items.is_empty()
    }
}

/// Potentials of the places of a list, in its order.
#[derive(Drop)]
pub struct Potentials {
    items: Vec<i64>,
}

impl Model for Potentials {
    ghost Value = { List ℤ };

    ghost view = { λ potentials. potentials.items.items };
}

impl Potentials {
    /// These potentials, one for each place.
    pub fn of(items: Vec<i64>) -> Potentials
        ensures { result ≡ items.items }
    {
        Potentials { items }
    }

    /// The potentials, place by place.
    pub fn into_vec(self) -> Vec<i64>
        ensures { result.items ≡ self }
    {
        self.items
    }

    /// The potentials, place by place.
    pub fn as_slice(&self) -> &[i64]
        ensures { result.now ≡ self.now }
    {
        self.items.as_slice()
    }

    /// How many potentials there are.
    pub fn len(&self) -> usize
        ensures { result ≡ length self.now }
    {
        self.items.len()
    }

    /// Whether there is no potential.
    pub fn is_empty(&self) -> bool
        ensures { result ≡ (length self.now == 0) }
    {
        self.items.is_empty()
    }
}
