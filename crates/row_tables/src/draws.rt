//! Drawn numbers, always the same.

use rand_xoshiro::Xoshiro256PlusPlus;
use rand_xoshiro::rand_core::{Rng, SeedableRng};

/// A source of drawn numbers.
#[derive(Drop)]
pub struct Draws {
    source: Xoshiro256PlusPlus,
}

impl Draws {
    /// Numbers drawn from this seed.
    pub fn new(seed: u64) -> Self {
        Draws {
            source: Xoshiro256PlusPlus::seed_from_u64(seed),
        }
    }

    /// A number below `most`, 0 where that is 0.
    #[inline]
    pub fn below(&mut self, most: usize) -> usize {
        let high = self.source.next_u64() >> 32;
        (high.wrapping_mul(most as u64) >> 32) as usize
    }
}
