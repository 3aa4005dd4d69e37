//! How much work may be done.

/// Work that may still be done, in numbers gone through: so a graph alone decides where work ends, and no clock does.
#[derive(Clone, Copy)]
pub struct Allowance {
    pub rest: u64,
}

impl Allowance {
    /// Takes so many numbers away, as far as they are left.
    #[inline]
    pub fn spend(&mut self, numbers: u64) {
        self.rest = self.rest.saturating_sub(numbers);
    }

    /// So many hundredths of it, for one part of the work or for each of some that go side by side.
    pub fn share(self, hundredths: u64) -> Self {
        Allowance {
            rest: (self.rest / 100).saturating_mul(hundredths),
        }
    }

    /// Takes away what was done of a share, of which this is left.
    pub fn settle(&mut self, share: Allowance, left: Allowance) {
        self.spend(share.rest.saturating_sub(left.rest));
    }
}
