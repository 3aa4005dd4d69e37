ghost use Rattle.std.specs.Prelude.{◌≡◌, ℕ, ◌+◌, ◌≤◌, List, length, drop, min, Some, IsOk, IfOk, OnErr, MatchResult};
ghost use Rattle.std.specs.Io.KnownBytes.{ReadConsumes};
ghost use Rattle.pool_io.specs.Faults.{Rose};

use crate::fill::fill_front;
use crate::source::{Failed, Source};
use std::marker::Model;

/// A source in memory that never fails.
#[derive(Drop)]
pub struct PlainSource {
    bytes: Vec<u8>,
    taken: usize,
}

impl Model for PlainSource {
    ghost use Rattle.std.specs.Prelude.{◌≤◌, length, drop};
    ghost use Rattle.pool_io.specs.Source.{Unread};

    ghost Value = { Unread };

    ghost view = { λ s. record { left = drop s.taken s.bytes.items; taken = s.taken } };

    ghost invariant = { λ s. s.taken ≤ length s.bytes.items };
}

impl PlainSource {
    /// A source of these bytes.
    pub fn new(bytes: Vec<u8>) -> PlainSource
        ensures { result ≡ record { left = bytes.items; taken = 0 } }
    {
        PlainSource { bytes, taken: 0 }
    }
}

impl Source for PlainSource {
    ghost left = { λ s. Some s.left };

    ghost taken = { λ s. s.taken };

    ghost faults = { λ _. 0 };

    fn read(&mut self, buffer: &mut [u8]) -> Result<usize, Failed>
        ensures within { IfOk result (λ n. n ≤ length buffer.new) }
        ensures bytes { ReadConsumes (Some self.old.left) (Some self.new.left) result buffer.new }
        ensures counted { MatchResult result
            (λ n. self.new.taken ≡ self.old.taken + n) (λ _. self.new.taken ≡ self.old.taken) }
        ensures fault { OnErr result (Rose 0 0) }
        ensures never_falls { 0 ≤ 0 }
        ensures never { IsOk result }
        ensures count { IfOk result (λ n. n ≡ min (length buffer.new) (length self.old.left)) }
    {
        let count = fill_front(&self.bytes[self.taken..], buffer.len(), buffer);
        self.taken += count;
        Ok(count)
    }
}
