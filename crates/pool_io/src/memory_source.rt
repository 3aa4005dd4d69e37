ghost use Rattle.std.specs.Prelude.{◌≡◌, ℕ, ◌+◌, ◌≤◌, ◌↔◌, [], List, length, drop, min, Option, Some, IfOk, IsErr, OnErr, MatchResult, Contains};
ghost use Rattle.std.specs.Io.KnownBytes.{ReadConsumes};
ghost use Rattle.pool_io.specs.Faults.{Rose, one_more};

use crate::fill::fill_front;
use crate::source::{Failed, Source};
use std::marker::Model;

/// A source in memory that gives short reads and fails as it is told.
#[derive(Drop)]
pub struct MemorySource {
    bytes: Vec<u8>,
    taken: usize,
    most: usize,
    fail: Vec<u64>,
    calls: u64,
    faults: u64,
}

impl Model for MemorySource {
    ghost use Rattle.std.specs.Prelude.{◌≤◌, length, drop};
    ghost use Rattle.pool_io.specs.Source.{Supply};

    ghost Value = { Supply };

    ghost view = { λ s. record {
      left = drop s.taken s.bytes.items;
      taken = s.taken;
      most = s.most;
      fail = s.fail.items;
      calls = s.calls;
      faults = s.faults;
    } };

    ghost invariant = { λ s. (s.taken ≤ length s.bytes.items) × (1 ≤ s.most) };
}

impl MemorySource {
    /// A source of these bytes that gives at most `most` bytes a call; the calls whose number, from 0,
    /// stands in `fail` fail.
    pub fn new(bytes: Vec<u8>, most: usize, fail: Vec<u64>) -> MemorySource
        requires { 1 ≤ most }
        ensures { result ≡ record {
          left = bytes.items;
          taken = 0;
          most = most;
          fail = fail.items;
          calls = 0;
          faults = 0;
        } }
    {
        MemorySource {
            bytes,
            taken: 0,
            most,
            fail,
            calls: 0,
            faults: 0,
        }
    }
}

impl Source for MemorySource {
    ghost left = { λ s. Some s.left };

    ghost taken = { λ s. s.taken };

    ghost faults = { λ s. s.faults };

    fn read(&mut self, buffer: &mut [u8]) -> Result<usize, Failed>
        ensures within { IfOk result (λ n. n ≤ length buffer.new) }
        ensures bytes { ReadConsumes (Some self.old.left) (Some self.new.left) result buffer.new }
        ensures counted { MatchResult result
            (λ n. self.new.taken ≡ self.old.taken + n) (λ _. self.new.taken ≡ self.old.taken) }
        ensures fault { OnErr result (Rose self.old.faults self.new.faults) }
        ensures never_falls { self.old.faults ≤ self.new.faults }
        ensures planned { IsErr result ↔ Contains self.old.fail self.old.calls }
        ensures count { IfOk result
            (λ n. n ≡ min self.old.most (min (length buffer.new) (length self.old.left))) }
        ensures after { MatchResult result
            (λ n. self.new ≡ record self.old {
              left = drop n self.old.left;
              taken = self.old.taken + n;
              calls = one_more self.old.calls;
            })
            (λ _. self.new ≡ record self.old {
              calls = one_more self.old.calls;
              faults = one_more self.old.faults;
            }) }
    {
        let call = self.calls;
        self.calls = call.saturating_add(1);
        if self.fail.contains(&call) {
            self.faults = self.faults.saturating_add(1);
            return Err(Failed);
        }
        let count = fill_front(&self.bytes[self.taken..], self.most, buffer);
        self.taken += count;
        Ok(count)
    }
}
