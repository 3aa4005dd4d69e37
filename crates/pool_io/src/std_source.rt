ghost use Rattle.std.specs.Prelude.{◌≡◌, ℕ, ◌+◌, ◌≤◌, List, length, None, true, false, IfOk, IsErr, OnErr, MatchResult};
ghost use Rattle.std.specs.Io.KnownBytes.{ReadConsumes};
ghost use Rattle.pool_io.specs.Faults.{Rose, one_more};

use crate::source::{Failed, Source};
use std::io::Read;
use std::marker::Model;

/// A source over one of std's readers, or over none.
///
/// It tells nothing of the bytes to come. A read fails where the reader's fails, where there is no
/// reader, and where so many bytes have come that a `u64` could not count those of the next read.
#[derive(Drop)]
pub struct StdSource<R> {
    reader: Option<R>,
    taken: u64,
    faults: u64,
}

impl<R> Model for StdSource<R> {
    ghost use Rattle.std.specs.Prelude.{is_none};
    ghost use Rattle.pool_io.specs.StdSource.{ReaderState};

    ghost Value = { ReaderState };

    ghost view = { λ s. record { missing = is_none s.reader; taken = s.taken; faults = s.faults } };
}

impl<R> StdSource<R> {
    /// A source over this reader.
    pub fn over(reader: R) -> StdSource<R>
        ensures { result ≡ record { missing = false; taken = 0; faults = 0 } }
    {
        StdSource {
            reader: Some(reader),
            taken: 0,
            faults: 0,
        }
    }

    /// A source without a reader: every read fails.
    pub fn missing() -> StdSource<R>
        ensures { result ≡ record { missing = true; taken = 0; faults = 0 } }
    {
        StdSource {
            reader: None,
            taken: 0,
            faults: 0,
        }
    }
}

impl<R: Read> Source for StdSource<R> {
    ghost left = { λ _. None };

    ghost taken = { λ s. s.taken };

    ghost faults = { λ s. s.faults };

    fn read(&mut self, buffer: &mut [u8]) -> Result<usize, Failed>
        ensures within { IfOk result (λ n. n ≤ length buffer.new) }
        ensures bytes { ReadConsumes None None result buffer.new }
        ensures counted { MatchResult result
            (λ n. self.new.taken ≡ self.old.taken + n) (λ _. self.new.taken ≡ self.old.taken) }
        ensures fault { OnErr result (Rose self.old.faults self.new.faults) }
        ensures never_falls { self.old.faults ≤ self.new.faults }
        ensures missing { self.old.missing ≡ true → IsErr result }
        ensures stays { self.new.missing ≡ self.old.missing }
    {
        if let Some(reader) = &mut self.reader {
            if buffer.len() as u64 <= u64::MAX - self.taken {
                if let Ok(count) = reader.read(buffer) {
                    self.taken += count as u64;
                    return Ok(count);
                }
            }
        }
        self.faults = self.faults.saturating_add(1);
        Err(Failed)
    }
}
