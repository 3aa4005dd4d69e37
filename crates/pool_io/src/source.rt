ghost use Rattle.std.specs.Prelude.{◌≡◌, ℕ, ◌+◌, ◌≤◌, List, length, Option, IfOk, OnErr, MatchResult};
ghost use Rattle.std.specs.Io.KnownBytes.{ReadConsumes};
ghost use Rattle.pool_io.specs.Faults.{Rose};

/// The answer of a read that failed.
#[derive(Clone, Copy)]
pub struct Failed;

/// What bytes are read from.
///
/// `left` is the bytes still to come, where the source tells them: a file tells nothing. `taken` is how
/// many bytes reads have given so far. `faults` is how many reads have failed; it never falls, and
/// stands still at the greatest `u64`.
pub trait Source {
    ghost left: { Self → Option (List ℕ) };

    ghost taken: { Self → ℕ };

    ghost faults: { Self → ℕ };

    /// Moves the next bytes into the front of the buffer, and answers how many. None come only at the
    /// end, or where the buffer is empty. `Failed` comes only where the count of faults rose, and then
    /// no byte is gone.
    fn read(&mut self, buffer: &mut [u8]) -> Result<usize, Failed>
        ensures within { IfOk result (λ n. n ≤ length buffer.new) }
        ensures bytes { ReadConsumes (left self.old) (left self.new) result buffer.new }
        ensures counted { MatchResult result
            (λ n. taken self.new ≡ taken self.old + n) (λ _. taken self.new ≡ taken self.old) }
        ensures fault { OnErr result (Rose (faults self.old) (faults self.new)) }
        ensures never_falls { faults self.old ≤ faults self.new };
}
