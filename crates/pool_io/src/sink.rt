ghost use Rattle.std.specs.Prelude.{◌≡◌, ℕ, ◌<◌, ◌≤◌, List, length, Option, IfOk};
ghost use Rattle.std.specs.Result.{IsErrOf};
ghost use Rattle.std.specs.Io.KnownBytes.{WriteAppends};
ghost use Rattle.pool_io.specs.Faults.{Rose};

/// Why a write took nothing.
#[derive(Clone, Copy)]
pub enum SinkFault {
    /// The write failed.
    Failed,
    /// There was no memory for the bytes.
    OutOfMemory,
}

/// What bytes are written to.
///
/// `written` is the bytes written so far, where the sink tells them: a file tells nothing. `faults` is
/// how many writes have failed; it never falls, and stands still at the greatest `u64`.
pub trait Sink {
    ghost written: { Self → Option (List ℕ) };

    ghost faults: { Self → ℕ };

    /// Appends some bytes from the front of the piece, and answers how many: at least one, unless the
    /// piece is empty. `Failed` comes only where the count of faults rose. After either fault nothing
    /// is appended.
    fn write(&mut self, piece: &[u8]) -> Result<usize, SinkFault>
        ensures within { IfOk result (λ n. n ≤ length piece.now) }
        ensures some { 0 < length piece.now → IfOk result (λ n. 0 < n) }
        ensures bytes { WriteAppends (written self.old) (written self.new) result piece.now }
        ensures fault { IsErrOf result SinkFault.Failed → Rose (faults self.old) (faults self.new) }
        ensures never_falls { faults self.old ≤ faults self.new };

    /// Hears that a text can't be written to its end, after a failed write or for want of memory. Nothing changes that
    /// the sink tells.
    fn stopped(&mut self)
        ensures written { written self.new ≡ written self.old }
        ensures faults { faults self.new ≡ faults self.old }
    {}
}
