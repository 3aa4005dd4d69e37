ghost use Rattle.std.specs.Prelude.{◌≡◌, ◌≢◌, ℕ, ◌<◌, ◌≤◌, List, length, None, IfOk};
ghost use Rattle.std.specs.Result.{IsErrOf};
ghost use Rattle.std.specs.Io.KnownBytes.{WriteAppends};
ghost use Rattle.pool_io.specs.Faults.{Rose};

use crate::sink::{Sink, SinkFault};
use std::io::Write;
use std::marker::Model;

/// A sink over one of std's writers.
///
/// It tells nothing of the bytes written. A write is one call of the writer's `write`, and fails where that
/// fails or takes nothing. Nothing waits in the sink: what it took, the writer took.
#[derive(Drop)]
pub struct StdSink<W> {
    writer: W,
    faults: u64,
}

impl<W> Model for StdSink<W> {
    ghost use Rattle.std.specs.Prelude.{ℕ};

    ghost Value = { ℕ };

    ghost view = { λ s. s.faults };
}

impl<W> StdSink<W> {
    /// A sink over this writer.
    pub fn over(writer: W) -> StdSink<W>
        ensures { result ≡ 0 }
    {
        StdSink { writer, faults: 0 }
    }
}

impl<W: Write> Sink for StdSink<W> {
    ghost written = { λ _. None };

    ghost faults = { λ s. s };

    fn write(&mut self, piece: &[u8]) -> Result<usize, SinkFault>
        ensures within { IfOk result (λ n. n ≤ length piece.now) }
        ensures some { 0 < length piece.now → IfOk result (λ n. 0 < n) }
        ensures bytes { WriteAppends None None result piece.now }
        ensures fault { IsErrOf result SinkFault.Failed → Rose self.old self.new }
        ensures never_falls { self.old ≤ self.new }
        ensures no_memory { ¬ (IsErrOf result SinkFault.OutOfMemory) }
    {
        if piece.is_empty() {
            return Ok(0);
        }
        if let Ok(count) = self.writer.write(piece) {
            if count > 0 {
                return Ok(count);
            }
        }
        self.faults = self.faults.saturating_add(1);
        Err(SinkFault::Failed)
    }
}
