ghost use Rattle.std.specs.Prelude.{◌≡◌, ◌<◌, ◌≤◌, length, IfOk};
ghost use Rattle.std.specs.Result.{IsErrOf};
ghost use Rattle.std.specs.Io.KnownBytes.{WriteAppends};
ghost use Rattle.pool_io.specs.Faults.{Rose};

use crate::progress::Progress;
use pool_io::{Sink, SinkFault};
use std::alloc::Global;
use std::io::Write;
use std::marker::Model;

/// Back to the line's front, and what stands there away.
pub(crate) const CLEAR: &[u8] = b"\r\x1b[K";

/// A sink whose bytes pass on to another one unchanged, and a line on a terminal that says how far the run is
/// whose report or summary they are.
///
/// The line comes when a piece of whole lines is written, from the lines before the first round on; the next
/// write takes it away. A terminal that fails, and want of memory for the line, change nothing else.
#[derive(Drop)]
pub(crate) struct WatchedSink<K, W> {
    sink: K,
    alloc: Global,
    terminal: Option<W>,
    progress: Progress,
    is_shown: bool,
}

impl<K, W> Model for WatchedSink<K, W> {
    ghost Value = { K };

    ghost view = { λ s. s.sink };
}

impl<K, W> WatchedSink<K, W> {
    /// Watches a sink. Without a terminal nothing is shown. It keeps the allocator.
    pub(crate) fn over(alloc: Global, sink: K, terminal: Option<W>) -> WatchedSink<K, W>
        ensures { result ≡ sink }
    {
        WatchedSink {
            sink,
            alloc,
            terminal,
            progress: Progress::new(),
            is_shown: false,
        }
    }
}

impl<K, W: Write> WatchedSink<K, W> {
    /// Takes the line away, if one stands.
    pub(crate) fn clear(&mut self)
        ensures { self.new ≡ self.old }
    {
        if !self.is_shown {
            return;
        }
        if let Some(terminal) = &mut self.terminal {
            let _ = terminal.write_all(CLEAR);
        }
        self.is_shown = false;
    }

    /// Reads what was written, and shows the line where that ends with a whole line.
    fn watch(&mut self, bytes: &[u8])
        ensures { self.new ≡ self.old }
    {
        let Some(terminal) = &mut self.terminal else {
            return;
        };
        self.progress.read(bytes);
        if !self.progress.runs || bytes.last() != Some(&b'\n') {
            return;
        }
        if let Ok(text) = self.progress.text(self.alloc) {
            let _ = terminal.write_all(text.as_bytes());
            self.is_shown = true;
        }
    }
}

impl<K: Sink, W: Write> Sink for WatchedSink<K, W> {
    ghost written = { λ s. K.written s };

    ghost faults = { λ s. K.faults s };

    fn write(&mut self, piece: &[u8]) -> Result<usize, SinkFault> {
        self.clear();
        let count = self.sink.write(piece)?;
        self.watch(&piece[..count]);
        Ok(count)
    }

    fn stopped(&mut self) {
        self.sink.stopped();
    }
}
