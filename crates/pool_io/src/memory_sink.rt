ghost use Rattle.std.specs.Prelude.{◌≡◌, ℕ, ◌<◌, ◌≤◌, ◌↔◌, ◌++◌, [], List, length, take, min, Some, IfOk, Contains};
ghost use Rattle.std.specs.Result.{IsErrOf};
ghost use Rattle.std.specs.Io.KnownBytes.{WriteAppends};
ghost use Rattle.pool_io.specs.Faults.{Rose, one_more};

use crate::sink::{Sink, SinkFault};
use std::alloc::Global;
use std::marker::Model;

/// A sink in memory that takes short writes and fails as it is told.
#[derive(Drop)]
pub struct MemorySink {
    written: Vec<u8>,
    most: usize,
    fail: Vec<u64>,
    calls: u64,
    faults: u64,
}

impl Model for MemorySink {
    ghost use Rattle.std.specs.Prelude.{◌≤◌};
    ghost use Rattle.pool_io.specs.Sink.{Outlet};

    ghost Value = { Outlet };

    ghost view = { λ s. record {
      written = s.written.items;
      most = s.most;
      fail = s.fail.items;
      calls = s.calls;
      faults = s.faults;
    } };

    ghost invariant = { λ s. 1 ≤ s.most };
}

impl MemorySink {
    /// A sink that takes at most `most` bytes a write; the writes whose number, from 0, stands in `fail`
    /// fail. It keeps the allocator.
    pub fn new(alloc: Global, most: usize, fail: Vec<u64>) -> MemorySink
        requires { 1 ≤ most }
        ensures { result ≡ record { written = []; most = most; fail = fail.items; calls = 0; faults = 0 } }
    {
        MemorySink {
            written: Vec::new(alloc),
            most,
            fail,
            calls: 0,
            faults: 0,
        }
    }

    /// The bytes written so far.
    pub fn written(&self) -> &[u8]
        ensures { result.now ≡ self.now.written }
    {
        self.written.as_slice()
    }
}

impl Sink for MemorySink {
    ghost written = { λ s. Some s.written };

    ghost faults = { λ s. s.faults };

    fn write(&mut self, piece: &[u8]) -> Result<usize, SinkFault>
        ensures within { IfOk result (λ n. n ≤ length piece.now) }
        ensures some { 0 < length piece.now → IfOk result (λ n. 0 < n) }
        ensures bytes { WriteAppends (Some self.old.written) (Some self.new.written) result piece.now }
        ensures fault { IsErrOf result SinkFault.Failed → Rose self.old.faults self.new.faults }
        ensures never_falls { self.old.faults ≤ self.new.faults }
        ensures planned { IsErrOf result SinkFault.Failed ↔ Contains self.old.fail self.old.calls }
        ensures took { IfOk result (λ n. self.new ≡ record self.old {
          written = self.old.written ++ take (min self.old.most (length piece.now)) piece.now;
          calls = one_more self.old.calls;
        }) }
        ensures failed { IsErrOf result SinkFault.Failed
            → self.new ≡ record self.old { calls = one_more self.old.calls; faults = one_more self.old.faults } }
        ensures no_memory { IsErrOf result SinkFault.OutOfMemory
            → self.new ≡ record self.old { calls = one_more self.old.calls } }
    {
        let call = self.calls;
        self.calls = call.saturating_add(1);
        if self.fail.contains(&call) {
            self.faults = self.faults.saturating_add(1);
            return Err(SinkFault::Failed);
        }
        let count = self.most.min(piece.len());
        if self.written.extend_from_slice(&piece[..count]).is_err() {
            return Err(SinkFault::OutOfMemory);
        }
        Ok(count)
    }
}
