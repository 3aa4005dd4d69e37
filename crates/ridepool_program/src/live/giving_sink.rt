ghost use Rattle.std.specs.Prelude.{◌≡◌, ◌<◌, ◌≤◌, length, IfOk};
ghost use Rattle.std.specs.Result.{IsErrOf};
ghost use Rattle.std.specs.Io.KnownBytes.{WriteAppends};
ghost use Rattle.pool_io.specs.Faults.{Rose};

use crate::relay::GivingUp;
use pool_io::{Sink, SinkFault};
use std::marker::Model;
use std::sync::Wait;

/// A sink whose bytes pass on to another one unchanged. Where a text can't be written to its end, the wait for more rows is
/// given up.
#[derive(Drop)]
pub(crate) struct GivingSink<K, R> {
    sink: K,
    giving: Option<GivingUp<R>>,
}

impl<K, R> Model for GivingSink<K, R> {
    ghost Value = { K };

    ghost view = { λ s. s.sink };
}

impl<K, R> GivingSink<K, R> {
    pub(crate) fn over(sink: K, giving: Option<GivingUp<R>>) -> GivingSink<K, R>
        ensures { result ≡ sink }
    {
        GivingSink { sink, giving }
    }
}

impl<K: Sink, R: Wait + Copy> Sink for GivingSink<K, R> {
    ghost written = { λ s. K.written s };

    ghost faults = { λ s. K.faults s };

    fn write(&mut self, piece: &[u8]) -> Result<usize, SinkFault> {
        self.sink.write(piece)
    }

    fn stopped(&mut self) {
        self.sink.stopped();
        if let Some(giving) = &self.giving {
            giving.give_up();
        }
    }
}
