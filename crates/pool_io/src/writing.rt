ghost use Rattle.std.specs.Prelude.{◌≡◌, ◌≤◌, OnOk, OnErr};
ghost use Rattle.std.specs.Result.{IsErrOf};
ghost use Rattle.std.specs.Io.KnownBytes.{Appends};
ghost use Rattle.pool_io.specs.Faults.{Rose};
ghost use Rattle.pool_io.specs.Sink.{AppendsPart};

use crate::sink::{Sink, SinkFault};

/// Why not all bytes were written.
#[derive(Clone, Copy)]
pub enum WriteAll {
    /// A write of the sink failed.
    WriteFault,
    /// The sink wanted memory.
    OutOfMemory,
}

/// Writes all the bytes, in as many writes as the sink asks for. The call itself takes no memory.
///
/// After either fault a part of the bytes was appended, from their front and not the whole.
pub fn write_all<K: Sink>(sink: &mut K, bytes: &[u8]) -> Result<(), WriteAll>
    ensures whole { OnOk result (Appends (K.written sink.old) (K.written sink.new) bytes.now) }
    ensures part { OnErr result (AppendsPart (K.written sink.old) (K.written sink.new) bytes.now) }
    ensures fault { IsErrOf result WriteAll.WriteFault → Rose (K.faults sink.old) (K.faults sink.new) }
    ensures never_falls { K.faults sink.old ≤ K.faults sink.new }
{
    let mut done = 0;
    'writes: while done < bytes.len() {
        match sink.write(&bytes[done..]) {
            Ok(count) => done += count,
            Err(SinkFault::Failed) => return Err(WriteAll::WriteFault),
            Err(SinkFault::OutOfMemory) => return Err(WriteAll::OutOfMemory),
        }
    }
    Ok(())
}
