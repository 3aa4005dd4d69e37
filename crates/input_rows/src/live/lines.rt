//! The lines of a source, one by one.
ghost use Rattle.std.specs.Prelude.{◌≡◌, ◌<◌, ◌≤◌, ◌++◌, true, length, take, slice_index_or, vec_len, IsFalse, IfOk, IfErr, OnOk};
ghost use Rattle.std.specs.Result.{IsErrOf};
ghost use Rattle.std.specs.Io.KnownBytes.{IsAtEnd, Keeps};
ghost use Rattle.pool_io.specs.Faults.{Rose};
ghost use Rattle.input_rows.specs.live.Lines.{TakesLine, ends_line, front_of};
ghost use Rattle.input_rows.specs.work.live.Pieces.{EndsNoLine, TakesPiece};

use pool_io::{Failed, Source};
use std::marker::Model;

/// The most bytes of a row. Of a longer line so many and one more are handed out.
pub(crate) const LONGEST_ROW: usize = 65_536;

/// Why no line came.
#[derive(Clone, Copy)]
pub enum LineFault {
    /// A read of the source failed.
    ReadFault,
    /// There was no memory.
    OutOfMemory,
}

/// The lines of a source, one by one. No more is read than one read of the source gives.
#[derive(Drop)]
pub struct LineStream<S: Source> {
    source: S,
    buffer: [u8; 4096],
    at: usize,
    filled: usize,
    ghost within: { at ≤ filled },
    ghost inside: { filled ≤ 4096 },
}

impl<S: Source> Model for LineStream<S> {
    ghost use Rattle.input_rows.specs.live.Lines.{Streamed, bytes_to_come};

    ghost Value = { Streamed };

    ghost view = { λ s. record { to_come = bytes_to_come (S.left s.source) s.buffer s.at s.filled; faults = S.faults s.source } };
}

impl<S: Source> LineStream<S> {
    /// The lines of this source, from its next byte on.
    pub fn over(source: S) -> LineStream<S>
        ensures faults { result.faults ≡ S.faults source }
        ensures to_come { result.to_come ≡ S.left source }
    {
        LineStream {
            source,
            buffer: [0; 4096],
            at: 0,
            filled: 0,
        }
    }

    /// The source, of which bytes may be lost that were read ahead.
    pub fn into_source(self) -> S
        ensures { S.faults result ≡ self.faults }
    {
        let LineStream { source, .. } = self;
        source
    }

    /// Takes the next line, without its end, and says whether a line feed or a carriage return ended it: else it is the
    /// last. Of a line of more than 65,536 bytes the first 65,537 are given. After a fault nothing is said of the lines
    /// to come.
    pub fn next_line(&mut self, line: &mut Vec<u8>) -> Result<bool, LineFault>
        ensures line { IfOk result (λ ended. TakesLine ended self.old.to_come self.new.to_come line.new.items) }
        ensures fault { IsErrOf result LineFault.ReadFault → Rose self.old.faults self.new.faults }
        ensures never_falls { self.old.faults ≤ self.new.faults }
    {
        line.clear();
        'pieces: for _ in 0..u64::MAX {
            if !self.has_more()? {
                return Ok(false);
            }
            if self.take_piece(line)? {
                return Ok(true);
            }
        }
        Err(LineFault::OutOfMemory)
    }

    /// Whether a byte is at hand, for which it reads where none is.
    fn has_more(&mut self) -> Result<bool, LineFault>
        ensures kept { OnOk result (Keeps self.old.to_come self.new.to_come) }
        ensures ended { IfOk result (λ more. IsFalse more → IsAtEnd self.new.to_come) }
        ensures fault { IsErrOf result LineFault.ReadFault → Rose self.old.faults self.new.faults }
        ensures never_falls { self.old.faults ≤ self.new.faults }
    {
        if self.at < self.filled {
            return Ok(true);
        }
        match self.source.read(&mut self.buffer) {
            Ok(count) => {
                self.at = 0;
                self.filled = count;
                Ok(count > 0)
            }
            Err(Failed) => Err(LineFault::ReadFault),
        }
    }

    /// Takes what the buffer has of the line, with its end if that is in it, and says whether it is.
    fn take_piece(&mut self, line: &mut Vec<u8>) -> Result<bool, LineFault>
        requires { vec_len line.old ≤ 65537 }
        ensures piece { IfOk result (TakesPiece self.old.to_come self.new.to_come line.old.items line.new.items) }
        ensures short { OnOk result (vec_len line.new ≤ 65537) }
        ensures faults { self.new.faults ≡ self.old.faults }
        ensures no_memory { IfErr result (λ fault. fault ≡ LineFault.OutOfMemory) }
    {
        let ahead = &self.buffer[self.at..self.filled];
        let end = line_end(ahead);
        add_front(line, &ahead[..end])?;
        self.at += end;
        if self.at == self.filled {
            return Ok(false);
        }
        self.at += 1;
        Ok(true)
    }
}

/// Where the first line of some bytes ends: at a line feed or a carriage return, or with them.
fn line_end(bytes: &[u8]) -> usize
    ensures before { EndsNoLine (take result bytes.now) }
    ensures within { result ≤ length bytes.now }
    ensures at { result < length bytes.now → ends_line (slice_index_or bytes.now result 0) ≡ true }
{
    for place in 0..bytes.len() {
        if ends_line(bytes[place]) {
            return place;
        }
    }
    bytes.len()
}

fn ends_line(byte: u8) -> bool
    ensures { result ≡ ends_line byte }
{
    byte == b'\n' || byte == b'\r'
}

/// Adds a piece to a line, up to the most bytes of a row and one more.
fn add_front(line: &mut Vec<u8>, piece: &[u8]) -> Result<(), LineFault>
    requires { vec_len line.old ≤ 65537 }
    ensures added { OnOk result (line.new.items ≡ front_of (line.old.items ++ piece.now)) }
    ensures short { OnOk result (vec_len line.new ≤ 65537) }
    ensures no_memory { IfErr result (λ fault. fault ≡ LineFault.OutOfMemory) }
{
    let room = LONGEST_ROW + 1 - line.len();
    let kept = &piece[..room.min(piece.len())];
    match line.extend_from_slice(kept) {
        Ok(()) => Ok(()),
        Err(_) => Err(LineFault::OutOfMemory),
    }
}
