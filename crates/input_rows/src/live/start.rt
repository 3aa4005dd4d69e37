//! The header of a script that is read line by line.
ghost use Rattle.std.specs.Prelude.{◌≡◌, ◌≤◌, IfOk};
ghost use Rattle.std.specs.Result.{IsErrOf};
ghost use Rattle.pool_io.specs.Faults.{Rose};
ghost use Rattle.pool_io.specs.Table.{table_of};
ghost use Rattle.input_rows.specs.script.Word.{header_of};
ghost use Rattle.input_rows.specs.declared.script.version.ScriptVersion.TheVariants.{Two};
ghost use Rattle.input_rows.specs.declared.live.start.HeaderFault.{HeaderFault};
ghost use Rattle.input_rows.specs.live.Start.{HasNoHeader, HasStarted, other_start, start_of};

use crate::live::lines::{LONGEST_ROW, LineFault, LineStream};
use crate::script::version::ScriptVersion;
use pool_io::{RowFault, Source, rows};
use std::alloc::Global;

/// Why the first line of a script that isn't empty is no header.
#[derive(Clone, Copy)]
pub enum HeaderFault {
    /// It is another line, of so many fields; 0 where there is no such line.
    Other { fields: u64 },
    /// It has more than 65,536 bytes.
    TooLong,
}

/// Why a script doesn't start.
#[derive(Clone, Copy)]
pub enum StartFault {
    /// It has no header.
    Header(HeaderFault),
    /// A read of the source failed.
    ReadFault,
    /// There was no memory.
    OutOfMemory,
}

/// What a line is at the start of a script.
#[derive(Clone, Copy)]
pub(crate) enum Start {
    Empty,
    Header(ScriptVersion),
    NoHeader(HeaderFault),
}

/// Reads lines up to the header, and says which it is.
pub fn read_start<S: Source>(
    alloc: Global,
    lines: &mut LineStream<S>,
) -> Result<ScriptVersion, StartFault>
    ensures started { IfOk result (HasStarted lines.old.to_come lines.new.to_come) }
    ensures headless { (fault : HeaderFault) → IsErrOf result (StartFault.Header fault) → HasNoHeader lines.old.to_come fault }
    ensures fault { IsErrOf result StartFault.ReadFault → Rose lines.old.faults lines.new.faults }
    ensures never_falls { lines.old.faults ≤ lines.new.faults }
{
    let mut line = Vec::new(alloc);
    'lines: for _ in 0..u64::MAX {
        match lines.next_line(&mut line) {
            Ok(ended) => match start_of(alloc, &line) {
                Ok(Start::Header(version)) => return Ok(version),
                Ok(Start::NoHeader(fault)) => return Err(StartFault::Header(fault)),
                Ok(Start::Empty) => {
                    if !ended {
                        return Err(StartFault::Header(HeaderFault::Other { fields: 0 }));
                    }
                }
                Err(_) => return Err(StartFault::OutOfMemory),
            },
            Err(LineFault::ReadFault) => return Err(StartFault::ReadFault),
            Err(LineFault::OutOfMemory) => return Err(StartFault::OutOfMemory),
        }
    }
    Err(StartFault::OutOfMemory)
}

fn start_of(alloc: Global, line: &[u8]) -> Result<Start, LineFault>
    ensures { IfOk result (λ start. start ≡ start_of line.now) }
{
    if line.is_empty() {
        return Ok(Start::Empty);
    }
    if line.len() > LONGEST_ROW {
        return Ok(Start::NoHeader(HeaderFault::TooLong));
    }
    match rows(alloc, line, ScriptVersion::One.header()) {
        Ok(table) => {
            drop(table);
            Ok(Start::Header(ScriptVersion::One))
        }
        Err(RowFault::Header { .. }) => other_start_of(alloc, line),
        Err(RowFault::UnequalLength { .. }) => other_start_of(alloc, line),
        Err(RowFault::OutOfMemory) => Err(LineFault::OutOfMemory),
    }
}

/// A line that isn't the first version's header.
fn other_start_of(alloc: Global, line: &[u8]) -> Result<Start, LineFault>
    ensures { IfOk result (λ start. start ≡ other_start (table_of (header_of Two) line.now)) }
{
    match rows(alloc, line, ScriptVersion::Two.header()) {
        Ok(table) => {
            drop(table);
            Ok(Start::Header(ScriptVersion::Two))
        }
        Err(RowFault::Header { fields }) => {
            if fields == 0 {
                return Ok(Start::Empty);
            }
            Ok(Start::NoHeader(HeaderFault::Other { fields }))
        }
        Err(RowFault::UnequalLength { .. }) => {
            Ok(Start::NoHeader(HeaderFault::Other { fields: 0 }))
        }
        Err(RowFault::OutOfMemory) => Err(LineFault::OutOfMemory),
    }
}
