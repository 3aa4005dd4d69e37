//! A line as the one row of a script.
ghost use Rattle.std.specs.Prelude.{◌≡◌, ◌++◌, ◌∷◌, Ok, IfOk, IfErr, OnOk};
ghost use Rattle.input_rows.specs.script.Word.{columns_of, header_of};
ghost use Rattle.input_rows.specs.live.Rows.{judged, table_judged};
ghost use Rattle.pool_io.specs.Table.{table_of};

use crate::live::lines::{LONGEST_ROW, LineFault};
use crate::script::fault::ScriptFault;
use crate::script::reading::read_row;
use crate::script::script_row::ScriptRow;
use crate::script::version::ScriptVersion;
use pool_base::{OutOfMemory, put_bytes};
use pool_io::{RowFault, Rows, rows};
use std::alloc::Global;

/// Why a row is refused.
#[derive(Clone, Copy)]
pub enum RowRefusal {
    /// It has more than 65,536 bytes.
    TooLong,
    /// It has another number of fields than the header.
    UnequalLength,
    /// It breaks a rule of scripts, as row 1.
    Own(ScriptFault),
}

/// What a line is.
#[derive(Drop)]
pub enum Judged {
    /// No row.
    Empty,
    Accepted(ScriptRow),
    Refused(RowRefusal),
}

/// Judges a line behind a row of round `last`. `text` is room for it; what it holds is lost.
pub(crate) fn judge_row(
    alloc: Global,
    text: &mut Vec<u8>,
    line: &[u8],
    version: ScriptVersion,
    last: u32,
) -> Result<Judged, LineFault>
    ensures judged { IfOk result (λ j. j ≡ judged version last line.now) }
    ensures no_memory { IfErr result (λ fault. fault ≡ LineFault.OutOfMemory) }
{
    if line.is_empty() {
        return Ok(Judged::Empty);
    }
    if line.len() > LONGEST_ROW {
        return Ok(Judged::Refused(RowRefusal::TooLong));
    }
    match put_under_header(text, line, version) {
        Ok(()) => judge_text(alloc, text, version, last),
        Err(OutOfMemory) => Err(LineFault::OutOfMemory),
    }
}

/// Makes the text of a script of this one line.
fn put_under_header(
    text: &mut Vec<u8>,
    line: &[u8],
    version: ScriptVersion,
) -> Result<(), OutOfMemory>
    ensures { OnOk result (text.new.items ≡ header_of version ++ 10 ∷ line.now) }
{
    text.clear();
    put_bytes(text, version.header())?;
    put_bytes(text, b"\n")?;
    put_bytes(text, line)
}

/// Judges the text of a script of one line.
fn judge_text(
    alloc: Global,
    text: &[u8],
    version: ScriptVersion,
    last: u32,
) -> Result<Judged, LineFault>
    ensures judged { IfOk result (λ j. j ≡ table_judged version last (table_of (header_of version) text.now)) }
    ensures no_memory { IfErr result (λ fault. fault ≡ LineFault.OutOfMemory) }
{
    match rows(alloc, text, version.header()) {
        Ok(table) => {
            let judged = judge_table(&table, version, last);
            drop(table);
            Ok(judged)
        }
        Err(RowFault::Header { .. }) => Ok(Judged::Refused(RowRefusal::UnequalLength)),
        Err(RowFault::UnequalLength { .. }) => Ok(Judged::Refused(RowRefusal::UnequalLength)),
        Err(RowFault::OutOfMemory) => Err(LineFault::OutOfMemory),
    }
}

fn judge_table(table: &Rows, version: ScriptVersion, last: u32) -> Judged
    requires { table.now.columns ≡ columns_of version }
    ensures { result ≡ table_judged version last (Ok table.now) }
{
    if table.is_empty() {
        return Judged::Empty;
    }
    if table.len() > 1 {
        return Judged::Refused(RowRefusal::UnequalLength);
    }
    match read_row(table, version, last) {
        Ok(row) => Judged::Accepted(row),
        Err(fault) => Judged::Refused(RowRefusal::Own(fault)),
    }
}
