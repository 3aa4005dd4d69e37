//! A row, while no batch is open.
ghost use Rattle.std.specs.Prelude.{◌≡◌, ◌<◌, ◌∷◌, ◌++◌, [], List, length, IfOk};
ghost use Rattle.dispatch_report.specs.Round.{entry_text};
ghost use Rattle.pool_io.specs.Views.{sink_seen};
ghost use Rattle.dispatch_report.specs.Written.{WritesText};
ghost use Rattle.request_book.specs.Book.{next_position};
ghost use Rattle.request_book.specs.declared.values.journal.Entry.{Entry};
ghost use Rattle.live_dispatch.specs.work.Rows.{start_text};
ghost use Rattle.live_dispatch.specs.work.Standing.{HasTaken, WritesSome, entry_for, row_text};

use dispatch_engine::sealed_by_command;
use dispatch_report::{ReportFault, write_round_start, write_step};
use input_rows::ScriptRow;
use pool_base::OutOfMemory;
use pool_io::Sink;
use request_book::{Book, Command, Entry, Snapshot};

/// Runs a row and writes its line, behind the line of its round where the last row was of another. It gives the batch
/// that the row sealed. `line` is room for a line.
pub(crate) fn run_row<K: Sink>(
    book: &mut Book,
    sink: &mut K,
    line: &mut Vec<u8>,
    last: Option<u32>,
    proof: bool,
    row: ScriptRow,
) -> Result<Option<Snapshot>, ReportFault>
    ensures wrote { WritesSome (sink_seen K.written K.faults sink.old sink.new) (row_text proof last book.old row) result }
    ensures taken { IfOk result (λ sealed. HasTaken book.old row.lane row.command sealed book.new) }
{
    let ScriptRow {
        round,
        lane,
        command,
    } = row;
    match start_round(sink, line, last, round) {
        Ok(()) => run_command(book, sink, line, proof, lane, command),
        Err(fault) => {
            drop(command);
            Err(fault)
        }
    }
}

/// Writes the line of a round, where the last row was of another.
fn start_round<K: Sink>(
    sink: &mut K,
    line: &mut Vec<u8>,
    last: Option<u32>,
    round: u32,
) -> Result<(), ReportFault>
    ensures { WritesSome (sink_seen K.written K.faults sink.old sink.new) (start_text last round) result }
{
    if let Some(number) = last {
        if number == round {
            return Ok(());
        }
    }
    write_round_start(sink, line, round)
}

fn run_command<K: Sink>(
    book: &mut Book,
    sink: &mut K,
    line: &mut Vec<u8>,
    proof: bool,
    lane: u8,
    command: Command,
) -> Result<Option<Snapshot>, ReportFault>
    ensures wrote { WritesSome (sink_seen K.written K.faults sink.old sink.new) (entry_text proof (next_position book.old.first book.old.entries) (entry_for book.old lane command)) result }
    ensures taken { IfOk result (λ sealed. HasTaken book.old lane command sealed book.new) }
{
    let position = book.next_position();
    match sealed_by_command(book, &command) {
        Ok(sealed) => match book.apply(lane, command) {
            Ok(_reply) => match write_last(sink, line, position, book.entries(), proof) {
                Ok(()) => Ok(sealed),
                Err(fault) => {
                    drop(sealed);
                    Err(fault)
                }
            },
            Err(OutOfMemory) => {
                drop(sealed);
                Err(ReportFault::OutOfMemory)
            }
        },
        Err(OutOfMemory) => {
            drop(command);
            Err(ReportFault::OutOfMemory)
        }
    }
}

/// Writes the text of the last entry.
fn write_last<K: Sink>(
    sink: &mut K,
    line: &mut Vec<u8>,
    position: u64,
    entries: &[Entry],
    proof: bool,
) -> Result<(), ReportFault>
    requires { 0 < length entries.now }
    ensures { (before : List Entry) (last : Entry) → entries.now ≡ before ++ last ∷ []
        → WritesText (sink_seen K.written K.faults sink.old sink.new) (entry_text proof position last) result }
{
    let last = &entries[entries.len() - 1];
    write_step(sink, line, position, last, proof)
}
