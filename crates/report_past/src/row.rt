//! An entry of a row.
ghost use Rattle.std.specs.Prelude.{◌≡◌, ◌<◌, ◌↔◌, IfOk, IsTrue, None, true, false};
ghost use Rattle.dispatch_engine.specs.lanes.Lane.{last_sealed};
ghost use Rattle.dispatch_report.specs.Entry.{entry_line};
ghost use Rattle.input_rows.specs.script.Round.{MayStand};
ghost use Rattle.report_past.specs.work.Taking.{IsNextRow, TakesRow};
ghost use Rattle.request_book.specs.Book.{IsApplied, next_position};
ghost use Rattle.request_book.specs.values.Command.{IsNoClose};
ghost use Rattle.request_book.specs.declared.values.journal.Entry.{Entry as OneEntry};
ghost use Rattle.request_book.specs.declared.values.reply.Reply.{Reply as OneReply};
ghost use Rattle.request_book.specs.register.Step.{step};

use dispatch_engine::sealed_by_command;
use pool_base::OutOfMemory;
use report_audit::{is_entry_line, read_command};
use request_book::{Book, Command, Entry, Snapshot};
use std::alloc::Global;

/// Takes the row whose entry has this line into the book: whether it is one that may come, and the book prints the line.
pub(crate) fn take_row(
    alloc: Global,
    book: &mut Book,
    open: &mut Option<Snapshot>,
    line: &[u8],
) -> Result<bool, OutOfMemory>
    ensures row { IfOk result (λ taken. IsTrue taken → TakesRow book.old book.new open.old open.new line.now) }
    ensures none { IfOk result (λ taken. taken ≡ false → (e : OneEntry) → IsNextRow book.old open.old line.now e → ⊥) }
{
    let Some((lane, command)) = read_command(line) else {
        return Ok(false);
    };
    if !may_come(lane, &command, open.is_some()) {
        return Ok(false);
    }
    let sealed = sealed_by_command(book, &command)?;
    match answered(alloc, book, lane, &command, line) {
        Ok(true) => {
            put_up(open, sealed);
            Ok(true)
        }
        Ok(false) => {
            drop(sealed);
            Ok(false)
        }
        Err(fault) => {
            drop(sealed);
            Err(fault)
        }
    }
}

/// Whether a row's command may come in a lane: a seal in lane 0 alone, and nothing in lane 0 while a batch is open.
fn may_come(lane: u8, command: &Command, is_open: bool) -> bool
    ensures { IsTrue result ↔ ((lane < 16) × MayStand lane command.now × (lane ≡ 0 → is_open ≡ false)) }
{
    may_stand(lane, command) && (lane != 0 || !is_open)
}

/// Whether a row's command may stand in a lane.
fn may_stand(lane: u8, command: &Command) -> bool
    ensures { IsTrue result ↔ ((lane < 16) × MayStand lane command.now) }
{
    match command {
        Command::Seal { .. } => lane == 0,
        Command::Close { .. } => false,
        _ => lane < 16,
    }
}

/// Answers a command, and says whether the line is that of the entry which this makes.
fn answered(
    alloc: Global,
    book: &mut Book,
    lane: u8,
    command: &Command,
    line: &[u8],
) -> Result<bool, OutOfMemory>
    requires { IsNoClose command.now }
    ensures told { IfOk result (λ told. IsTrue told → (reply : OneReply) × IsApplied book.old lane command.entry.now reply book.new
        × (line.entry.now ≡ entry_line (next_position book.old.first book.old.entries) (record { lane = lane; command = command.entry.now; reply = reply }))) }
    ensures untold { IfOk result (λ told. told ≡ false → line.entry.now ≡ entry_line (next_position book.old.first book.old.entries)
        (record { lane = lane; command = command.entry.now; reply = (step book.old.nodes book.old.wait book.old.state command.entry.now).1 }) → ⊥) }
{
    let position = book.next_position();
    let reply = book.apply(lane, command.copied())?;
    let entry = Entry {
        lane,
        command: command.copied(),
        reply,
    };
    let told = is_entry_line(alloc, line, position, &entry);
    drop(entry);
    told
}

/// Puts up the batch of a command, if it has one.
fn put_up(open: &mut Option<Snapshot>, next: Option<Snapshot>)
    ensures { open.new ≡ last_sealed open.old next }
{
    if next.is_some() {
        *open = next;
    }
}
