//! An entry of a report.
ghost use Rattle.std.specs.Prelude.{◌≡◌, ◌≢◌, ◌↔◌, ◌<◌, ℕ, List, IfOk, IsTrue, MatchOption, MatchResult, None, OnOk};
ghost use Rattle.report_audit.specs.declared.block.refusal.BlockRefusal.TheVariants.{OutOfMemory as NoMemory};
ghost use Rattle.dispatch_engine.specs.lanes.Lane.{last_sealed};
ghost use Rattle.dispatch_engine.specs.lanes.Progress.{progress_at};
ghost use Rattle.dispatch_engine.specs.lanes.Run.{journal_of};
ghost use Rattle.dispatch_report.specs.Entry.{entry_line};
ghost use Rattle.dispatch_report.specs.Fits.{IsCommand, IsReply, TellsEnd};
ghost use Rattle.report_audit.specs.report.Fault.{IsWrongBlock};
ghost use Rattle.report_audit.specs.report.Place.{Extent, MayFollow};
ghost use Rattle.report_audit.specs.work.report.Standing.{EntryRead, IsFaultAt, IsOtherLine, IsWithin, TakesCommand};
ghost use Rattle.report_audit.specs.lines.Line.{IsFirstLine};
ghost use Rattle.report_audit.specs.lines.Next.{IsNextLine};
ghost use Rattle.request_book.specs.Book.{IsApplied, next_position};
ghost use Rattle.request_book.specs.values.Command.{IsNoClose};
ghost use Rattle.request_book.specs.declared.values.reply.Reply.{Reply as OneReply};
ghost use Rattle.input_rows.specs.script.Round.{IsRound};

use crate::block::refusal::BlockRefusal;
use crate::lines::next::NextLine;
use crate::report::close::audit_close;
use crate::report::context::AuditContext;
use crate::report::fault::{AuditFault, block_fault};
use crate::report::line::{Between, is_entry_line, line_at, line_between, wrong_line};
use dispatch_engine::{Progress, sealed_by_command};
use input_rows::Round;
use pool_base::OutOfMemory;
use request_book::{Book, Command, Entry, Reply, Snapshot};
use shared_work::Gate;
use std::alloc::Global;
use std::thread::Threads;

/// The entry with whose line the rest of a report begins, and behind a close the block of its batch: it is taken into the
/// book, and what follows it is the answer.
pub(crate) fn audit_entry<'a, G: Gate>(
    rt: &(impl Threads + Sync),
    book: &mut Book,
    lanes: &mut Progress,
    sealed: &mut Option<Snapshot>,
    round: &Round,
    text: &'a [u8],
    context: &AuditContext<'_, G>,
) -> Result<&'a [u8], AuditFault>
    requires { IsWithin context.now.settings.now context.now.network.now round.now book.old lanes.old sealed.old }
    ensures { MatchResult result (λ rest. EntryRead context.entry.now.settings.now context.entry.now.network.now round.entry.now book.old book.new lanes.new sealed.new text.entry.now rest.now)
        (IsFaultAt context.entry.now.settings.now context.entry.now.network.now context.entry.now.report.now (Extent.within round.entry.now (journal_of book.old)) text.entry.now) }
{
    let between = line_between(context.report, text)?;
    match take_entry(rt, book, lanes, sealed, round, between, context) {
        Ok(Some(rest)) => Ok(rest),
        Ok(None) => Err(wrong_line(context.report, text)),
        Err(refusal) => Err(block_fault(line_at(context.report, text), refusal)),
    }
}

/// The same by the first line. `None` where it isn't that of an entry which may come next.
fn take_entry<'a, G: Gate>(
    rt: &(impl Threads + Sync),
    book: &mut Book,
    lanes: &mut Progress,
    sealed: &mut Option<Snapshot>,
    round: &Round,
    between: Between<'a>,
    context: &AuditContext<'_, G>,
) -> Result<Option<&'a [u8]>, BlockRefusal>
    requires within { IsWithin context.now.settings.now context.now.network.now round.now book.old lanes.old sealed.old }
    requires form { IsNextLine between.next between.line.now }
    ensures { MatchResult result
        (λ found. MatchOption found (MayFollow context.entry.now.settings.now context.entry.now.network.now (Extent.within round.entry.now (journal_of book.old)) between.entry.line.now → ⊥)
        (λ rest. (text : List ℕ) → IsFirstLine text between.entry.line.now between.entry.after.now
        → EntryRead context.entry.now.settings.now context.entry.now.network.now round.entry.now book.old book.new lanes.new sealed.new text rest.now))
        (λ refusal. refusal ≢ NoMemory → (text : List ℕ) → IsFirstLine text between.entry.line.now between.entry.after.now
        → IsWrongBlock context.entry.now.settings.now context.entry.now.network.now round.entry.now (journal_of book.old) text refusal) }
{
    let NextLine::Entry { lane } = between.next else {
        return Ok(None);
    };
    if lane >= 16 {
        return Ok(None);
    }
    let place = usize::from(lane);
    match lanes.progress_of(place).pending {
        None => match audit_command(context.alloc, book, lanes, round, lane, between.line)? {
            Some((reply, next)) => {
                lanes.take(round, place, reply);
                put_up(sealed, next);
                Ok(Some(between.after))
            }
            None => Ok(None),
        },
        Some(_batch) => {
            let Some(snapshot) = sealed.take() else {
                unreachable!()
            };
            let closed = audit_close(rt, book, &snapshot, lane, between, context);
            drop(snapshot);
            match closed {
                Ok(Some(rest)) => {
                    lanes.take(round, place, Reply::Closed);
                    Ok(Some(rest))
                }
                Ok(None) => Ok(None),
                Err(refusal) => Err(refusal),
            }
        }
    }
}

/// An entry of a lane that waits for no close, by its line: the reply, and the batch that the command puts up. `None` where
/// the line isn't that of the lane's next command and of the book's reply.
fn audit_command(
    alloc: Global,
    book: &mut Book,
    lanes: &Progress,
    round: &Round,
    lane: u8,
    line: &[u8],
) -> Result<Option<(Reply, Option<Snapshot>)>, OutOfMemory>
    requires lane { lane < 16 }
    requires kept { IsRound round.now }
    requires going { (progress_at lanes.now lane).pending ≡ None }
    ensures { IfOk result (λ found. MatchOption found (IsOtherLine round.entry.now lanes.entry.now book.old lane line.entry.now)
        (λ r. TakesCommand round.entry.now lanes.entry.now book.old lane line.entry.now book.new r.1 r.0)) }
{
    let Some(command) = lanes.command(round, usize::from(lane)) else {
        return Ok(None);
    };
    let sealed = sealed_by_command(book, command)?;
    match answered(alloc, book, lane, command, line) {
        Ok(Some(reply)) => Ok(Some((reply, sealed))),
        Ok(None) => {
            drop(sealed);
            Ok(None)
        }
        Err(fault) => {
            drop(sealed);
            Err(fault)
        }
    }
}

/// Answers a command, and says the reply where the line is that of the entry which this makes.
fn answered(
    alloc: Global,
    book: &mut Book,
    lane: u8,
    command: &Command,
    line: &[u8],
) -> Result<Option<Reply>, OutOfMemory>
    requires { IsNoClose command.now }
    ensures { IfOk result (λ told. (reply : OneReply) × IsApplied book.old lane command.entry.now reply book.new
        × MatchOption told (line.entry.now ≢ entry_line (next_position book.old.first book.old.entries) (record { lane = lane; command = command.entry.now; reply = reply }))
        (λ r. (r ≡ reply) × IsCommand command.entry.now × IsReply r × (line.entry.now ≡ entry_line (next_position book.old.first book.old.entries) (record { lane = lane; command = command.entry.now; reply = reply })))) }
{
    let position = book.next_position();
    let reply = book.apply(lane, command.copied())?;
    if is_line_of(alloc, line, position, lane, command, &reply)? {
        Ok(Some(reply))
    } else {
        Ok(None)
    }
}

/// Whether the line is that of an entry at its position with this command and reply.
fn is_line_of(
    alloc: Global,
    line: &[u8],
    position: u64,
    lane: u8,
    command: &Command,
    reply: &Reply,
) -> Result<bool, OutOfMemory>
    requires { IsNoClose command.now }
    ensures line { IfOk result (λ yes. IsTrue yes ↔ (line.now ≡ entry_line position (record { lane = lane; command = command.now; reply = reply.now }))) }
    ensures command { OnOk result (IsCommand command.now) }
    ensures reply { OnOk result (TellsEnd reply.now → IsReply reply.now) }
{
    let entry = Entry {
        lane,
        command: command.copied(),
        reply: *reply,
    };
    let told = is_entry_line(alloc, line, position, &entry);
    drop(entry);
    told
}

/// Puts up the batch of a command, if it has one.
fn put_up(sealed: &mut Option<Snapshot>, next: Option<Snapshot>)
    ensures { sealed.new ≡ last_sealed sealed.old next }
{
    if next.is_some() {
        *sealed = next;
    }
}
