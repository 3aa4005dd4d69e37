//! The close of the batch that is open, and its block.
ghost use Rattle.std.specs.Prelude.{◌≡◌, ◌≢◌, All, Contains, IfErr, IfOk, IsTrue, MatchOption, ◌↔◌};
ghost use Rattle.dispatch_report.specs.Entry.{entry_line};
ghost use Rattle.report_audit.specs.declared.block.refusal.BlockRefusal.TheVariants.{OutOfMemory as NoMemory};
ghost use Rattle.report_past.specs.work.Taking.{EntersClose, HasNoBlock, IsNoClosing, TakesClose, TellsBlock};
ghost use Rattle.request_book.specs.Points.{named_nodes};
ghost use Rattle.request_book.specs.declared.values.command.Command.TheVariants.{Close as Closes};
ghost use Rattle.request_book.specs.declared.values.reply.Reply.TheVariants.{Closed as IsClosed};
ghost use Rattle.request_book.specs.declared.values.outcome.Outcome.{Outcome as OneOutcome};

use crate::context::PastContext;
use pool_base::{OutOfMemory, Sequence};
use report_audit::{AuditedBlock, BlockRefusal, audit_block, is_entry_line, read_outcome};
use request_book::{
    Answer, Book, Command, Entry, Notice, Outcome, Reply, Snapshot, notices_of_close,
};
use shared_work::Gate;
use std::alloc::Global;
use std::thread::Threads;
use travel_times::NetworkWays;

/// The close of this batch, by its line and what follows it: it is taken into the book, its notices are put in place of
/// the last, and what follows its block is the answer. `None` where the line isn't the close's.
pub(crate) fn take_close<'a, G: Gate>(
    rt: &(impl Threads + Sync),
    book: &mut Book,
    notices: &mut Vec<Notice>,
    snapshot: &Snapshot,
    line: &[u8],
    after: &'a [u8],
    context: &PastContext<'_, G>,
) -> Result<Option<&'a [u8]>, BlockRefusal>
    requires { All (λ node. Contains context.now.network.now.nodes node) (named_nodes snapshot.now) }
    ensures close { IfOk result (λ found. MatchOption found (IsNoClosing book.old snapshot.entry.now line.entry.now) (λ rest.
        TakesClose context.entry.now.settings.now context.entry.now.network.now context.entry.now.judge book.old book.new snapshot.entry.now line.entry.now after.entry.now rest.now notices.new.items)) }
    ensures none { IfErr result (λ refusal. refusal ≢ NoMemory → HasNoBlock context.entry.now.settings.now context.entry.now.network.now snapshot.entry.now after.entry.now) }
{
    let position = book.next_position();
    if !is_close_line(context.alloc, line, position, snapshot.batch)? {
        return Ok(None);
    }
    match read_block(rt, after, snapshot, context) {
        Ok(block) => {
            let rest = block.rest;
            *notices = enter_close(context.alloc, book, snapshot.batch, block.outcome)?;
            Ok(Some(rest))
        }
        Err(refusal) => Err(refusal),
    }
}

/// The block of this batch, which is judged where the caller wants it.
fn read_block<'a, G: Gate>(
    rt: &(impl Threads + Sync),
    text: &'a [u8],
    snapshot: &Snapshot,
    context: &PastContext<'_, G>,
) -> Result<AuditedBlock<'a>, BlockRefusal>
    requires { All (λ node. Contains context.now.network.now.nodes node) (named_nodes snapshot.now) }
    ensures block { IfOk result (λ block. TellsBlock context.entry.now.settings.now context.entry.now.network.now context.entry.now.judge snapshot.entry.now text.entry.now block.outcome block.rest.now) }
    ensures none { IfErr result (λ refusal. refusal ≢ NoMemory → HasNoBlock context.entry.now.settings.now context.entry.now.network.now snapshot.entry.now text.entry.now) }
{
    if !context.judge {
        return read_outcome(context.alloc, text, snapshot);
    }
    let ways = NetworkWays {
        network: context.network,
        workers: context.settings.workers,
    };
    audit_block(
        rt,
        context.alloc,
        text,
        snapshot,
        context.network,
        &ways,
        context.settings,
        context.gate,
    )
}

/// Enters a close, and gives up the journal of the book: what the close tells its riders.
fn enter_close(
    alloc: Global,
    book: &mut Book,
    batch: u64,
    outcome: Outcome,
) -> Result<Vec<Notice>, OutOfMemory>
    ensures { IfOk result (λ told. EntersClose book.old book.new batch outcome told.items) }
{
    let close = Command::Close { batch, outcome };
    let told = match notices_of_close(alloc, book, &close) {
        Ok(told) => told,
        Err(fault) => {
            drop(close);
            return Err(fault);
        }
    };
    match book.apply(0, close) {
        Ok(_reply) => match book.take_round() {
            Ok(journal) => {
                drop(journal);
                Ok(told)
            }
            Err(fault) => {
                drop(told);
                Err(fault)
            }
        },
        Err(fault) => {
            drop(told);
            Err(fault)
        }
    }
}

/// Whether the line is that of the close of this batch, answered `closed`. The outcome isn't in the line.
fn is_close_line(alloc: Global, line: &[u8], position: u64, batch: u64) -> Result<bool, OutOfMemory>
    ensures { IfOk result (λ yes. (outcome : OneOutcome) → IsTrue yes ↔ (line.now ≡ entry_line position (record { lane = 0; command = Closes batch outcome; reply = IsClosed }))) }
{
    let outcome = Outcome {
        expired: Sequence::empty(alloc),
        answer: Answer::Overflow,
    };
    let closing = Entry {
        lane: 0,
        command: Command::Close { batch, outcome },
        reply: Reply::Closed,
    };
    let told = is_entry_line(alloc, line, position, &closing);
    drop(closing);
    told
}
