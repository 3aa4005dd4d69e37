//! One item of a report, taken into the book.
ghost use Rattle.std.specs.Prelude.{◌≡◌, ◌≢◌, ◌≤◌, ◌++◌, ◌∷◌, ◌⊎◌, ℕ, All, Contains, IfErr, IfOk, IsTrue, MatchOption, None, Some, false, length, true};
ghost use Rattle.std.specs.Option.{is_some};
ghost use Rattle.report_audit.specs.declared.report.fault.AuditFault.TheVariants.{OutOfMemory as NoMemory};
ghost use Rattle.report_past.specs.work.Left.{IsItem, IsNotLeft, StaysLeft};
ghost use Rattle.report_past.specs.work.Reading.{IsAbove, StandsIn, stand, start_text};
ghost use Rattle.report_past.specs.work.Taking.{HasNoBlock, IsNextRow, IsNoClosing, Reached, TakesClose, TakesRow};
ghost use Rattle.request_book.specs.Points.{named_nodes};
ghost use Rattle.request_book.specs.values.Batch.{Batch};
ghost use Rattle.request_book.specs.declared.values.journal.Entry.{Entry};

use crate::close::take_close;
use crate::context::PastContext;
use crate::fault::{block_fault, line_at};
use crate::item::Item;
use crate::row::take_row;
use pool_base::OutOfMemory;
use report_audit::{
    AuditFault, a_block_ends_once, a_line_between_blocks_has_no_feed, a_line_is_of_one_kind,
};
use request_book::{Book, Notice, Snapshot};
use shared_work::Gate;
use std::thread::Threads;

/// Takes an item into the book: what follows it.
pub(crate) fn take_item<'a, G: Gate>(
    rt: &(impl Threads + Sync),
    book: &mut Book,
    last: &mut Option<u32>,
    open: &mut Option<Snapshot>,
    notices: &mut Vec<Notice>,
    item: Item<'a>,
    context: &PastContext<'_, G>,
) -> Result<&'a [u8], AuditFault>
    requires { Reached context.now.settings.now context.now.network.now context.now.fleet.now context.now.judge context.now.text.now (stand last.old book.old open.old notices.old.items) (start_text item.round ++ (item.line.now ++ 10 ∷ item.after.now)) }
    ensures reached { IfOk result (λ rest.
        Reached context.entry.now.settings.now context.entry.now.network.now context.entry.now.fleet.now context.entry.now.judge context.entry.now.text.now (stand last.new book.new open.new notices.new.items) rest.now) }
    ensures shorter { IfOk result (λ rest. length rest.now ≤ length item.entry.after.now) }
    ensures left { IfOk result (λ rest. IsItem item.entry.round item.entry.lane item.entry.line.now → StaysLeft context.entry.now.settings.now context.entry.now.network.now
        (stand last.old book.old open.old notices.old.items) (start_text item.entry.round ++ (item.entry.line.now ++ 10 ∷ item.entry.after.now))
        (stand last.new book.new open.new notices.new.items) rest.now) }
    ensures refused { IfErr result (λ fault. fault ≢ NoMemory → IsItem item.entry.round item.entry.lane item.entry.line.now → IsNotLeft context.entry.now.settings.now context.entry.now.network.now
        (stand last.old book.old open.old notices.old.items) (start_text item.entry.round ++ (item.entry.line.now ++ 10 ∷ item.entry.after.now))) }
{
    a_line_is_of_one_kind();
    a_line_between_blocks_has_no_feed();
    a_block_ends_once();
    book.keeps();
    let Some(number) = number_of(*last, open, item.round) else {
        return Err(start_fault(context.text, *last, &item));
    };
    if is_closing(item.lane, open) {
        close_taken(rt, book, open, notices, &item, context)
    } else {
        row_taken(book, last, open, number, &item, context)
    }
}

/// Whether an entry of this lane is the close of the batch that is open.
fn is_closing(lane: u8, open: &Option<Snapshot>) -> bool
    ensures yes { IsTrue result → (lane ≡ 0) × (is_some open.now ≡ true) }
    ensures no { result ≡ false → lane ≡ 0 → open.now ≡ None }
{
    open.is_some() && lane == 0
}

/// The round in which an item stands: the last, or a later one that begins before it while no batch is open.
fn number_of(last: Option<u32>, open: &Option<Snapshot>, round: Option<u32>) -> Option<u32>
    ensures { MatchOption result ((n : ℕ) → StandsIn last open.now round n → ⊥) (StandsIn last open.now round) }
{
    match round {
        None => last,
        Some(number) => if open.is_some() {
            None
        } else {
            above(last, number)
        },
    }
}

/// The number, where it is above the last and one that a script may have.
fn above(last: Option<u32>, number: u32) -> Option<u32>
    ensures { MatchOption result (IsAbove last number × (number ≤ 1000000000) → ⊥) (λ n. (n ≡ number) × IsAbove last number × (number ≤ 1000000000)) }
{
    if number > 1_000_000_000 {
        return None;
    }
    match last {
        Some(before) => if number > before { Some(number) } else { None },
        None => Some(number),
    }
}

/// The fault of an item that stands in no round, or in one that may not begin.
fn start_fault(text: &[u8], last: Option<u32>, item: &Item<'_>) -> AuditFault {
    let line = line_at(text, item.at);
    match (item.round, last) {
        (None, None) => AuditFault::Form { line },
        (None, _) => AuditFault::Entry { line },
        // The line of the round stands before the item's.
        (Some(_), _) => AuditFault::Entry {
            line: line.saturating_sub(1),
        },
    }
}

/// Takes the close of the batch that is open: what follows its block.
fn close_taken<'a, G: Gate>(
    rt: &(impl Threads + Sync),
    book: &mut Book,
    open: &mut Option<Snapshot>,
    notices: &mut Vec<Notice>,
    item: &Item<'a>,
    context: &PastContext<'_, G>,
) -> Result<&'a [u8], AuditFault>
    requires { (b : Batch) → open.old ≡ Some b → All (λ node. Contains context.now.network.now.nodes node) (named_nodes b) }
    ensures close { IfOk result (λ rest. (open.new ≡ None) × ((b : Batch) × (open.old ≡ Some b)
        × TakesClose context.entry.now.settings.now context.entry.now.network.now context.entry.now.judge book.old book.new b item.entry.now.line.now item.entry.now.after.now rest.now notices.new.items)) }
    ensures refused { IfErr result (λ fault. fault ≢ NoMemory → (b : Batch) → open.old ≡ Some b
        → IsNoClosing book.old b item.entry.now.line.now ⊎ HasNoBlock context.entry.now.settings.now context.entry.now.network.now b item.entry.now.after.now) }
{
    let Some(snapshot) = open.take() else {
        return Err(wrong_line(context.text, item.at));
    };
    let closed = take_close(rt, book, notices, &snapshot, item.line, item.after, context);
    drop(snapshot);
    match closed {
        Ok(Some(rest)) => Ok(rest),
        Ok(None) => Err(wrong_line(context.text, item.at)),
        Err(refusal) => Err(block_fault(line_at(context.text, item.at), refusal)),
    }
}

/// Takes a row of this round: what follows its line.
fn row_taken<'a, G: Gate>(
    book: &mut Book,
    last: &mut Option<u32>,
    open: &mut Option<Snapshot>,
    number: u32,
    item: &Item<'a>,
    context: &PastContext<'_, G>,
) -> Result<&'a [u8], AuditFault>
    ensures row { IfOk result (λ rest. (rest.now ≡ item.entry.now.after.now) × (last.new ≡ Some number) × TakesRow book.old book.new open.old open.new item.entry.now.line.now) }
    ensures refused { IfErr result (λ fault. fault ≢ NoMemory → (e : Entry) → IsNextRow book.old open.old item.entry.now.line.now e → ⊥) }
{
    match take_row(context.alloc, book, open, item.line) {
        Ok(true) => {
            *last = Some(number);
            Ok(item.after)
        }
        Ok(false) => Err(wrong_line(context.text, item.at)),
        Err(OutOfMemory) => Err(AuditFault::OutOfMemory),
    }
}

/// The line is in form, but not one with which the day goes on.
fn wrong_line(text: &[u8], rest: &[u8]) -> AuditFault {
    AuditFault::Entry {
        line: line_at(text, rest),
    }
}
