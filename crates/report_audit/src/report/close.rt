//! The close of a batch, and its block.
ghost use Rattle.std.specs.Prelude.{◌≡◌, ◌≢◌, ◌<◌, ◌^◌, ◌↔◌, IfOk, IsTrue, MatchOption, MatchResult, Some};
ghost use Rattle.request_book.specs.Book.{next_position};
ghost use Rattle.report_audit.specs.work.report.Standing.{BlockRefuses, IsBookOf, TakesClose, close_line};

use crate::block::block::audit_block;
use crate::block::refusal::BlockRefusal;
use crate::report::context::AuditContext;
use crate::report::line::{Between, is_entry_line};
use pool_base::{OutOfMemory, Sequence};
use request_book::{Answer, Book, Command, Entry, Outcome, Reply, Snapshot};
use shared_work::Gate;
use std::alloc::Global;
use std::thread::Threads;
use travel_times::NetworkWays;

/// The close of the batch that is sealed, by its line and its block: it is taken into the book, and what follows the block
/// is the answer. `None` where the line isn't the close's.
pub(crate) fn audit_close<'a, G: Gate>(
    rt: &(impl Threads + Sync),
    book: &mut Book,
    snapshot: &Snapshot,
    lane: u8,
    between: Between<'a>,
    context: &AuditContext<'_, G>,
) -> Result<Option<&'a [u8]>, BlockRefusal>
    requires book { IsBookOf context.now.settings.now context.now.network.now book.old }
    requires sealed { book.old.state.sealed ≡ Some snapshot.now }
    ensures { MatchResult result (λ found. MatchOption found (between.entry.line.now ≢ close_line (next_position book.old.first book.old.entries) lane snapshot.entry.now.number)
        (λ rest. TakesClose context.entry.now.settings.now context.entry.now.network.now book.old snapshot.entry.now lane between.entry.line.now between.entry.after.now rest.now book.new))
        (BlockRefuses context.entry.now.settings.now context.entry.now.network.now book.old snapshot.entry.now lane between.entry.line.now between.entry.after.now) }
{
    let position = book.next_position();
    if !is_close_line(context.alloc, between.line, position, lane, snapshot.batch)? {
        return Ok(None);
    }
    let ways = NetworkWays {
        network: context.network,
        workers: context.settings.workers,
    };
    let found = audit_block(
        rt,
        context.alloc,
        between.after,
        snapshot,
        context.network,
        &ways,
        context.settings,
        context.gate,
    );
    match found {
        Ok(block) => {
            let rest = block.rest;
            let close = Command::Close {
                batch: snapshot.batch,
                outcome: block.outcome,
            };
            let _reply = book.apply(lane, close)?;
            Ok(Some(rest))
        }
        Err(refusal) => Err(refusal),
    }
}

/// Whether the line is that of a close of this batch which was answered `closed`. The outcome isn't in the line.
fn is_close_line(
    alloc: Global,
    line: &[u8],
    position: u64,
    lane: u8,
    batch: u64,
) -> Result<bool, OutOfMemory>
    ensures line { IfOk result (λ yes. IsTrue yes ↔ (line.now ≡ close_line position lane batch)) }
    ensures low { batch < 2 ^ 64 }
{
    let outcome = Outcome {
        expired: Sequence::empty(alloc),
        answer: Answer::Overflow,
    };
    let closing = Entry {
        lane,
        command: Command::Close { batch, outcome },
        reply: Reply::Closed,
    };
    let told = is_entry_line(alloc, line, position, &closing);
    drop(closing);
    told
}
