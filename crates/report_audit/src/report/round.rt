//! A round of a report.
ghost use Rattle.std.specs.Prelude.{◌≡◌, MatchResult, count_by};
ghost use Rattle.report_audit.specs.report.Report.{closes};
ghost use Rattle.report_audit.specs.work.report.Standing.{IsRoundStart, IsThrough, RoundFails, RoundRead as IsRead};

use crate::lines::next::NextLine;
use crate::report::context::AuditContext;
use crate::report::entry::audit_entry;
use crate::report::fault::AuditFault;
use crate::report::line::behind_line;
use dispatch_engine::Progress;
use input_rows::Round;
use request_book::{Book, Command, Entry, Reply};
use shared_work::Gate;
use std::thread::Threads;

/// What follows a round in a report, and how many batches the round closes.
#[derive(Drop)]
pub(crate) struct RoundRead<'a> {
    pub(crate) rest: &'a [u8],
    pub(crate) batches: u64,
}

/// The round with which the rest of a report begins, as the first or behind others. The book is behind it, with no entries
/// of its own.
pub(crate) fn audit_round<'a, G: Gate>(
    rt: &(impl Threads + Sync),
    book: &mut Book,
    round: &Round,
    text: &'a [u8],
    first: bool,
    context: &AuditContext<'_, G>,
) -> Result<RoundRead<'a>, AuditFault>
    requires { IsRoundStart context.now.settings.now context.now.network.now book.old }
    ensures { MatchResult result (λ r. IsRead context.entry.now.settings.now context.entry.now.network.now context.entry.now.report.now round.entry.now book.old text.entry.now first book.new r.rest.now r.batches)
        (RoundFails context.entry.now.settings.now context.entry.now.network.now context.entry.now.report.now round.entry.now book.old text.entry.now first) }
{
    let rest = match audit_entries(rt, book, round, text, first, context) {
        Ok(rest) => rest,
        Err(fault) => return Err(fault),
    };
    let journal = book.take_round()?;
    let batches = closed(journal.entries.as_slice());
    drop(journal);
    Ok(RoundRead { rest, batches })
}

/// What follows the round, of whose entries the book is behind the last.
fn audit_entries<'a, G: Gate>(
    rt: &(impl Threads + Sync),
    book: &mut Book,
    round: &Round,
    text: &'a [u8],
    first: bool,
    context: &AuditContext<'_, G>,
) -> Result<&'a [u8], AuditFault>
    requires { IsRoundStart context.now.settings.now context.now.network.now book.old }
    ensures { MatchResult result (λ rest. IsThrough context.entry.now.settings.now context.entry.now.network.now round.entry.now book.old book.new text.entry.now rest.now)
        (RoundFails context.entry.now.settings.now context.entry.now.network.now context.entry.now.report.now round.entry.now book.old text.entry.now first) }
{
    let number = round.number();
    let mut rest = match behind_line(context.report, text, NextLine::Round { number }, first) {
        Ok(rest) => rest,
        Err(fault) => return Err(fault),
    };
    round.keeps();
    let mut lanes = Progress::at_start(context.alloc)?;
    let mut sealed = None;
    'entries: while !lanes.are_done(round) {
        match audit_entry(rt, book, &mut lanes, &mut sealed, round, rest, context) {
            Ok(behind) => rest = behind,
            Err(fault) => {
                drop(sealed);
                drop(lanes);
                return Err(fault);
            }
        }
    }
    drop(sealed);
    drop(lanes);
    Ok(rest)
}

/// How many batches entries close.
fn closed(entries: &[Entry]) -> u64
    ensures { result ≡ count_by (λ e. closes e.command e.reply) entries.now }
{
    let mut count = 0;
    for entry in entries {
        if is_closed(&entry.command, entry.reply) {
            count += 1;
        }
    }
    count
}

fn is_closed(command: &Command, reply: Reply) -> bool
    ensures { result ≡ closes command.now reply }
{
    match command {
        Command::Close { .. } => match reply {
            Reply::Closed => true,
            _ => false,
        },
        _ => false,
    }
}
