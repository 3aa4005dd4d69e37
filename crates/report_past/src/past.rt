//! The past of a day, read from what its report keeps.
ghost use Rattle.std.specs.Prelude.{◌≡◌, ◌≢◌, All, IfErr, IfOk};
ghost use Rattle.request_book.specs.Consistent.{IsNode};
ghost use Rattle.report_audit.specs.declared.report.fault.AuditFault.TheVariants.{OutOfMemory as NoMemory};
ghost use Rattle.report_past.specs.Past.{IsPast, PastFails};
ghost use Rattle.report_past.specs.work.Left.{IsNotLeft};
ghost use Rattle.report_past.specs.work.Reading.{IsDropped, stand};
ghost use Rattle.report_past.specs.work.Taking.{Reached, fresh};
ghost use Rattle.request_book.specs.Book.{IsBook};

use crate::context::PastContext;
use crate::item::item_first;
use crate::step::take_item;
use crate::whole::whole_size;
use dispatch_engine::opened_book;
use report_audit::AuditFault;
use request_book::{Book, Fleet, Notice, Snapshot};
use rider_limits::Settings;
use road_network::Network;
use shared_work::Gate;
use std::alloc::Global;
use std::thread::Threads;

/// The past of a day, as its report keeps it.
#[derive(Drop)]
pub struct Past<'a> {
    /// The kept part of the text.
    pub kept: &'a [u8],
    /// The round of the last kept row.
    pub last: Option<u32>,
    /// The book behind the kept part, with no entries of its own.
    pub book: Book,
    /// The batch that is sealed and has no close yet.
    pub open: Option<Snapshot>,
    /// What the last kept block tells its riders.
    pub notices: Vec<Notice>,
}

/// The past of a day by what stands behind the head of its report, or the first fault there. Lines count from the first of
/// the head, which has four.
///
/// The book is run through the kept part: each entry's line must be the one that the book prints, and each close is entered
/// with the outcome that its block tells. With `judge` each outcome must be good for its batch; else it is taken as it is
/// told.
///
/// A text that a run may leave is never refused, however it is torn, unless memory is wanting.
pub fn read_past<'a, G: Gate>(
    rt: &(impl Threads + Sync),
    alloc: Global,
    text: &'a [u8],
    network: &Network,
    fleet: &Fleet,
    settings: &Settings,
    judge: bool,
    gate: &G,
) -> Result<Past<'a>, AuditFault>
    requires nodes { All (λ vehicle. IsNode network.now.nodes vehicle.node) fleet.now }
    ensures past { IfOk result (λ p. IsPast settings.entry.now network.entry.now fleet.entry.now judge text.entry.now p.kept.now p.last p.book p.open p.notices.items) }
    ensures refused { IfErr result (PastFails settings.entry.now network.entry.now fleet.entry.now text.entry.now) }
{
    let size = whole_size(text);
    let (whole, _torn) = text.split_at(size);
    let context = PastContext {
        alloc,
        text: whole,
        network,
        fleet,
        settings,
        judge,
        gate,
    };
    let mut book = opened_book(alloc, network, fleet, settings.wait)?;
    let mut last = None;
    let mut open = None;
    let mut notices = Vec::new(alloc);
    match read_items(rt, &mut book, &mut last, &mut open, &mut notices, &context) {
        Ok(rest) => match give_up(&mut book) {
            Ok(()) => {
                let (kept, _dropped) = whole.split_at(whole.len() - rest.len());
                Ok(Past {
                    kept,
                    last,
                    book,
                    open,
                    notices,
                })
            }
            Err(fault) => {
                drop(book);
                drop(open);
                Err(fault)
            }
        },
        Err(fault) => {
            drop(book);
            drop(open);
            Err(fault)
        }
    }
}

/// Reads all items: what is left is dropped.
fn read_items<'a, G: Gate>(
    rt: &(impl Threads + Sync),
    book: &mut Book,
    last: &mut Option<u32>,
    open: &mut Option<Snapshot>,
    notices: &mut Vec<Notice>,
    context: &PastContext<'a, G>,
) -> Result<&'a [u8], AuditFault>
    requires { Reached context.now.settings.now context.now.network.now context.now.fleet.now context.now.judge context.now.text.now (stand last.old book.old open.old notices.old.items) context.now.text.now }
    ensures reached { IfOk result (λ rest. IsDropped rest.now
        × Reached context.entry.now.settings.now context.entry.now.network.now context.entry.now.fleet.now context.entry.now.judge context.entry.now.text.now (stand last.new book.new open.new notices.new.items) rest.now) }
    ensures refused { IfErr result (λ fault. fault ≢ NoMemory
        → IsNotLeft context.entry.now.settings.now context.entry.now.network.now (stand last.old book.old open.old notices.old.items) context.entry.now.text.now) }
{
    let mut rest = context.text;
    'items: while !rest.is_empty() {
        match item_first(context.text, rest) {
            Ok(Some(item)) => match take_item(rt, book, last, open, notices, item, context) {
                Ok(after) => rest = after,
                Err(fault) => return Err(fault),
            },
            Ok(None) => return Ok(rest),
            Err(fault) => return Err(fault),
        }
    }
    Ok(rest)
}

/// Gives up the journal of a book.
fn give_up(book: &mut Book) -> Result<(), AuditFault>
    ensures fresh { IfOk result (λ _. (book.new ≡ fresh book.old) × IsBook book.new) }
    ensures memory { IfErr result (λ fault. fault ≡ NoMemory) }
{
    let journal = book.take_round()?;
    drop(journal);
    book.keeps();
    Ok(())
}
