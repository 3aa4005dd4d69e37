ghost use Rattle.std.specs.Prelude.{◌++◌, ◌∷◌, [], codes};
ghost use Rattle.dispatch_report.specs.Entry.{entry_line};
ghost use Rattle.dispatch_report.specs.Round.{entry_block, entries_lines, round_text, end_text};
ghost use Rattle.dispatch_report.specs.Words.{numbered};
ghost use Rattle.pool_io.specs.Views.{sink_seen};
ghost use Rattle.dispatch_report.specs.Written.{WritesText};
ghost use Rattle.dispatch_report.specs.work.Lines.{WritesLines};

use crate::block::{write_block, write_number};
use crate::entry::put_entry;
use crate::fault::ReportFault;
use crate::lines::{Line, Page, write_item, write_rest};
use pool_base::OutOfMemory;
use pool_io::Sink;
use request_book::{Command, Entry, Journal, Outcome, Reply};
use std::alloc::Global;

/// Writes the text of a round: its number, each entry, and after a close the block of its batch, with the
/// search tree where `proof` is set.
///
/// After either fault a part of the text was written, from its front and not the whole.
#[tactic(auto, unfolding(crate::specs::Round::round_text))]
pub fn write_round<K: Sink>(
    alloc: Global,
    sink: &mut K,
    number: u32,
    journal: &Journal,
    proof: bool,
) -> Result<(), ReportFault>
    ensures { WritesText (sink_seen K.written K.faults sink.old sink.new) (round_text number proof journal.now) result }
{
    let mut piece = Vec::new(alloc);
    let mut page = Page {
        piece: &mut piece,
        so_far: Ok(()),
    };
    let entries = journal.entries.as_slice();
    write_round_line(sink, &mut page, number);
    write_entries(sink, &mut page, journal.first, entries, proof);
    write_rest(sink, page)
}

/// Writes the last line of a report.
///
/// After either fault a part of the text was written, from its front and not the whole.
#[tactic(auto, unfolding(crate::specs::Round::end_text))]
pub fn write_end<K: Sink>(alloc: Global, sink: &mut K, entries: u64) -> Result<(), ReportFault>
    ensures { WritesText (sink_seen K.written K.faults sink.old sink.new) (end_text entries) result }
{
    let mut piece = Vec::new(alloc);
    let mut page = Page {
        piece: &mut piece,
        so_far: Ok(()),
    };
    write_number(sink, &mut page, b"done ", entries);
    write_rest(sink, page)
}

pub(crate) fn write_round_line<K: Sink>(sink: &mut K, page: &mut Page<'_>, number: u32)
    ensures { WritesLines (sink_seen K.written K.faults sink.old sink.new) page.old.piece.now.items page.new.piece.now.items page.old.so_far page.new.so_far (numbered (codes "round ") number ∷ []) }
{
    write_number(sink, page, b"round ", u64::from(number));
}

fn write_entries<K: Sink>(
    sink: &mut K,
    page: &mut Page<'_>,
    first: u64,
    entries: &[Entry],
    proof: bool,
)
    ensures { WritesLines (sink_seen K.written K.faults sink.old sink.new) page.old.piece.now.items page.new.piece.now.items page.old.so_far page.new.so_far (entries_lines proof first entries.now) }
{
    let mut position = first;
    for entry in entries {
        write_entry(sink, page, position, entry, proof);
        position = position.saturating_add(1);
    }
}

pub(crate) fn write_entry<K: Sink>(
    sink: &mut K,
    page: &mut Page<'_>,
    position: u64,
    entry: &Entry,
    proof: bool,
)
    ensures { WritesLines (sink_seen K.written K.faults sink.old sink.new) page.old.piece.now.items page.new.piece.now.items page.old.so_far page.new.so_far ((entry_line position entry.now ∷ []) ++ entry_block proof entry.now.command entry.now.reply) }
{
    write_item(sink, page, &EntryAt { position }, entry);
    write_entry_block(sink, page, entry, proof);
}

fn write_entry_block<K: Sink>(sink: &mut K, page: &mut Page<'_>, entry: &Entry, proof: bool)
    ensures { WritesLines (sink_seen K.written K.faults sink.old sink.new) page.old.piece.now.items page.new.piece.now.items page.old.so_far page.new.so_far (entry_block proof entry.now.command entry.now.reply) }
{
    match &entry.command {
        Command::Close { batch, outcome } => {
            write_closed(sink, page, *batch, outcome, entry.reply, proof);
        }
        _ => {}
    }
}

fn write_closed<K: Sink>(
    sink: &mut K,
    page: &mut Page<'_>,
    batch: u64,
    outcome: &Outcome,
    reply: Reply,
    proof: bool,
)
    ensures { WritesLines (sink_seen K.written K.faults sink.old sink.new) page.old.piece.now.items page.new.piece.now.items page.old.so_far page.new.so_far (entry_block proof (Command.Close batch outcome.now) reply) }
{
    match reply {
        Reply::Closed => write_block(sink, page, batch, outcome, proof),
        _ => {}
    }
}

/// Entries at a position.
#[derive(Drop)]
struct EntryAt {
    position: u64,
}

impl Line for EntryAt {
    type Item = Entry;

    ghost text = { λ kind entry. entry_line kind.position entry };

    fn put(&self, line: &mut Vec<u8>, entry: &Entry) -> Result<(), OutOfMemory> {
        put_entry(line, self.position, entry)
    }
}
