//! The texts of a report that is written while its run goes on: the line that begins a round, and each entry.
ghost use Rattle.dispatch_report.specs.Round.{entry_text, round_line};
ghost use Rattle.pool_io.specs.Views.{sink_seen};
ghost use Rattle.dispatch_report.specs.Written.{WritesText};

use crate::fault::ReportFault;
use crate::lines::{Page, write_rest};
use crate::round::{write_entry, write_round_line};
use pool_io::Sink;
use request_book::Entry;

/// Writes the line that begins a round. `piece` is room for it; what it holds is lost.
///
/// After either fault a part of the text was written, from its front and not the whole.
pub fn write_round_start<K: Sink>(
    sink: &mut K,
    piece: &mut Vec<u8>,
    number: u32,
) -> Result<(), ReportFault>
    ensures { WritesText (sink_seen K.written K.faults sink.old sink.new) (round_line number) result }
{
    piece.clear();
    let mut page = Page {
        piece,
        so_far: Ok(()),
    };
    write_round_line(sink, &mut page, number);
    write_rest(sink, page)
}

/// Writes the line of an entry, and after a close the block of its batch, with the search tree where `proof` is
/// set. `piece` is room for them; what it holds is lost.
///
/// After either fault a part of the text was written, from its front and not the whole.
pub fn write_step<K: Sink>(
    sink: &mut K,
    piece: &mut Vec<u8>,
    position: u64,
    entry: &Entry,
    proof: bool,
) -> Result<(), ReportFault>
    ensures { WritesText (sink_seen K.written K.faults sink.old sink.new) (entry_text proof position entry.now) result }
{
    piece.clear();
    let mut page = Page {
        piece,
        so_far: Ok(()),
    };
    write_entry(sink, &mut page, position, entry, proof);
    write_rest(sink, page)
}
