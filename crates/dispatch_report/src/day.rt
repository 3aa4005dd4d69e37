ghost use Rattle.std.specs.Prelude.{◌≡◌, ◌++◌, OnOk, codes};
ghost use Rattle.dispatch_report.specs.Day.{day_line, day_end_text};
ghost use Rattle.dispatch_report.specs.Words.{numbered};
ghost use Rattle.pool_io.specs.Views.{sink_seen};
ghost use Rattle.dispatch_report.specs.Written.{WritesText};

use crate::block::write_number;
use crate::fault::ReportFault;
use crate::lines::{Line, Page, write_item, write_rest};
use crate::words::put_fields;
use pool_base::OutOfMemory;
use pool_io::Sink;
use std::alloc::Global;

/// What is counted of a driven day. Times are whole seconds.
#[derive(Clone, Copy)]
pub struct DayCounts {
    pub picked: u64,
    pub dropped: u64,
    pub worst_wait: u64,
    pub worst_delay: u64,
}

/// Writes the last lines of a driven day's report: its counts, and how many entries there were.
///
/// After either fault a part of the text was written, from its front and not the whole.
#[tactic(auto, unfolding(crate::specs::Day::day_end_text))]
pub fn write_day_end<K: Sink>(
    alloc: Global,
    sink: &mut K,
    counts: &DayCounts,
    entries: u64,
) -> Result<(), ReportFault>
    ensures { WritesText (sink_seen K.written K.faults sink.old sink.new) (day_end_text counts.now entries) result }
{
    let mut piece = Vec::new(alloc);
    let mut page = Page {
        piece: &mut piece,
        so_far: Ok(()),
    };
    write_item(sink, &mut page, &Day, counts);
    write_number(sink, &mut page, b"done ", entries);
    write_rest(sink, page)
}

#[derive(Drop)]
struct Day;

impl Line for Day {
    type Item = DayCounts;

    ghost text = { λ _ counts. day_line counts };

    fn put(&self, line: &mut Vec<u8>, counts: &DayCounts) -> Result<(), OutOfMemory> {
        put_fields(
            line,
            &[
                (b"day picked ", counts.picked),
                (b" dropped ", counts.dropped),
                (b" worst-wait ", counts.worst_wait),
                (b" worst-delay ", counts.worst_delay),
            ],
        )
    }
}
