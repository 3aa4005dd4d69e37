//! A run between two rows, and its end.
ghost use Rattle.std.specs.Prelude.{◌≡◌, Result, Err};
ghost use Rattle.dispatch_report.specs.Round.{end_text};
ghost use Rattle.pool_io.specs.Views.{sink_seen};
ghost use Rattle.dispatch_report.specs.Written.{WritesText};
ghost use Rattle.dispatch_report.specs.declared.fault.ReportFault.{ReportFault};
ghost use Rattle.request_book.specs.Book.{next_position};
ghost use Rattle.live_dispatch.specs.work.Standing.{ended_by};

use crate::fault::{LiveFault, fault_of_text};
use crate::outputs::Outputs;
use dispatch_report::write_end;
use input_rows::RowSource;
use pool_io::Sink;
use request_book::{Book, Notifier};
use std::alloc::Global;

/// A run while no batch is open: the book, where its report and its notices go, and its rows to come.
#[derive(Drop)]
pub(crate) struct LiveRun<K: Sink, N: Notifier, L: RowSource> {
    pub(crate) book: Book,
    pub(crate) outputs: Outputs<K, N>,
    pub(crate) rows: L,
    /// Room for a line.
    pub(crate) line: Vec<u8>,
    /// The round of the last row.
    pub(crate) round: Option<u32>,
    /// Whether search trees are printed.
    pub(crate) proof: bool,
}

/// What a run gives back, and how it ended.
#[derive(Drop)]
pub struct Dispatched<K: Sink, N: Notifier, L: RowSource> {
    pub outputs: Outputs<K, N>,
    pub rows: L,
    pub ended: Result<(), LiveFault>,
}

/// Ends a run with a fault.
pub(crate) fn stop<K: Sink, N: Notifier, L: RowSource>(
    run: LiveRun<K, N, L>,
    fault: LiveFault,
) -> Dispatched<K, N, L>
    ensures sink { result.outputs.sink ≡ run.outputs.sink }
    ensures notifiers { result.outputs.notifiers.items ≡ run.outputs.notifiers.items }
    ensures rows { result.rows ≡ run.rows }
    ensures ended { result.ended ≡ Err fault }
{
    let LiveRun {
        book,
        outputs,
        rows,
        line,
        ..
    } = run;
    drop(book);
    drop(line);
    Dispatched {
        outputs,
        rows,
        ended: Err(fault),
    }
}

/// Writes the last line.
pub(crate) fn end<K: Sink, N: Notifier, L: RowSource>(
    alloc: Global,
    run: LiveRun<K, N, L>,
) -> Dispatched<K, N, L>
    ensures notifiers { result.outputs.notifiers.items ≡ run.outputs.notifiers.items }
    ensures rows { result.rows ≡ run.rows }
    ensures wrote { (answer : Result (Unit {0}) ReportFault) × (result.ended ≡ ended_by answer)
        × WritesText (sink_seen K.written K.faults run.outputs.sink result.outputs.sink) (end_text (next_position run.book.first run.book.entries)) answer }
{
    let LiveRun {
        book,
        outputs,
        rows,
        line,
        ..
    } = run;
    drop(line);
    let position = book.next_position();
    drop(book);
    let mut outputs = outputs;
    let ended = match write_end(alloc, &mut outputs.sink, position) {
        Ok(()) => Ok(()),
        Err(fault) => Err(fault_of_text(fault)),
    };
    Dispatched {
        outputs,
        rows,
        ended,
    }
}
