//! A batch that is open when a run begins.
ghost use Rattle.std.specs.Prelude.{◌≡◌, ◌<◌, ◌≤◌, ◌^◌, [], All, Bool, Contains, Ok, Err, MatchResult};
ghost use Rattle.request_book.specs.Points.{named_nodes};
ghost use Rattle.request_book.specs.values.Batch.{Batch};
ghost use Rattle.dispatch_engine.specs.outcome.Outcome.{IsGoodOutcome};
ghost use Rattle.live_dispatch.specs.Closing.{IsClosedTo, StopsClose};
ghost use Rattle.live_dispatch.specs.Desk.{IsDesk, desk_of, outputs_seen};
ghost use Rattle.live_dispatch.specs.work.Closing.{HasEnteredOr};
ghost use Rattle.request_book.specs.declared.values.outcome.Outcome.{Outcome};
ghost use Rattle.rider_limits.specs.declared.settings.Settings.{Settings};
ghost use Rattle.road_network.specs.Roads.{Roads};

use crate::batch::cut_batch;
use crate::desk::{Desk, Opening};
use crate::fault::LiveFault;
use crate::outputs::Outputs;
use dispatch_engine::BatchSolver;
use pool_base::OutOfMemory;
use pool_io::Sink;
use request_book::{Book, Command, Notifier, Snapshot};
use row_tables::Drafter;
use shared_work::Gate;
use std::alloc::Global;
use std::marker::Brand;
use std::thread::Threads;
use travel_times::Ways;

/// What came of a batch that was open.
#[derive(Drop)]
pub struct Caught<K, N: Drop> {
    pub outputs: Outputs<K, N>,
    /// The book behind the close, with a new journal.
    pub book: Result<Book, LiveFault>,
}

/// Solves a batch that is sealed in a book and has no close, from the snapshot at its seal, and closes it by the book's next
/// entry. The entry's text is written, and then its notices are told, before anything else is done.
pub fn close_open<K: Sink, N: Notifier, W: Ways, D: Drafter, G: Gate>(
    rt: &(impl Threads + Sync),
    alloc: Global,
    book: Book,
    outputs: Outputs<K, N>,
    snapshot: &Snapshot,
    solver: &BatchSolver<'_, W, D, G>,
) -> Caught<K, N>
    requires empty { (book.entries ≡ []) × (book.state ≡ book.base) }
    requires small { book.first < 2 ^ 64 }
    requires nodes { All (λ node. Contains solver.now.network.now.nodes node) (named_nodes snapshot.now) }
    ensures closed { let before = outputs_seen K.written K.faults N.told N.faults N.steady outputs.sink outputs.notifiers.items in
        let after = outputs_seen K.written K.faults N.told N.faults N.steady result.outputs.sink result.outputs.notifiers.items in
        MatchResult result.book
        (IsClosedTo solver.now.settings.now solver.now.network.now snapshot.entry.now book before after)
        (StopsClose solver.now.settings.now solver.now.network.now snapshot.entry.now book before after) }
    ensures never_falls { K.faults outputs.sink ≤ K.faults result.outputs.sink }
{
    let Ok(outcome) = solver.solve(rt, alloc, snapshot) else {
        solver.gate.gave_up();
        drop(book);
        return Caught {
            outputs,
            book: Err(LiveFault::OutOfMemory),
        };
    };
    let close = Command::Close {
        batch: snapshot.batch,
        outcome,
    };
    close_in::<K, N, Brand>(alloc, book, outputs, solver.settings.proof, close)
}

/// Closes a batch at a desk of its own.
fn close_in<K: Sink, N: Notifier, J: Opening>(
    alloc: Global,
    book: Book,
    outputs: Outputs<K, N>,
    proof: bool,
    close: Command,
) -> Caught<K, N>
    requires opened { J.opened ≡ outputs_seen K.written K.faults N.told N.faults N.steady outputs.sink outputs.notifiers.items }
    requires empty { (book.entries ≡ []) × (book.state ≡ book.base) }
    requires small { book.first < 2 ^ 64 }
    ensures closed { (settings : Settings) (roads : Roads) (batch : Batch) (outcome : Outcome) → proof ≡ settings.proof
        → close ≡ Command.Close batch.number outcome → IsGoodOutcome settings roads batch outcome →
        let before = outputs_seen K.written K.faults N.told N.faults N.steady outputs.sink outputs.notifiers.items in
        let after = outputs_seen K.written K.faults N.told N.faults N.steady result.outputs.sink result.outputs.notifiers.items in
        MatchResult result.book (IsClosedTo settings roads batch book before after) (StopsClose settings roads batch book before after) }
    ensures never_falls { K.faults outputs.sink ≤ K.faults result.outputs.sink }
{
    let mut desk: Desk<K, N, J> = Desk::of(alloc, book, outputs, proof);
    let entered = enter_close(alloc, &mut desk, close);
    let (book, outputs, fault) = desk.into_parts();
    let mut book = book;
    match cut_batch(&mut book, entered, fault) {
        Ok(()) => Caught {
            outputs,
            book: Ok(book),
        },
        Err(fault) => {
            drop(book);
            Caught {
                outputs,
                book: Err(fault),
            }
        }
    }
}

/// Enters a close in lane 0, and says whether it was taken.
fn enter_close<K: Sink, N: Notifier, J: Opening>(
    alloc: Global,
    desk: &mut Desk<K, N, J>,
    close: Command,
) -> bool
    ensures entered { HasEnteredOr result desk.old close desk.new }
    ensures kept { IsDesk desk.new }
{
    match desk.enter(alloc, 0, close) {
        Ok(reply) => {
            drop(reply);
            true
        }
        Err(OutOfMemory) => false,
    }
}
