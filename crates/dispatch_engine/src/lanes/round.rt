ghost use Rattle.std.specs.Prelude.{◌≡◌, ℕ, ◌<◌, ◌≤◌, [], All, IfOk};
ghost use Rattle.request_book.specs.Book.{IsBook, IsSameBook};
ghost use Rattle.input_rows.specs.script.Round.{IsRound, lane_at};
ghost use Rattle.seat_lock.specs.Values.{AreAllPasses, IsNew};
ghost use Rattle.dispatch_engine.specs.work.lanes.Crew.{HaveRunLanes, IsSharedBy};
ghost use Rattle.dispatch_engine.specs.lanes.Run.{IsReady, IsRoundRun, IsSameRun, journal_of};

use crate::lanes::crew::{are_done, passes_of, work_all};
use crate::lanes::shared::{Pass, SharedBook};
use crate::solver::BatchSolver;
use input_rows::Round;
use pool_base::OutOfMemory;
use request_book::{Book, Command};
use row_tables::Drafter;
use shared_work::Gate;
use std::alloc::Global;
use std::sync::Wait;
use std::thread::Threads;
use travel_times::Ways;

/// Runs the lanes of a round at the same time, each on a thread of its own where one can be made, each lane's
/// commands in their order. The search follows what the drafter drafts and judges it, and the gate hears of each
/// receipt and of each piece of growth. After each seal that puts a batch up, its lane solves the batch while the
/// others go on, and closes it before its next command, with an outcome that is good for it.
///
/// The book handed back has the nodes, the longest wait, and the journal's first position and base of the
/// one taken in. For want of memory the book is given up.
pub fn run_round<W: Ways, D: Drafter, G: Gate>(
    rt: &(impl Threads + Wait + Sync),
    alloc: Global,
    book: Book,
    round: &Round,
    solver: &BatchSolver<'_, W, D, G>,
) -> Result<Book, OutOfMemory>
    requires empty { book.entries ≡ [] }
    requires ready { IsReady solver.now.settings.now solver.now.network.now book }
    ensures run { IfOk result (λ after. IsRoundRun solver.now.settings.now solver.now.network.now round.now (journal_of after)) }
    ensures same { IfOk result (λ after. IsSameRun book after) }
    ensures kept { IfOk result IsBook }
    ensures ready { IfOk result (IsReady solver.now.settings.now solver.now.network.now) }
{
    let book = with_room(book, round)?;
    book.keeps();
    match SharedBook::start(alloc, book, lanes_in_use(round)) {
        Ok((shared, passes)) => run_shared(rt, alloc, shared, passes, round, solver),
        Err(refused) => {
            drop(refused);
            Err(OutOfMemory)
        }
    }
}

/// A book with room for a round's entries.
fn with_room(book: Book, round: &Round) -> Result<Book, OutOfMemory>
    ensures { IfOk result (IsSameBook book) }
{
    let mut book = book;
    let seals = seal_count(round.lane(0));
    match book.reserve_with_seals(most_entries(round, seals), seals) {
        Ok(()) => Ok(book),
        Err(fault) => {
            drop(book);
            Err(fault)
        }
    }
}

/// Lets the passes of a shared book run the lanes, and takes the book back.
fn run_shared<W: Ways, D: Drafter, G: Gate>(
    rt: &(impl Threads + Wait + Sync),
    alloc: Global,
    shared: SharedBook,
    passes: Vec<Pass>,
    round: &Round,
    solver: &BatchSolver<'_, W, D, G>,
) -> Result<Book, OutOfMemory>
    requires empty { shared.start.entries ≡ [] }
    requires kept { IsBook shared.start }
    requires ready { IsReady solver.now.settings.now solver.now.network.now shared.start }
    requires lanes { IsSharedBy round.now shared.lanes }
    requires passes { AreAllPasses shared passes.items }
    requires fresh { All IsNew passes.items }
    ensures run { IfOk result (λ after. IsRoundRun solver.now.settings.now solver.now.network.now round.now (journal_of after)) }
    ensures same { IfOk result (λ after. IsSameRun shared.start after) }
    ensures kept { IfOk result IsBook }
    ensures ready { IfOk result (IsReady solver.now.settings.now solver.now.network.now) }
{
    let passes = run_passes(rt, alloc, &shared, passes, round, solver)?;
    match shared.finish(passes) {
        Ok(book) => Ok(book),
        Err(unfinished) => {
            drop(unfinished);
            Err(OutOfMemory)
        }
    }
}

/// Lets each pass run its lane's commands.
fn run_passes<W: Ways, D: Drafter, G: Gate>(
    rt: &(impl Threads + Wait + Sync),
    alloc: Global,
    book: &SharedBook,
    passes: Vec<Pass>,
    round: &Round,
    solver: &BatchSolver<'_, W, D, G>,
) -> Result<Vec<Pass>, OutOfMemory>
    requires nodes { book.now.start.nodes ≡ solver.now.network.now.nodes }
    requires lanes { (0 < book.now.lanes) × (book.now.lanes ≤ 16) }
    requires passes { AreAllPasses book.now passes.items }
    requires fresh { All IsNew passes.items }
    ensures passes { IfOk result (λ passes. AreAllPasses book.now passes.items) }
    ensures run { IfOk result (λ passes. HaveRunLanes solver.now.settings.now solver.now.network.now round.now passes.items) }
{
    let crew = work_all(rt, alloc, book, round, passes, solver)?;
    if are_done(crew.as_slice()) {
        passes_of(alloc, crew)
    } else {
        drop(crew);
        Err(OutOfMemory)
    }
}

/// How many lanes the round uses, those below the last that has a command among them; at least one.
fn lanes_in_use(round: &Round) -> u8
    ensures some { (1 ≤ result) × (result ≤ 16) }
    ensures rest { (lane : ℕ) → result ≤ lane → lane_at round.now lane ≡ [] }
    ensures kept { IsRound round.now }
{
    round.keeps();
    let mut lanes = 16u8;
    while lanes > 1 && round.lane(usize::from(lanes - 1)).is_empty() {
        lanes -= 1;
    }
    lanes
}

/// How many of the commands are seals.
fn seal_count(commands: &[Command]) -> u64 {
    let mut count = 0u64;
    for command in commands {
        if matches!(command, Command::Seal { .. }) {
            count = count.saturating_add(1);
        }
    }
    count
}

/// At most how many entries a round makes: one for each command, and a close for each seal. Room for them is
/// made at the start, so that no lane asks for it while others wait.
fn most_entries(round: &Round, seals: u64) -> u64 {
    let mut most = seals;
    for lane in 0..Round::LANES {
        most = most.saturating_add(round.lane(lane).len() as u64);
    }
    most
}
