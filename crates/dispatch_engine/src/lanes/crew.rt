//! The lanes of a round at work, each on a thread of its own.
ghost use Rattle.std.specs.Prelude.{◌≡◌, true, All, IfOk, IsTrue, map, vec_len};
ghost use Rattle.seat_lock.specs.Values.{AreAllPasses};
ghost use Rattle.dispatch_engine.specs.work.lanes.Crew.{AreInOrder, HasWorked, IsToWork, at_rest};

use crate::lanes::lane::run_lane;
use crate::lanes::shared::{Pass, SharedBook};
use crate::solver::BatchSolver;
use input_rows::Round;
use pool_base::OutOfMemory;
use row_tables::Drafter;
use shared_work::Gate;
use std::alloc::Global;
use std::sync::Wait;
use std::thread;
use std::thread::Threads;
use travel_times::Ways;

/// A lane at work: its pass, and whether all its commands are taken.
#[derive(Drop)]
pub(crate) struct LaneWork {
    pub(crate) pass: Pass,
    pub(crate) done: bool,
}

/// Each lane runs its commands on a thread of its own, or on the caller's where no thread can be made.
pub(crate) fn work_all<W: Ways, D: Drafter, G: Gate>(
    rt: &(impl Threads + Wait + Sync),
    alloc: Global,
    book: &SharedBook,
    round: &Round,
    passes: Vec<Pass>,
    solver: &BatchSolver<'_, W, D, G>,
) -> Result<Vec<LaneWork>, OutOfMemory>
    requires nodes { book.now.start.nodes ≡ solver.now.network.now.nodes }
    requires passes { AreAllPasses book.now passes.items }
    requires fresh { All (λ pass. IsToWork book.now (at_rest pass)) passes.items }
    ensures len { IfOk result (λ crew. vec_len crew ≡ vec_len passes) }
    ensures order { IfOk result (λ crew. AreInOrder crew.items) }
    ensures worked { IfOk result (λ crew. All (HasWorked solver.now.settings.now solver.now.network.now round.now book.now) crew.items) }
{
    let crew = thread::map_vec(
        rt,
        passes,
        &|pass: Pass| -> LaneWork
            requires { (book.now.start.nodes ≡ solver.now.network.now.nodes) × IsToWork book.now (at_rest pass) }
        { work(rt, alloc, book, round, pass, solver) },
    )?;
    Ok(crew)
}

fn work<W: Ways, D: Drafter, G: Gate>(
    rt: &(impl Threads + Wait + Sync),
    alloc: Global,
    book: &SharedBook,
    round: &Round,
    mut pass: Pass,
    solver: &BatchSolver<'_, W, D, G>,
) -> LaneWork
    requires nodes { book.now.start.nodes ≡ solver.now.network.now.nodes }
    requires fresh { IsToWork book.now (at_rest pass) }
    ensures worked { HasWorked solver.now.settings.now solver.now.network.now round.now book.now result }
    ensures lane { result.pass.lane ≡ pass.lane }
{
    let commands = round.lane(usize::from(pass.lane()));
    let ran = run_lane(rt, alloc, book, &mut pass, commands, solver);
    let done = ran.is_ok();
    LaneWork { pass, done }
}

/// Whether every lane's commands are all taken.
pub(crate) fn are_done(crew: &[LaneWork]) -> bool
    ensures { IsTrue result → All (λ lane. lane.done ≡ true) crew.now }
{
    for lane in crew {
        if !lane.done {
            return false;
        }
    }
    true
}

pub(crate) fn passes_of(alloc: Global, crew: Vec<LaneWork>) -> Result<Vec<Pass>, OutOfMemory>
    ensures { IfOk result (λ passes. passes.items ≡ map (λ lane. lane.pass) crew.items) }
{
    let passes = crew.into_iter().map(|lane| lane.pass).collect(alloc)?;
    Ok(passes)
}
