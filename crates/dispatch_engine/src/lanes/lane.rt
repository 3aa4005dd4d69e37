//! A lane's commands, called by its pass, with the batches that it seals.
ghost use Rattle.std.specs.Prelude.{◌≡◌, ◌∷◌, [], All, Contains, OnErr, OnOk};
ghost use Rattle.request_book.specs.Points.{named_nodes};
ghost use Rattle.dispatch_engine.specs.outcome.Outcome.{IsGoodOutcome};
ghost use Rattle.request_book.specs.declared.values.outcome.Outcome.{Outcome as OneOutcome};
ghost use Rattle.input_rows.specs.script.Round.{MayStand};
ghost use Rattle.seat_lock.specs.Values.{IsPassOf};
ghost use Rattle.dispatch_engine.specs.lanes.Shared.{IsSamePass};
ghost use Rattle.dispatch_engine.specs.lanes.Lane.{HasRun, IsLaneBeginning, IsLaneRun};
ghost use Rattle.dispatch_engine.specs.work.lanes.Crew.{HasTaken};

use crate::lanes::shared::{Pass, SealReceipt, SharedBook};
use crate::solver::BatchSolver;
use pool_base::{OutOfMemory, Second};
use request_book::{Command, Snapshot};
use row_tables::Drafter;
use shared_work::Gate;
use std::alloc::Global;
use std::sync::Wait;
use std::thread::Threads;
use travel_times::Ways;

/// Calls the book with a lane's commands, in their order, and closes each batch that a seal put up before
/// the next command, with an outcome that is good for it. The batch is solved while other lanes go on.
///
/// The search follows what the drafter drafts and judges it, and the gate hears of each receipt.
///
/// A seal stands in lane 0 alone, and no command is a close. After `OutOfMemory` the commands were taken
/// up to some place: the pass's new calls are a beginning of such a run.
pub fn run_lane<W: Ways, D: Drafter, G: Gate>(
    rt: &(impl Threads + Wait + Sync),
    alloc: Global,
    book: &SharedBook,
    pass: &mut Pass,
    commands: &[Command],
    solver: &BatchSolver<'_, W, D, G>,
) -> Result<(), OutOfMemory>
    requires own { IsPassOf book.now pass.old }
    requires stand { All (MayStand pass.old.lane) commands.now }
    requires nodes { book.now.start.nodes ≡ solver.now.network.now.nodes }
    ensures pass { IsPassOf book.now pass.new × (pass.new.lane ≡ pass.old.lane) }
    ensures run { OnOk result (HasRun solver.now.settings.now solver.now.network.now (IsLaneRun commands.now) pass.old pass.new) }
    ensures begun { OnErr result (HasRun solver.now.settings.now solver.now.network.now (IsLaneBeginning commands.now) pass.old pass.new) }
{
    for command in commands {
        run_command(rt, alloc, book, pass, command, solver)?;
    }
    Ok(())
}

fn run_command<W: Ways, D: Drafter, G: Gate>(
    rt: &(impl Threads + Wait + Sync),
    alloc: Global,
    book: &SharedBook,
    pass: &mut Pass,
    command: &Command,
    solver: &BatchSolver<'_, W, D, G>,
) -> Result<(), OutOfMemory>
    requires own { IsPassOf book.now pass.old }
    requires stands { MayStand pass.old.lane command.now }
    requires nodes { book.now.start.nodes ≡ solver.now.network.now.nodes }
    ensures pass { IsPassOf book.now pass.new × (pass.new.lane ≡ pass.old.lane) }
    ensures run { OnOk result (HasRun solver.now.settings.now solver.now.network.now (IsLaneRun (command.now ∷ [])) pass.old pass.new) }
    ensures begun { OnErr result (HasRun solver.now.settings.now solver.now.network.now (IsLaneBeginning (command.now ∷ [])) pass.old pass.new) }
{
    match command {
        Command::Seal { now } => run_seal(rt, alloc, book, pass, *now, solver),
        _ => take(rt, alloc, book, pass, command.copied(), solver.gate),
    }
}

/// Seals a batch and, where one was put up, closes it.
fn run_seal<W: Ways, D: Drafter, G: Gate>(
    rt: &(impl Threads + Wait + Sync),
    alloc: Global,
    book: &SharedBook,
    pass: &mut Pass,
    now: Second,
    solver: &BatchSolver<'_, W, D, G>,
) -> Result<(), OutOfMemory>
    requires own { IsPassOf book.now pass.old }
    requires nodes { book.now.start.nodes ≡ solver.now.network.now.nodes }
    ensures pass { IsPassOf book.now pass.new × (pass.new.lane ≡ pass.old.lane) }
    ensures run { OnOk result (HasRun solver.now.settings.now solver.now.network.now (IsLaneRun (Command.Seal now ∷ [])) pass.old pass.new) }
    ensures begun { OnErr result (HasRun solver.now.settings.now solver.now.network.now (IsLaneBeginning (Command.Seal now ∷ [])) pass.old pass.new) }
{
    let SealReceipt {
        receipt: _,
        snapshot,
    } = book.seal(rt, alloc, pass, now)?;
    solver.gate.answered(pass.lane());
    let Some(snapshot) = snapshot else {
        return Ok(());
    };
    close_batch(rt, alloc, book, pass, &snapshot, solver)
}

/// Solves a sealed batch outside the lock, and closes it.
fn close_batch<W: Ways, D: Drafter, G: Gate>(
    rt: &(impl Threads + Wait + Sync),
    alloc: Global,
    book: &SharedBook,
    pass: &mut Pass,
    snapshot: &Snapshot,
    solver: &BatchSolver<'_, W, D, G>,
) -> Result<(), OutOfMemory>
    requires own { IsPassOf book.now pass.old }
    requires known { All (λ node. Contains solver.now.network.now.nodes node) (named_nodes snapshot.now) }
    ensures pass { IsPassOf book.now pass.new × (pass.new.lane ≡ pass.old.lane) }
    ensures closed { OnOk result ((outcome : OneOutcome) × IsGoodOutcome solver.now.settings.now solver.now.network.now snapshot.entry.now outcome × HasTaken book.now.start.nodes pass.old (Command.Close snapshot.entry.now.number outcome) pass.new) }
    ensures refused { OnErr result (IsSamePass pass.old pass.new) }
{
    let outcome = solver.solve(rt, alloc, snapshot)?;
    let close = Command::Close {
        batch: snapshot.batch,
        outcome,
    };
    take(rt, alloc, book, pass, close, solver.gate)
}

/// Calls the book with a command; what it replies stands in the pass. The gate hears of the receipt when the
/// lock's turn is given back.
fn take<G: Gate>(
    rt: &impl Wait,
    alloc: Global,
    book: &SharedBook,
    pass: &mut Pass,
    command: Command,
    gate: &G,
) -> Result<(), OutOfMemory>
    requires { IsPassOf book.now pass.old }
    ensures pass { IsPassOf book.now pass.new × (pass.new.lane ≡ pass.old.lane) }
    ensures taken { OnOk result (HasTaken book.now.start.nodes pass.old command pass.new) }
    ensures refused { OnErr result (IsSamePass pass.old pass.new) }
{
    match book.call(rt, alloc, pass, command) {
        Ok(_receipt) => {
            gate.answered(pass.lane());
            Ok(())
        }
        Err(fault) => Err(fault),
    }
}
