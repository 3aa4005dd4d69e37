ghost use Rattle.std.specs.Prelude.{◌≡◌, [], All, Contains};
ghost use Rattle.request_book.specs.Points.{named_nodes};
ghost use Rattle.seat_lock.specs.Values.{IsPassOf};
ghost use Rattle.live_dispatch.specs.Phase.{ClosesBatch, commands_in};

use crate::desk::{Desk, LaneCommand, Opening};
use dispatch_engine::BatchSolver;
use pool_io::Sink;
use request_book::{Command, Notifier, Snapshot};
use row_tables::Drafter;
use seat_lock::{Pass, SeatLock};
use shared_work::Gate;
use std::alloc::Global;
use std::sync::Wait;
use std::thread::Threads;
use travel_times::Ways;

/// Solves the batch and closes it, and says whether it did.
pub(crate) fn close_batch<K: Sink, N: Notifier, J: Opening, W: Ways, D: Drafter, G: Gate>(
    rt: &(impl Threads + Wait + Sync),
    alloc: Global,
    lock: &SeatLock<Desk<K, N, J>>,
    pass: &mut Pass<Desk<K, N, J>>,
    snapshot: &Snapshot,
    solver: &BatchSolver<'_, W, D, G>,
) -> bool
    requires own { IsPassOf lock.now pass.old }
    requires lane { (pass.old.lane ≡ 0) × (pass.old.calls ≡ []) }
    requires nodes { All (λ node. Contains solver.now.network.now.nodes node) (named_nodes snapshot.now) }
    ensures own { IsPassOf lock.now pass.new }
    ensures lane { pass.new.lane ≡ 0 }
    ensures closed { ClosesBatch solver.now.settings.now solver.now.network.now snapshot.entry.now result (commands_in pass.new) }
{
    let Ok(outcome) = solver.solve(rt, alloc, snapshot) else {
        solver.gate.gave_up();
        return false;
    };
    let close = LaneCommand {
        lane: 0,
        command: Command::Close {
            batch: snapshot.batch,
            outcome,
        },
    };
    match lock.with_turn(rt, alloc, pass, close) {
        Ok(_) => true,
        Err(_) => {
            solver.gate.gave_up();
            false
        }
    }
}
