//! One worker.
ghost use Rattle.std.specs.Prelude.{◌≡◌, ℕ, ◌<◌};
ghost use Rattle.shared_work.specs.work.Workers.{IsReady, HasWorked, AreDoneRight};

use crate::claims::{Claims, Hand, draw};
use crate::gate::Gate;
use crate::job::Job;
use std::alloc::Global;

/// A piece that is done, with its out.
#[derive(Drop)]
pub(crate) struct Done<O> {
    pub(crate) piece: u32,
    pub(crate) out: O,
}

/// A worker with its seat at the claim word, what it has done, and whether it came to the end of the
/// pieces. It did not where memory ran out.
#[derive(Drop)]
pub(crate) struct Worker<O> {
    pub(crate) hand: Hand,
    pub(crate) done: Vec<Done<O>>,
    pub(crate) ended: bool,
}

// Claims pieces and does them, until none is left or memory runs out.
pub(crate) fn work<J: Job, G: Gate>(
    alloc: Global,
    claims: &Claims,
    pieces: u32,
    job: &J,
    gate: &G,
    worker: &mut Worker<J::Out>,
)
    requires claims { (claims.now.shared.table_id.words ≡ 1) × (claims.now.shared.key.pieces ≡ pieces) }
    requires ready { IsReady claims.now.shared.table_id worker.old }
    requires can { (k : ℕ) → k < pieces → J.can job.now k }
    ensures worked { HasWorked claims.now.shared.table_id pieces worker.new }
    ensures right { AreDoneRight pieces (J.right job.now) worker.new.done.items }
{
    loop {
        let number = draw(claims, &mut worker.hand);
        if number >= u64::from(pieces) {
            worker.ended = true;
            return;
        }
        let piece = number as u32;
        gate.enter(piece);
        let Ok(out) = job.run(alloc, piece) else {
            return;
        };
        let Ok(()) = worker.done.push(Done { piece, out }) else {
            return;
        };
    }
}
