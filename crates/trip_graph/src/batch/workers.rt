//! Who grows the levels.
ghost use Rattle.std.specs.Prelude.{◌≡◌, ℕ, ◌<◌, ◌≤◌, IfOk, vec_len};
ghost use Rattle.shared_work.specs.Outs.{AreRight};

use pool_base::OutOfMemory;
use shared_work::{Gate, Job, run_pieces};
use std::alloc::Global;
use std::thread::Threads;

/// So many workers, the runtime that makes their threads, and the gate that hears of each piece.
#[derive(Drop)]
pub(crate) struct Workers<'a, R, G> {
    pub(crate) rt: &'a R,
    pub(crate) count: u8,
    pub(crate) gate: &'a G,
    ghost some: { 1 ≤ count },
    ghost few: { count ≤ 64 },
}

impl<R: Threads + Sync, G: Gate> Workers<'_, R, G> {
    /// Does each piece of a job once, and gives the outs in the order of the pieces.
    pub(crate) fn run<J: Job>(
        &self,
        alloc: Global,
        pieces: u32,
        job: &J,
    ) -> Result<Vec<J::Out>, OutOfMemory>
        requires { (k : ℕ) → k < pieces → J.can job.now k }
        ensures count { IfOk result (λ outs. vec_len outs ≡ pieces) }
        ensures right { IfOk result (λ outs. AreRight (J.right job.now) outs.items) }
    {
        run_pieces(self.rt, alloc, self.count, pieces, job, self.gate)
    }
}
