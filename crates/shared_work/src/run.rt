//! Pieces of a job, done by workers.
ghost use Rattle.std.specs.Prelude.{◌≡◌, ℕ, ◌<◌, ◌≤◌, IfOk, vec_len};
ghost use Rattle.shared_work.specs.Outs.{AreRight};

use crate::claims::{Claims, Quota};
use crate::crew::{close, gather, hire, work_all};
use crate::gate::Gate;
use crate::job::Job;
use crate::order::in_order;
use atomic_table::Table;
use pool_base::OutOfMemory;
use std::alloc::Global;
use std::thread::Threads;

/// Does each piece of a job once, by 1 to 64 workers at a time, and gives the outs in the order of the
/// pieces. A worker claims the next piece by one atomic step. The caller's thread does the work that no
/// thread can be made for.
///
/// `OutOfMemory` of the job is handed on once the other workers are done.
pub fn run_pieces<J: Job, G: Gate, R: Threads + Sync>(
    rt: &R,
    alloc: Global,
    workers: u8,
    pieces: u32,
    job: &J,
    gate: &G,
) -> Result<Vec<J::Out>, OutOfMemory>
    requires workers { (1 ≤ workers) × (workers ≤ 64) }
    requires can { (k : ℕ) → k < pieces → J.can job.now k }
    ensures count { IfOk result (λ outs. vec_len outs ≡ pieces) }
    ensures right { IfOk result (λ outs. AreRight (J.right job.now) outs.items) }
{
    let workers = useful(workers, pieces);
    let (claims, first): (Claims, _) = Table::of_words(alloc, &[0], &Quota { pieces, workers })?;
    let mut crew = hire(alloc, &claims, first, workers)?;
    work_all(rt, alloc, &claims, pieces, job, gate, &mut crew);
    let all = gather::<J>(&claims, crew)?;
    in_order::<J>(alloc, close(claims, all))
}

// No more workers than pieces, and at least one.
fn useful(workers: u8, pieces: u32) -> u8
    requires { 1 ≤ workers }
    ensures some { 1 ≤ result }
    ensures most { result ≤ workers }
{
    match u8::try_from(pieces) {
        Ok(pieces) => workers.min(pieces).max(1),
        Err(_) => workers,
    }
}
