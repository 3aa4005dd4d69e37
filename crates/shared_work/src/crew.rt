//! All workers together.
ghost use Rattle.std.specs.Prelude.{◌≡◌, ℕ, ◌<◌, ◌≤◌, [], All, IfOk, length, vec_len};
ghost use Rattle.shared_work.specs.work.Claims.{draws};
ghost use Rattle.shared_work.specs.work.Workers.{IsReady, HasWorked, HaveEnded, EachDoneOnce, AreDoneRight};

use crate::claims::{Claims, Hand, Parts};
use crate::gate::Gate;
use crate::job::Job;
use crate::worker::{Done, Worker, work};
use pool_base::OutOfMemory;
use std::alloc::Global;
use std::thread;
use std::thread::Threads;

// So many workers, each with a seat of its own.
pub(crate) fn hire<O: Drop>(
    alloc: Global,
    claims: &Claims,
    mut first: Hand,
    workers: u8,
) -> Result<Vec<Worker<O>>, OutOfMemory>
    requires own { (first.table_id ≡ claims.now.shared.table_id) × (claims.now.shared.table_id.words ≡ 1) }
    requires fresh { first.me ≡ (draws workers [], []) }
    ensures len { IfOk result (λ crew. vec_len crew ≡ workers) }
    ensures ready { IfOk result (λ crew. All (IsReady claims.now.shared.table_id) crew.items) }
{
    let mut crew = Vec::with_capacity(alloc, usize::from(workers))?;
    for _ in 0..workers {
        let hand = claims.shared.split_seat::<Parts>(&mut first);
        crew.push_reserved(Worker {
            hand,
            done: Vec::new(alloc),
            ended: false,
        });
    }
    Ok(crew)
}

// Each worker works on a thread of its own, or on the caller's where no thread can be made.
pub(crate) fn work_all<J: Job, G: Gate, R: Threads + Sync>(
    rt: &R,
    alloc: Global,
    claims: &Claims,
    pieces: u32,
    job: &J,
    gate: &G,
    crew: &mut Vec<Worker<J::Out>>,
)
    requires claims { (claims.now.shared.table_id.words ≡ 1) × (claims.now.shared.key.pieces ≡ pieces) }
    requires crew { 0 < vec_len crew.old }
    requires ready { All (IsReady claims.now.shared.table_id) crew.old.items }
    requires can { (k : ℕ) → k < pieces → J.can job.now k }
    ensures len { vec_len crew.new ≡ vec_len crew.old }
    ensures worked { All (HasWorked claims.now.shared.table_id pieces) crew.new.items }
    ensures right { All (λ w. AreDoneRight pieces (J.right job.now) w.done.items) crew.new.items }
{
    let threads = crew.len();
    thread::for_each_mut(
        rt,
        crew.as_mut_slice(),
        threads,
        &|_: usize, worker: &mut Worker<J::Out>|
            requires { (claims.now.shared.table_id.words ≡ 1) × (claims.now.shared.key.pieces ≡ pieces) × IsReady claims.now.shared.table_id worker.now × ((k : ℕ) → k < pieces → J.can job.now k) }
        { work(alloc, claims, pieces, job, gate, worker) },
    );
}

// All that the workers have done. One that did not end lacked memory.
pub(crate) fn gather<J: Job>(
    claims: &Claims,
    mut crew: Vec<Worker<J::Out>>,
) -> Result<Worker<J::Out>, OutOfMemory>
    requires claims { claims.now.shared.table_id.words ≡ 1 }
    requires crew { 0 < vec_len crew }
    requires worked { All (HasWorked claims.now.shared.table_id claims.now.shared.key.pieces) crew.items }
    ensures ended { IfOk result (HaveEnded claims.now.shared.table_id claims.now.shared.key.pieces (vec_len crew)) }
    ensures right { (job : J) → All (λ w. AreDoneRight claims.now.shared.key.pieces (J.right job) w.done.items) crew.items → IfOk result (λ w. AreDoneRight claims.now.shared.key.pieces (J.right job) w.done.items) }
{
    let Some(mut all) = crew.pop() else {
        unreachable!()
    };
    while let Some(worker) = crew.pop() {
        let Worker {
            hand,
            mut done,
            ended,
        } = worker;
        claims.shared.join_seat::<Parts>(&mut all.hand, hand);
        all.done.append(&mut done)?;
        all.ended &= ended;
    }
    if !all.ended {
        return Err(OutOfMemory);
    }
    Ok(all)
}

// What was done, once no worker is left.
pub(crate) fn close<O>(claims: Claims, all: Worker<O>) -> Vec<Done<O>>
    requires slots { claims.shared.table_id.slots ≡ 0 }
    requires ended { HaveEnded claims.shared.table_id claims.shared.key.pieces claims.shared.key.workers all }
    ensures done { result.items ≡ all.done.items }
    ensures once { EachDoneOnce claims.shared.key.pieces result.items }
{
    let Worker {
        hand,
        done,
        ended: _,
    } = all;
    let closed = claims.close_with(hand);
    closed.free();
    done
}
