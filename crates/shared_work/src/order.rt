//! Outs in the order of their pieces.
ghost use Rattle.std.specs.Prelude.{◌≡◌, ℕ, IfOk, vec_len};
ghost use Rattle.shared_work.specs.Outs.{AreRight};
ghost use Rattle.shared_work.specs.work.Workers.{AreDoneRight, EachDoneOnce};

use crate::job::Job;
use crate::worker::Done;
use pool_base::OutOfMemory;
use std::alloc::Global;

// The outs, by rising piece. Where each of so many pieces was done once and right, each stands at its place.
pub(crate) fn in_order<J: Job>(
    alloc: Global,
    mut done: Vec<Done<J::Out>>,
) -> Result<Vec<J::Out>, OutOfMemory>
    ensures { (pieces : ℕ) (job : J) → AreDoneRight pieces (J.right job) done.items → EachDoneOnce pieces done.items
        → IfOk result (λ outs. (vec_len outs ≡ pieces) × AreRight (J.right job) outs.items) }
{
    done.sort_unstable_by_key(|d| d.piece);
    let outs = done.into_iter().map(|d| d.out).collect(alloc)?;
    Ok(outs)
}
