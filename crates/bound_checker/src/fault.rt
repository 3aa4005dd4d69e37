ghost use Rattle.std.specs.Prelude.{◌≡◌};
ghost use Rattle.bound_checker.specs.declared.fault.CheckFault.TheVariants.{OutOfMemory};

use pool_base::OutOfMemory as NoMemory;
use std::alloc::AllocError;

/// Why a tree is refused; nodes count from 0, in preorder.
#[derive(Clone, Copy)]
pub enum CheckFault {
    /// The row isn't among the vehicle's allowed rows, or they are fewer than two.
    BadBranch { node: u64 },
    /// There isn't one multiplier for each rider.
    BadLeaf { node: u64 },
    /// No rider stands in two sole allowed rows, and each rider who must be served stands in an allowed row.
    BadDead { node: u64 },
    /// The list ends before the tree.
    Unfinished,
    /// The node stands after the tree's end.
    Extra { node: u64 },
    OutOfMemory,
}

impl From<AllocError> for CheckFault {
    ghost from_gives = { λ _ e. e ≡ OutOfMemory };

    fn from(_error: AllocError) -> CheckFault {
        CheckFault::OutOfMemory
    }
}

impl From<NoMemory> for CheckFault {
    ghost from_gives = { λ _ e. e ≡ OutOfMemory };

    fn from(_error: NoMemory) -> CheckFault {
        CheckFault::OutOfMemory
    }
}
