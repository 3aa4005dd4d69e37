ghost use Rattle.std.specs.Prelude.{◌≡◌};
ghost use Rattle.report_audit.specs.declared.block.refusal.BlockRefusal.TheVariants.{OutOfMemory as NoMemory};
ghost use Rattle.report_audit.specs.work.block.Block.{refusal_for};

use crate::lines::block_lines::BlockFault;
use dispatch_engine::Point;
use pool_base::OutOfMemory;

/// Why a text begins with no block of a good outcome.
#[derive(Clone, Copy)]
pub enum BlockRefusal {
    OutOfMemory,
    /// So many lines of the block stand, and the text ends before or within the next.
    Cut { lines: u64 },
    /// So many lines of the block stand, and the next can't follow.
    Form { lines: u64 },
    /// The block stands whole, and this is the first point that fails.
    Wrong { point: Point },
}

impl From<OutOfMemory> for BlockRefusal {
    ghost from_gives = { λ _ e. e ≡ NoMemory };

    fn from(_error: OutOfMemory) -> BlockRefusal {
        BlockRefusal::OutOfMemory
    }
}

/// What is said of a text that begins with no block in form.
pub(crate) fn refusal_of(fault: BlockFault) -> BlockRefusal
    ensures { result ≡ refusal_for fault }
{
    match fault {
        BlockFault::OutOfMemory => BlockRefusal::OutOfMemory,
        BlockFault::Cut { lines } => BlockRefusal::Cut { lines },
        BlockFault::Form { lines } => BlockRefusal::Form { lines },
    }
}
