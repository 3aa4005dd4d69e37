ghost use Rattle.std.specs.Prelude.{◌≡◌};
ghost use Rattle.plan_rules.specs.declared.fault.GraphFault.TheVariants.{OutOfMemory};

use std::alloc::AllocError;

/// Why rows and held rows are no trip graph. Rows and vehicles count from 0.
#[derive(Clone, Copy)]
pub enum GraphFault {
    /// The first row whose vehicle, riders or cost are out of range, or whose riders don't rise.
    Range { row: u64 },
    /// The first row that isn't above the row before it by vehicle, then size, then riders.
    Order { row: u64 },
    /// The least vehicle that holds another's row, none though it has rows, or a rider that an earlier
    /// one holds; the number of vehicles where only the length of the list differs.
    Held { vehicle: u64 },
    OutOfMemory,
}

impl From<AllocError> for GraphFault {
    ghost from_gives = { λ _ e. e ≡ OutOfMemory };

    fn from(_error: AllocError) -> GraphFault {
        GraphFault::OutOfMemory
    }
}
