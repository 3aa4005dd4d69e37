ghost use Rattle.std.specs.Prelude.{◌≡◌};
ghost use Rattle.input_rows.specs.declared.script.fault.ScriptFault.TheVariants.{OutOfMemory as NoMemory, Number as NoNumber};

use crate::cells::CellFault;
use std::alloc::{AllocError, AllocFailed};

/// Why a script is refused. Rows count from 1 behind the header, and columns from 1.
#[derive(Clone, Copy)]
pub enum ScriptFault {
    /// There are more than 200,000 rows.
    TooManyRows,
    /// The field is no number, or a number above 1,000,000,000.
    Number { row: u64, column: u64 },
    /// The lane is above 15.
    LaneRange { row: u64 },
    /// The round is below the round of the row before.
    RoundBack { row: u64 },
    /// The third field is no command.
    UnknownCommand { row: u64 },
    /// The party is not 1 to 6.
    Party { row: u64 },
    /// A field that the command doesn't use isn't empty.
    ExtraField { row: u64 },
    /// A seal stands in another lane than 0.
    SealLane { row: u64 },
    OutOfMemory,
}

impl From<AllocError> for ScriptFault {
    ghost from_gives = { λ _ e. e ≡ NoMemory };

    fn from(_error: AllocError) -> ScriptFault {
        ScriptFault::OutOfMemory
    }
}

impl<T: Drop> From<AllocFailed<T>> for ScriptFault {
    ghost from_gives = { λ _ e. e ≡ NoMemory };

    fn from(_error: AllocFailed<T>) -> ScriptFault {
        ScriptFault::OutOfMemory
    }
}

impl CellFault for ScriptFault {
    ghost of_cell = { NoNumber };

    fn at_cell(row: u64, column: u64) -> ScriptFault {
        ScriptFault::Number { row, column }
    }
}
