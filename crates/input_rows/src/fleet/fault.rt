ghost use Rattle.std.specs.Prelude.{◌≡◌};
ghost use Rattle.input_rows.specs.declared.fleet.fault.FleetFault.TheVariants.{OutOfMemory as NoMemory, Number as NoNumber};

use crate::cells::CellFault;
use std::alloc::AllocFailed;

/// Why a fleet is refused. Rows count from 1 behind the header, and columns from 1.
#[derive(Clone, Copy)]
pub enum FleetFault {
    /// There are more than 500 rows.
    TooManyVehicles,
    /// The field is no number, or a number above 1,000,000,000.
    Number { row: u64, column: u64 },
    /// The seats are not 1 to 10.
    Seats { row: u64 },
    /// The network doesn't have the node.
    UnknownNode { row: u64 },
    /// An earlier row has the same vehicle.
    Duplicate { row: u64 },
    OutOfMemory,
}

impl<T: Drop> From<AllocFailed<T>> for FleetFault {
    ghost from_gives = { λ _ e. e ≡ NoMemory };

    fn from(_error: AllocFailed<T>) -> FleetFault {
        FleetFault::OutOfMemory
    }
}

impl CellFault for FleetFault {
    ghost of_cell = { NoNumber };

    fn at_cell(row: u64, column: u64) -> FleetFault {
        FleetFault::Number { row, column }
    }
}
