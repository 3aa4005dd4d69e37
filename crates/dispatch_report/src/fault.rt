ghost use Rattle.std.specs.Prelude.{◌≡◌};
ghost use Rattle.dispatch_report.specs.declared.fault.ReportFault.TheVariants.{WriteFault, OutOfMemory as NoMemory};
ghost use Rattle.pool_io.specs.declared.writing.WriteAll.TheVariants as of_write;

use pool_base::OutOfMemory;
use pool_io::WriteAll;

/// Why a text wasn't written whole.
#[derive(Clone, Copy)]
pub enum ReportFault {
    /// A write of the sink failed.
    WriteFault,
    /// There was no memory for a line.
    OutOfMemory,
}

impl From<WriteAll> for ReportFault {
    ghost from_gives = { λ fault e. e ≡ elim fault [ of_write.WriteFault ↦ WriteFault | of_write.OutOfMemory ↦ NoMemory ] };

    fn from(fault: WriteAll) -> ReportFault {
        match fault {
            WriteAll::WriteFault => ReportFault::WriteFault,
            WriteAll::OutOfMemory => ReportFault::OutOfMemory,
        }
    }
}

impl From<OutOfMemory> for ReportFault {
    ghost from_gives = { λ _ e. e ≡ NoMemory };

    fn from(_fault: OutOfMemory) -> ReportFault {
        ReportFault::OutOfMemory
    }
}
