ghost use Rattle.std.specs.Prelude.{◌≡◌};
ghost use Rattle.live_dispatch.specs.work.Standing.{of_line, of_report};

use dispatch_report::ReportFault;
use input_rows::LineFault;

/// Why a run ended before its rows.
#[derive(Clone, Copy)]
pub enum LiveFault {
    /// A read of the rows failed.
    ReadFault,
    /// A write of the report failed.
    WriteFault,
    /// There was no memory.
    OutOfMemory,
}

pub(crate) fn fault_of_text(fault: ReportFault) -> LiveFault
    ensures { result ≡ of_report fault }
{
    match fault {
        ReportFault::WriteFault => LiveFault::WriteFault,
        ReportFault::OutOfMemory => LiveFault::OutOfMemory,
    }
}

pub(crate) fn fault_of_line(fault: LineFault) -> LiveFault
    ensures { result ≡ of_line fault }
{
    match fault {
        LineFault::ReadFault => LiveFault::ReadFault,
        LineFault::OutOfMemory => LiveFault::OutOfMemory,
    }
}
