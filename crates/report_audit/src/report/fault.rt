ghost use Rattle.std.specs.Prelude.{◌≡◌, ◌≢◌, ℕ, List};
ghost use Rattle.request_book.specs.declared.values.vehicle.Vehicle.{Vehicle};
ghost use Rattle.report_audit.specs.declared.block.refusal.BlockRefusal.TheVariants.{OutOfMemory as NoBlockMemory};
ghost use Rattle.report_audit.specs.report.Fault.{FailsAt, HasFault, IsWrongBatch};
ghost use Rattle.report_audit.specs.declared.report.fault.AuditFault.TheVariants.{OutOfMemory as NoMemory};
ghost use Rattle.report_audit.specs.work.report.Standing.{fault_of_head};
ghost use Rattle.road_network.specs.Roads.{Roads};
ghost use Rattle.input_rows.specs.script.Round.{NumberedLanes};

use crate::block::refusal::BlockRefusal;
use crate::lines::head_fault::HeadFault;
use dispatch_engine::Point;
use pool_base::OutOfMemory;

/// What an audit says of a report that is one of its script.
#[derive(Clone, Copy)]
pub struct Audited {
    /// How many entries all rounds have.
    pub entries: u64,
    /// How many batches were closed.
    pub batches: u64,
}

/// Why a text isn't the report of a run. Lines count from 1.
#[derive(Clone, Copy)]
pub enum AuditFault {
    /// The text ends, before or within this line, where a whole line must follow; or it ends with a part of a line behind
    /// the last one.
    Cut { line: u64 },
    /// The line has the form of none that may stand there.
    Form { line: u64 },
    /// The line of the settings has one out of its range or isn't of a report with trees, or the line of the network or of
    /// the fleet has another count than the inputs.
    Head { line: u64 },
    /// The line is in form, and no run that begins as the report does goes on with it.
    Entry { line: u64 },
    /// The block that begins with this line is in form, and of its outcome this point is the first that fails.
    Batch { line: u64, point: Point },
    OutOfMemory,
}

impl From<OutOfMemory> for AuditFault {
    ghost from_gives = { λ _ e. e ≡ NoMemory };

    fn from(_error: OutOfMemory) -> AuditFault {
        AuditFault::OutOfMemory
    }
}

/// The fault of a head.
pub(crate) fn of_head(fault: HeadFault) -> AuditFault
    ensures { result ≡ fault_of_head fault }
{
    match fault {
        HeadFault::Cut { line } => AuditFault::Cut { line },
        HeadFault::Form { line } => AuditFault::Form { line },
        HeadFault::Head { line } => AuditFault::Head { line },
    }
}

/// The fault of a block behind the close of this line.
pub(crate) fn block_fault(closing: u64, refusal: BlockRefusal) -> AuditFault
    ensures { (roads : Roads) (vehicles : List Vehicle) (rounds : List NumberedLanes) (workers : ℕ) (text : List ℕ)
        → (refusal ≢ NoBlockMemory → FailsAt roads vehicles rounds workers text (IsWrongBatch refusal) closing) → HasFault roads vehicles rounds workers text result }
{
    let line = closing.saturating_add(1);
    match refusal {
        BlockRefusal::OutOfMemory => AuditFault::OutOfMemory,
        BlockRefusal::Cut { lines } => AuditFault::Cut {
            line: line.saturating_add(lines),
        },
        BlockRefusal::Form { lines } => AuditFault::Form {
            line: line.saturating_add(lines),
        },
        BlockRefusal::Wrong { point } => AuditFault::Batch { line, point },
    }
}
