//! The faults of a kept part, by their lines.
ghost use Rattle.std.specs.Prelude.{◌≡◌};
ghost use Rattle.report_audit.specs.declared.block.refusal.BlockRefusal.TheVariants.{OutOfMemory as NoBlockMemory};
ghost use Rattle.report_audit.specs.declared.report.fault.AuditFault.TheVariants.{OutOfMemory as NoMemory};

use report_audit::{AuditFault, BlockRefusal};

/// How many lines a head has.
const HEAD_LINES: u64 = 4;

/// The number of the line with which the rest of a text behind a head begins. Lines count from the first of the head.
pub(crate) fn line_at(text: &[u8], rest: &[u8]) -> u64 {
    feeds(&text[..text.len().saturating_sub(rest.len())]).saturating_add(HEAD_LINES + 1)
}

/// How many line feeds a text has.
fn feeds(text: &[u8]) -> u64 {
    text.iter().filter(|byte| **byte == b'\n').count() as u64
}

/// The fault of a block behind the close of this line.
pub(crate) fn block_fault(closing: u64, refusal: BlockRefusal) -> AuditFault
    ensures { refusal ≡ NoBlockMemory → result ≡ NoMemory }
{
    let line = closing.saturating_add(1);
    match refusal {
        BlockRefusal::OutOfMemory => AuditFault::OutOfMemory,
        BlockRefusal::Cut { lines } => AuditFault::Cut {
            line: line.saturating_add(lines),
        },
        BlockRefusal::Form { lines } => AuditFault::Form {
            line: line.saturating_add(lines),
        },
        BlockRefusal::Wrong { point } => AuditFault::Batch { line, point },
    }
}
