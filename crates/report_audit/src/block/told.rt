//! What a block tells, whether it is good or not.
ghost use Rattle.std.specs.Prelude.{◌≡◌, ◌≢◌, ◌++◌, ℕ, IfErr, IfOk, List, length, true};
ghost use Rattle.dispatch_report.specs.Block.{block_lines};
ghost use Rattle.dispatch_report.specs.Lines.{lines_text};
ghost use Rattle.report_audit.specs.block.Block.{BeginsWithGood};
ghost use Rattle.report_audit.specs.declared.block.refusal.BlockRefusal.TheVariants.{OutOfMemory as NoMemory};
ghost use Rattle.request_book.specs.declared.values.outcome.Outcome.{Outcome as OneOutcome};
ghost use Rattle.rider_limits.specs.declared.settings.Settings.{Settings};
ghost use Rattle.road_network.specs.Roads.{Roads};

use crate::block::block::AuditedBlock;
use crate::block::block_lists::told_by;
use crate::block::judged::outcome_of;
use crate::block::refusal::{BlockRefusal, refusal_of};
use crate::block::telling::untold_point;
use crate::lines::block_lines::read_block;
use crate::points::verdict::Verdict;
use dispatch_engine::Point;
use request_book::Snapshot;
use std::alloc::Global;

/// The outcome that the block of this batch tells, with which the text begins, what follows it, and how many lines it has.
/// Nothing is judged: an outcome of this batch is taken as it is told. A block that a run may print is read: where the text
/// begins with the block of a good outcome, by whatever settings and network, it is this one.
///
/// `Cut` and `Form` come where the text begins with no block in form, `Wrong` where it tells another batch's number, or what
/// no outcome can tell.
pub fn read_outcome<'a>(
    alloc: Global,
    text: &'a [u8],
    snapshot: &Snapshot,
) -> Result<AuditedBlock<'a>, BlockRefusal>
    ensures told { IfOk result (λ found. text.entry.now ≡ lines_text (block_lines true snapshot.entry.now.number found.outcome) ++ found.rest.now) }
    ensures lines { IfOk result (λ found. found.lines ≡ length (block_lines true snapshot.entry.now.number found.outcome)) }
    ensures only { IfOk result (λ found. (settings : Settings) (roads : Roads) (outcome : OneOutcome) (rest : List ℕ)
        → BeginsWithGood settings roads snapshot.entry.now text.entry.now outcome rest → (outcome ≡ found.outcome) × (rest ≡ found.rest.now)) }
    ensures none { IfErr result (λ refusal. refusal ≢ NoMemory → (settings : Settings) (roads : Roads) (outcome : OneOutcome) (rest : List ℕ)
        → BeginsWithGood settings roads snapshot.entry.now text.entry.now outcome rest → ⊥) }
{
    let (lines, rest) = match read_block(alloc, text) {
        Ok(block) => block,
        Err(fault) => return Err(refusal_of(fault)),
    };
    let count = lines.len() as u64;
    let told = told_by(alloc, lines)?;
    if told.batch != snapshot.batch {
        drop(told);
        return Err(BlockRefusal::Wrong {
            point: Point::Answer,
        });
    }
    if let Verdict::Fails(point) = untold_point(&told) {
        drop(told);
        return Err(BlockRefusal::Wrong { point });
    }
    let outcome = outcome_of(alloc, told, snapshot.vehicles.as_slice())?;
    Ok(AuditedBlock {
        outcome,
        rest,
        lines: count,
    })
}
