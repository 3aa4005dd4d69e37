//! The audit of a block.
ghost use Rattle.std.specs.Prelude.{◌≡◌, ◌≢◌, ℕ, true, All, Contains, IfOk, IfErr, List, length};
ghost use Rattle.request_book.specs.Points.{named_nodes};
ghost use Rattle.dispatch_report.specs.Block.{block_lines};
ghost use Rattle.request_book.specs.declared.values.outcome.Outcome.{Outcome as OneOutcome};
ghost use Rattle.report_audit.specs.block.Block.{BeginsWithGood, Refuses};
ghost use Rattle.report_audit.specs.declared.block.refusal.BlockRefusal.TheVariants.{OutOfMemory as NoMemory};

use crate::block::block_lists::told_by;
use crate::block::judged::outcome_of;
use crate::block::refusal::{BlockRefusal, refusal_of};
use crate::block::telling::untold_point;
use crate::lines::block_lines::read_block;
use crate::points::judging::judge;
use crate::points::verdict::{Verdict, earlier};
use dispatch_engine::Point;
use request_book::{Outcome, Snapshot};
use rider_limits::Settings;
use road_network::Network;
use shared_work::Gate;
use std::alloc::Global;
use std::thread::Threads;
use travel_times::Ways;

/// A good outcome whose block was read.
#[derive(Drop)]
pub struct AuditedBlock<'a> {
    pub outcome: Outcome,
    /// What follows the block.
    pub rest: &'a [u8],
    /// How many lines the block has.
    pub lines: u64,
}

/// The good outcome of this batch with whose block the text begins, what follows it, and how many lines it has.
///
/// `Cut` and `Form` come where the text begins with no block in form, `Wrong` where it does and the block isn't a good
/// outcome's: the answer fails where the batch's number, the riders whose wait ended, or whether there are too many rows is
/// told wrongly, and the other points as `judge` has them. Lines may tell what no outcome can: a row of more than six riders
/// fails the graphs, a late vehicle with more than ten stops the late vehicles, a chosen trip with more than 22 stops the
/// trips, and the bound fails where the number in `nodes` isn't that of the tree's lines or a `branch` names no row of its
/// vehicle.
pub fn audit_block<'a, W: Ways, G: Gate>(
    rt: &(impl Threads + Sync),
    alloc: Global,
    text: &'a [u8],
    snapshot: &Snapshot,
    network: &Network,
    ways: &W,
    settings: &Settings,
    gate: &G,
) -> Result<AuditedBlock<'a>, BlockRefusal>
    requires nodes { All (λ node. Contains network.now.nodes node) (named_nodes snapshot.now) }
    requires ways { W.roads ways.now ≡ network.now }
    ensures good { IfOk result (λ found. BeginsWithGood settings.entry.now network.entry.now snapshot.entry.now text.entry.now found.outcome found.rest.now) }
    ensures lines { IfOk result (λ found. found.lines ≡ length (block_lines true snapshot.entry.now.number found.outcome)) }
    ensures only { IfOk result (λ found. (outcome : OneOutcome) (rest : List ℕ)
        → BeginsWithGood settings.entry.now network.entry.now snapshot.entry.now text.entry.now outcome rest → (outcome ≡ found.outcome) × (rest ≡ found.rest.now)) }
    ensures none { IfErr result (λ refusal. refusal ≢ NoMemory → (outcome : OneOutcome) (rest : List ℕ)
        → BeginsWithGood settings.entry.now network.entry.now snapshot.entry.now text.entry.now outcome rest → ⊥) }
    ensures fault { IfErr result (Refuses settings.entry.now network.entry.now snapshot.entry.now text.entry.now) }
{
    let (lines, rest) = match read_block(alloc, text) {
        Ok(block) => block,
        Err(fault) => return Err(refusal_of(fault)),
    };
    let count = lines.len() as u64;
    let told = told_by(alloc, lines)?;
    if told.batch != snapshot.batch {
        drop(told);
        return Err(BlockRefusal::Wrong {
            point: Point::Answer,
        });
    }
    let untold = untold_point(&told);
    let outcome = outcome_of(alloc, told, snapshot.vehicles.as_slice())?;
    match judge(rt, alloc, snapshot, network, ways, settings, &outcome, gate) {
        Ok(verdict) => match earlier(verdict, untold) {
            Verdict::Good => Ok(AuditedBlock {
                outcome,
                rest,
                lines: count,
            }),
            Verdict::Fails(point) => {
                drop(outcome);
                Err(BlockRefusal::Wrong { point })
            }
        },
        Err(fault) => {
            drop(outcome);
            Err(fault.into())
        }
    }
}
