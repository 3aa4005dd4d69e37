ghost use Rattle.std.specs.Prelude.{◌≡◌, ℕ, IfOk, MatchOption, MatchResult, true};
ghost use Rattle.report_audit.specs.lines.BlockLines.{IsBlock, BlockFails};
ghost use Rattle.report_audit.specs.work.lines.Lines.{CannotFollow};
ghost use Rattle.dispatch_report.specs.Block.{block_line_text};
ghost use Rattle.report_audit.specs.lines.BlockLine.{IsBlockLine};
ghost use Rattle.report_audit.specs.lines.Order.{kind_place, may_follow_at, is_between as between};
ghost use Rattle.report_audit.specs.declared.lines.block_lines.BlockFault.TheVariants.{OutOfMemory as NoMemory};

use crate::lines::block_line::read_block_line;
use crate::lines::words::line_first;
use dispatch_report::BlockLine;
use pool_base::{OutOfMemory, Sequence};
use std::alloc::{AllocFailed, Global};

/// Why a text begins with no block.
#[derive(Clone, Copy)]
pub enum BlockFault {
    OutOfMemory,
    /// So many lines stand, and the text ends before or within the next.
    Cut { lines: u64 },
    /// So many lines stand, and the next can't follow.
    Form { lines: u64 },
}

impl From<OutOfMemory> for BlockFault {
    ghost from_gives = { λ _ e. e ≡ NoMemory };

    fn from(_error: OutOfMemory) -> BlockFault {
        BlockFault::OutOfMemory
    }
}

impl<T: Drop> From<AllocFailed<T>> for BlockFault {
    ghost from_gives = { λ _ e. e ≡ NoMemory };

    fn from(_error: AllocFailed<T>) -> BlockFault {
        BlockFault::OutOfMemory
    }
}

/// The lines of the block with which a text begins, and what follows them.
#[tactic(auto, unfolding(dispatch_report::specs::Lines::lines_text))]
pub fn read_block(alloc: Global, text: &[u8]) -> Result<(Sequence<BlockLine>, &[u8]), BlockFault>
    ensures { MatchResult result (λ block. IsBlock text.now block.0 block.1.now) (BlockFails text.now) }
{
    let mut lines = Vec::new(alloc);
    let mut rest = text;
    let mut place = 0;
    while place != END {
        let Some((line, after)) = line_first(rest) else {
            return Err(BlockFault::Cut {
                lines: lines.len() as u64,
            });
        };
        let Some(found) = read_following(alloc, place, line)? else {
            return Err(BlockFault::Form {
                lines: lines.len() as u64,
            });
        };
        place = order_of(&found).2;
        lines.push(found)?;
        rest = after;
    }
    Ok((Sequence::of(lines), rest))
}

/// The place of a block's last line.
const END: u8 = 16;

/// What a line of a block says, where it may follow a line of this place.
fn read_following(alloc: Global, place: u8, line: &[u8]) -> Result<Option<BlockLine>, OutOfMemory>
    ensures { IfOk result (λ found. MatchOption found (CannotFollow place line.now) (λ x. IsBlockLine x × (line.now ≡ block_line_text x) × (may_follow_at place x ≡ true))) }
{
    let Some(found) = read_block_line(alloc, line)? else {
        return Ok(None);
    };
    if may_follow(place, &found) {
        Ok(Some(found))
    } else {
        Ok(None)
    }
}

fn is_between(low: u8, high: u8, n: u8) -> bool
    ensures { result ≡ between low high n }
{
    low <= n && n <= high
}

/// Whether a line may follow one of this place.
fn may_follow(place: u8, line: &BlockLine) -> bool
    ensures { result ≡ may_follow_at place line.now }
{
    let (low, high, _) = order_of(line);
    is_between(low, high, place)
}

/// From which place to which a line may follow, and the place of its kind in a block.
#[tactic(auto, using(std::proofs::lemmas::Bool::Decides::nat_tests))]
fn order_of(line: &BlockLine) -> (u8, u8, u8)
    ensures follows { (place : ℕ) → between result.0 result.1 place ≡ may_follow_at place line.now }
    ensures place { result.2 ≡ kind_place line.now }
{
    match line {
        BlockLine::Batch(_) => (0, 0, 1),
        BlockLine::Expired(_) => (1, 2, 2),
        BlockLine::Lapsed(_) => (1, 3, 3),
        BlockLine::Late(_) => (1, 4, 4),
        BlockLine::Alone(_) => (1, 5, 5),
        BlockLine::Shared(_) => (1, 6, 6),
        BlockLine::TripRow(_) => (1, 7, 7),
        BlockLine::Trip(_) => (1, 8, 8),
        BlockLine::Out(_) => (1, 9, 9),
        BlockLine::Move(_) => (1, 10, 10),
        BlockLine::Cost(_) => (1, 10, 11),
        BlockLine::Bound(_) => (11, 11, 12),
        BlockLine::Nodes(_) => (12, 12, 13),
        BlockLine::Branch(_) | BlockLine::Leaf(_) | BlockLine::Dead => (13, 14, 14),
        BlockLine::Overflow => (1, 2, 15),
        BlockLine::End => (13, 15, END),
    }
}
