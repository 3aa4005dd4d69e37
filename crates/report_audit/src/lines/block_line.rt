ghost use Rattle.std.specs.Prelude.{◌≤◌, ◌<◌, IfOk, codes};
ghost use Rattle.report_audit.specs.lines.Reading.{IsReadAs, both_texts, BothAre};
ghost use Rattle.dispatch_report.specs.Block.{block_line_text, pair_line};
ghost use Rattle.report_audit.specs.lines.BlockLine.{IsBlockLine, AreIds};
ghost use Rattle.report_audit.specs.work.lines.Lines.{IsPlainLine, IsLongLine};
ghost use Rattle.dispatch_report.specs.Words.{numbered, spaced};
ghost use Rattle.dispatch_report.specs.Fits.{IsId};
ghost use Rattle.dispatch_report.specs.declared.block_line.BlockLine.TheVariants.{Move, Branch};

use crate::lines::lists::{read_late, read_leaf, read_row, read_trip};
use crate::lines::words::{
    ID_MOST, is_words, pair_first, read_numbered, read_signed, rider, vehicle,
};
use dispatch_report::BlockLine;
use pool_base::{OutOfMemory, RiderId, VehicleId};
use request_book::MoveLine;
use std::alloc::Global;

/// What a line of a block says; `None` where it is no such line.
pub fn read_block_line(alloc: Global, line: &[u8]) -> Result<Option<BlockLine>, OutOfMemory>
    ensures { IfOk result (λ found. IsReadAs block_line_text IsBlockLine line.now found) }
{
    if let Some(found) = read_plain_line(line) {
        return Ok(Some(found));
    }
    read_long_line(alloc, line)
}

/// A line of more numbers than one, or of riders, stops or multipliers.
fn read_long_line(alloc: Global, line: &[u8]) -> Result<Option<BlockLine>, OutOfMemory>
    ensures { IfOk result (λ found. IsReadAs block_line_text IsLongLine line.now found) }
{
    if let Some(alone) = read_rv(line) {
        return Ok(Some(BlockLine::Alone(alone)));
    }
    if let Some(shared) = read_rr(line) {
        return Ok(Some(BlockLine::Shared(shared)));
    }
    if let Some(move_line) = read_move(line) {
        return Ok(Some(BlockLine::Move(move_line)));
    }
    if let Some(branch) = read_branch(line) {
        return Ok(Some(BlockLine::Branch(branch)));
    }
    if let Some(late) = read_late(alloc, line)? {
        return Ok(Some(BlockLine::Late(late)));
    }
    if let Some(row) = read_row(alloc, line)? {
        return Ok(Some(BlockLine::TripRow(row)));
    }
    if let Some(trip) = read_trip(alloc, line)? {
        return Ok(Some(BlockLine::Trip(trip)));
    }
    match read_leaf(alloc, line)? {
        Some(leaf) => Ok(Some(BlockLine::Leaf(leaf))),
        None => Ok(None),
    }
}

/// A line that is a word, or has one number.
fn read_plain_line(line: &[u8]) -> Option<BlockLine>
    ensures { IsReadAs block_line_text IsPlainLine line.now result }
{
    if is_words(line, b"overflow") {
        return Some(BlockLine::Overflow);
    }
    if is_words(line, b"dead") {
        return Some(BlockLine::Dead);
    }
    if is_words(line, b"end") {
        return Some(BlockLine::End);
    }
    if let Some(batch) = read_numbered(line, b"batch ", u64::MAX) {
        return Some(BlockLine::Batch(batch));
    }
    if let Some(cost) = read_numbered(line, b"cost ", u64::MAX) {
        return Some(BlockLine::Cost(cost));
    }
    if let Some(nodes) = read_numbered(line, b"nodes ", u64::MAX) {
        return Some(BlockLine::Nodes(nodes));
    }
    if let Some(bound) = read_signed(line, b"bound ") {
        return Some(BlockLine::Bound(bound));
    }
    if let Some(expired) = read_rider(line, b"expired ") {
        return Some(BlockLine::Expired(expired));
    }
    if let Some(lapsed) = read_rider(line, b"lapsed ") {
        return Some(BlockLine::Lapsed(lapsed));
    }
    let out = read_rider(line, b"out ")?;
    Some(BlockLine::Out(out))
}

/// The rider of a line that has words and a rider's id alone.
pub fn read_rider(line: &[u8], words: &[u8]) -> Option<RiderId>
    ensures { IsReadAs (numbered words.now) IsId line.now result }
{
    let n = read_numbered(line, words, ID_MOST)?;
    Some(rider(n))
}

/// A vehicle and a rider who can ride alone with it.
pub fn read_rv(line: &[u8]) -> Option<(VehicleId, RiderId)>
    ensures { IsReadAs (pair_line (codes "rv ")) AreIds line.now result }
{
    let (first, second) = read_pair(line, b"rv ", ID_MOST, ID_MOST)?;
    Some((vehicle(first), rider(second)))
}

/// Two riders who can share a vehicle.
pub fn read_rr(line: &[u8]) -> Option<(RiderId, RiderId)>
    ensures { IsReadAs (pair_line (codes "rr ")) AreIds line.now result }
{
    let (first, second) = read_pair(line, b"rr ", ID_MOST, ID_MOST)?;
    Some((rider(first), rider(second)))
}

/// The numbers of a line that has words and two numbers alone, apart by a space.
#[tactic(auto, using(crate::proofs::lemmas::lines::ReadingLemmas::line_none))]
fn read_pair(line: &[u8], words: &[u8], most: u64, other: u64) -> Option<(u64, u64)>
    ensures { IsReadAs (both_texts (numbered words.now) spaced) (BothAre (λ n. n ≤ most) (λ n. n ≤ other)) line.now result }
{
    let (pair, rest) = pair_first(line, words, most, other)?;
    if rest.is_empty() { Some(pair) } else { None }
}

/// An idle vehicle that is sent to a rider, and the seconds of its way.
pub fn read_move(line: &[u8]) -> Option<MoveLine>
    ensures { IsReadAs (λ x. block_line_text (Move x)) (λ x. IsBlockLine (Move x)) line.now result }
{
    let (ids, after) = pair_first(line, b"move ", ID_MOST, ID_MOST)?;
    let seconds = read_numbered(after, b" ", u32::MAX as u64)?;
    Some(MoveLine {
        vehicle: vehicle(ids.0),
        rider: rider(ids.1),
        seconds: seconds as u32,
    })
}

/// A branch of a tree: the vehicle of a row, and which row line of the block it is.
pub fn read_branch(line: &[u8]) -> Option<(VehicleId, u32)>
    ensures { IsReadAs (λ x. block_line_text (Branch x)) (λ x. IsBlockLine (Branch x)) line.now result }
{
    let (id, row) = read_pair(line, b"branch ", ID_MOST, u32::MAX as u64)?;
    Some((vehicle(id), row as u32))
}
