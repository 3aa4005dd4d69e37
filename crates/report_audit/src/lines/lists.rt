ghost use Rattle.std.specs.Prelude.{◌≡◌, ◌<◌, MatchOption, IfOk, codes, IfSome, IfNone, true, false};
ghost use Rattle.report_audit.specs.lines.Reading.{IsReadAs, BeginsWith, BeginsWithNone};
ghost use Rattle.dispatch_report.specs.Block.{block_line_text, stop_text};
ghost use Rattle.dispatch_report.specs.declared.block_line.BlockLine.TheVariants.{TripRow, Trip, Late, Leaf};
ghost use Rattle.report_audit.specs.lines.BlockLine.{IsBlockLine, IsLong, IsWide, FitsStop};
ghost use Rattle.report_audit.specs.work.lines.Lines.{order_text, IsOrder, visit_text, IsVisit};
ghost use Rattle.std.specs.List.{flat_map, All};
ghost use Rattle.dispatch_report.specs.Words.{signed, spaced};
ghost use Rattle.dispatch_report.specs.Fits.{IsId};

use crate::lines::words::{
    ID_MOST, is_words, node, numbered_first, pair_first, rider, signed_words_first, vehicle,
    words_first,
};
use dispatch_report::{LateText, TripRowText, TripText};
use plan_rules::Multipliers;
use pool_base::{OutOfMemory, RiderId, Sequence};
use request_book::PlannedStop;
use std::alloc::Global;

/// A vehicle-trip pair.
pub fn read_row(alloc: Global, line: &[u8]) -> Result<Option<TripRowText>, OutOfMemory>
    ensures { IfOk result (λ row. IsReadAs (λ x. block_line_text (TripRow x)) (λ x. IsBlockLine (TripRow x)) line.now row) }
{
    let Some((head, after)) = pair_first(line, b"row ", ID_MOST, u64::MAX) else {
        return Ok(None);
    };
    let Some(riders) = riders_to_end(alloc, after)? else {
        return Ok(None);
    };
    Ok(Some(TripRowText {
        vehicle: vehicle(head.0),
        cost: head.1,
        riders,
    }))
}

/// A chosen trip with its stops.
pub fn read_trip(alloc: Global, line: &[u8]) -> Result<Option<TripText>, OutOfMemory>
    ensures { IfOk result (λ trip. IsReadAs (λ x. block_line_text (Trip x)) (λ x. IsBlockLine (Trip x)) line.now trip) }
{
    let Some((head, after)) = pair_first(line, b"trip ", ID_MOST, u64::MAX) else {
        return Ok(None);
    };
    let Some(stops) = stops_to_end(alloc, after)? else {
        return Ok(None);
    };
    Ok(Some(TripText {
        vehicle: vehicle(head.0),
        cost: head.1,
        stops,
    }))
}

/// A late vehicle with its order, or `none`.
pub fn read_late(alloc: Global, line: &[u8]) -> Result<Option<LateText>, OutOfMemory>
    ensures { IfOk result (λ late. IsReadAs (λ x. block_line_text (Late x)) (λ x. IsBlockLine (Late x)) line.now late) }
{
    let Some((id, after)) = numbered_first(line, b"late ", ID_MOST) else {
        return Ok(None);
    };
    let Some((delay, stops)) = read_order(alloc, after)? else {
        return Ok(None);
    };
    Ok(Some(LateText {
        vehicle: vehicle(id),
        delay,
        stops,
    }))
}

/// A delay and an order of stops, or `none`, to the text's end.
#[tactic(auto, using(crate::proofs::lines::StopLemmas::order_no_delay))]
fn read_order(
    alloc: Global,
    text: &[u8],
) -> Result<Option<(u64, Option<Sequence<PlannedStop>>)>, OutOfMemory>
    ensures { IfOk result (λ order. IsReadAs order_text IsOrder text.now order) }
{
    if is_words(text, b" none") {
        return Ok(Some((0, None)));
    }
    let Some((delay, after)) = numbered_first(text, b" ", u64::MAX) else {
        return Ok(None);
    };
    let Some(stops) = stops_to_end(alloc, after)? else {
        return Ok(None);
    };
    Ok(Some((delay, Some(stops))))
}

/// A leaf of a tree with its multipliers, of whom a line may name any number.
pub fn read_leaf(alloc: Global, line: &[u8]) -> Result<Option<Multipliers>, OutOfMemory>
    ensures { IfOk result (λ leaf. IsReadAs (λ x. block_line_text (Leaf x)) (All IsLong) line.now leaf) }
{
    let Some(after) = words_first(line, b"leaf") else {
        return Ok(None);
    };
    multipliers_to_end(alloc, after)
}

/// The signed numbers that a text tells to its end, each behind a space.
#[tactic(auto, using(crate::proofs::lines::ListLemmas::so_far, crate::proofs::lines::SignedLemmas::long_item))]
fn multipliers_to_end(alloc: Global, text: &[u8]) -> Result<Option<Multipliers>, OutOfMemory>
    ensures { IfOk result (λ leaf. IsReadAs (flat_map (signed (codes " "))) (All IsLong) text.now leaf) }
{
    let mut multipliers = Vec::new(alloc);
    let mut rest = text;
    while !rest.is_empty() {
        let Some((n, after)) = multiplier_first(rest) else {
            return Ok(None);
        };
        multipliers.push(n)?;
        rest = after;
    }
    Ok(Some(Multipliers::of(multipliers)))
}

/// The multiplier with which a text begins, behind a space.
fn multiplier_first(text: &[u8]) -> Option<(i64, &[u8])>
    ensures { MatchOption result (BeginsWithNone (signed (codes " ")) IsLong text.now) (λ r. BeginsWith (signed (codes " ")) IsLong text.now r.0 r.1.now) }
{
    let (n, rest) = signed_words_first(text, b" ")?;
    let long = long_of(&n)?;
    Some((long, rest))
}

/// The number in 64 bits; `None` where it has more.
fn long_of(n: &i128) -> Option<i64>
    requires { IsWide n.now }
    ensures none { IfNone result (IsLong n.now → ⊥) }
    ensures value { IfSome result (λ long. (long ≡ n.now) × IsLong n.now) }
{
    if *n < i64::MIN as i128 || *n > i64::MAX as i128 {
        return None;
    }
    Some(*n as i64)
}

/// The riders that a text names to its end, each behind a space.
#[tactic(auto, using(crate::proofs::lines::ListLemmas::so_far, crate::proofs::lines::ListLemmas::spaced_item))]
fn riders_to_end(alloc: Global, text: &[u8]) -> Result<Option<Sequence<RiderId>>, OutOfMemory>
    ensures { IfOk result (λ riders. IsReadAs (flat_map spaced) (All IsId) text.now riders) }
{
    let mut riders = Vec::new(alloc);
    let mut rest = text;
    while !rest.is_empty() {
        let Some((n, after)) = numbered_first(rest, b" ", ID_MOST) else {
            return Ok(None);
        };
        riders.push(rider(n))?;
        rest = after;
    }
    Ok(Some(Sequence::of(riders)))
}

/// The stops that a text tells to its end, each behind a space.
#[tactic(auto, using(crate::proofs::lines::ListLemmas::so_far, crate::proofs::lines::StopLemmas::stop_item))]
fn stops_to_end(alloc: Global, text: &[u8]) -> Result<Option<Sequence<PlannedStop>>, OutOfMemory>
    ensures { IfOk result (λ stops. IsReadAs (flat_map stop_text) (All FitsStop) text.now stops) }
{
    let mut stops = Vec::new(alloc);
    let mut rest = text;
    while !rest.is_empty() {
        let Some((stop, after)) = stop_first(rest) else {
            return Ok(None);
        };
        stops.push(stop)?;
        rest = after;
    }
    Ok(Some(Sequence::of(stops)))
}

/// The stop with which a text begins, behind a space.
fn stop_first(text: &[u8]) -> Option<(PlannedStop, &[u8])>
    ensures { MatchOption result (BeginsWithNone stop_text FitsStop text.now) (λ r. BeginsWith stop_text FitsStop text.now r.0 r.1.now) }
{
    let ((pick, at), after) = visit_first(text)?;
    let (place, after_place) = numbered_first(after, b"@", ID_MOST)?;
    let (second, rest) = numbered_first(after_place, b":", u64::MAX)?;
    let stop = PlannedStop {
        pick,
        rider: rider(at),
        node: node(place),
        second,
    };
    Some((stop, rest))
}

/// Whether a stop is a pickup, and the number of its rider.
fn visit_first(text: &[u8]) -> Option<((bool, u64), &[u8])>
    ensures { MatchOption result (BeginsWithNone visit_text IsVisit text.now) (λ r. BeginsWith visit_text IsVisit text.now r.0 r.1.now) }
{
    if let Some((at, rest)) = numbered_first(text, b" pick:", ID_MOST) {
        return Some(((true, at), rest));
    }
    let (at, rest) = numbered_first(text, b" drop:", ID_MOST)?;
    Some(((false, at), rest))
}
