//! What no outcome can tell, by the points that ask for it.
ghost use Rattle.std.specs.Prelude.{◌≤◌, ◌↔◌, IfSome, IsTrue, length};
ghost use Rattle.std.specs.List.{All};
ghost use Rattle.dispatch_engine.specs.declared.outcome.point.Point.TheVariants as point;
ghost use Rattle.report_audit.specs.block.Judged.{CanBeTold, NamesRow};
ghost use Rattle.report_audit.specs.points.Verdict.{IsVerdictOf};
ghost use Rattle.report_audit.specs.work.block.BlockLists.{told_in};

use crate::block::block_lists::BlockLists;
use crate::points::verdict::Verdict;
use dispatch_engine::Point;
use dispatch_report::{BlockLine, LateText, TripRowText, TripText};

/// The first point of which the lines tell what none can, if there is one.
pub(crate) fn untold_point(told: &BlockLists) -> Verdict
    ensures { IsVerdictOf (λ q. CanBeTold q (told_in told.now)) result }
{
    if !are_short_rows(&told.rows) {
        return Verdict::Fails(Point::Graphs);
    }
    if !are_short_lates(&told.late) {
        return Verdict::Fails(Point::Late);
    }
    if !are_short_trips(&told.chosen) {
        return Verdict::Fails(Point::Trips);
    }
    if is_tree_told(told) {
        Verdict::Good
    } else {
        Verdict::Fails(Point::Bound)
    }
}

fn are_short_rows(rows: &[TripRowText]) -> bool
    ensures { IsTrue result ↔ All (λ row. length row.riders ≤ 6) rows.now }
{
    rows.iter().all(|row| row.riders.len() <= 6)
}

fn are_short_lates(lates: &[LateText]) -> bool
    ensures { IsTrue result ↔ All (λ late. IfSome late.stops (λ stops. length stops ≤ 10)) lates.now }
{
    lates.iter().all(|late| is_short_late(late))
}

fn is_short_late(late: &LateText) -> bool
    ensures { IsTrue result ↔ IfSome late.now.stops (λ stops. length stops ≤ 10) }
{
    match &late.stops {
        Some(stops) => stops.len() <= 10,
        None => true,
    }
}

fn are_short_trips(trips: &[TripText]) -> bool
    ensures { IsTrue result ↔ All (λ trip. length trip.stops ≤ 22) trips.now }
{
    trips.iter().all(|trip| trip.stops.len() <= 22)
}

/// Whether a tree has as many nodes as are told, and its branches name rows of their vehicles.
fn is_tree_told(told: &BlockLists) -> bool
    ensures { IsTrue result ↔ CanBeTold point.Bound (told_in told.now) }
{
    told.tree.len() as u64 == told.nodes && name_rows(&told.tree, &told.rows)
}

fn name_rows(lines: &[BlockLine], rows: &[TripRowText]) -> bool
    ensures { IsTrue result ↔ All (NamesRow rows.now) lines.now }
{
    lines.iter().all(|line| names_row(line, rows))
}

fn names_row(line: &BlockLine, rows: &[TripRowText]) -> bool
    ensures { IsTrue result ↔ NamesRow rows.now line.now }
{
    match line {
        BlockLine::Branch((vehicle, row)) => match rows.get(*row as usize) {
            Some(named) => named.vehicle.get() == vehicle.get(),
            None => vehicle.get() == 0,
        },
        _ => true,
    }
}
