//! Judges rows one by one, and each against the one before it.
ghost use Rattle.std.specs.Prelude.{◌≡◌, ◌+◌, ◌<◌, ◌≤◌, ◌↔◌, ℕ, suc, IsTrue, IfSome, IfNone, length, slice_index};
ghost use Rattle.std.specs.List.Sorted.{IsStrictlyIncreasing};
ghost use Rattle.std.specs.declared.cmp.Ordering.TheVariants.{Less};
ghost use Rattle.plan_rules.specs.Graph.{IsGraphRow, row_cmp, row_at};
ghost use Rattle.plan_rules.specs.GraphFault.{IsInOrder, HasGoodRows, HasRowsInOrder, IsFirstOutOfRange, IsFirstUnordered};
ghost use Rattle.plan_rules.specs.Parts.{graph_of};
ghost use Rattle.plan_rules.specs.work.Graph.{AreRisingBelow};

use crate::parts::Parts;
use crate::row::TripRow;
use std::cmp::Ordering;

/// Whether the riders rise and are all below this number.
fn are_rising_below(members: &[usize], riders: usize) -> bool
    ensures { IsTrue result ↔ AreRisingBelow riders members.now }
{
    let mut least = 0;
    for rider in members {
        if *rider < least || *rider >= riders {
            return false;
        }
        least = *rider + 1;
    }
    true
}

fn is_in_range(row: &TripRow, vehicles: usize, riders: usize) -> bool
    ensures { IsTrue result ↔ IsGraphRow vehicles riders row.now }
{
    row.vehicle < vehicles
        && row.cost <= 1_000_000_000
        && are_rising_below(row.riders.as_slice(), riders)
}

/// The first row that is out of range.
pub fn first_out_of_range(parts: &Parts) -> Option<usize>
    ensures found { IfSome result (IsFirstOutOfRange (graph_of parts.now)) }
    ensures none { IfNone result (HasGoodRows (graph_of parts.now)) }
{
    for (k, row) in parts.rows.iter().enumerate() {
        if !is_in_range(row, parts.vehicles, parts.riders) {
            return Some(k);
        }
    }
    None
}

/// How a row stands to another: by vehicle, then size, then riders.
fn compare_rows(a: &TripRow, b: &TripRow) -> Ordering
    ensures { result ≡ row_cmp a.now b.now }
{
    let sizes = a.riders.len().cmp(&b.riders.len());
    let riders = a.riders.as_slice().cmp(&b.riders.as_slice());
    a.vehicle.cmp(&b.vehicle).then(sizes.then(riders))
}

/// The first row that isn't above the one before it.
pub fn first_out_of_order(parts: &Parts) -> Option<usize>
    ensures found { IfSome result (IsFirstUnordered (graph_of parts.now)) }
    ensures none { IfNone result (HasRowsInOrder (graph_of parts.now)) }
{
    for k in 1..parts.rows.len() {
        if compare_rows(&parts.rows[k - 1], &parts.rows[k]) != Ordering::Less {
            return Some(k);
        }
    }
    None
}
