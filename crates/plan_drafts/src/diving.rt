//! A plan from the relaxation: rows that it chooses nearly whole are taken, and it is solved again.
use crate::Plan;
use crate::relaxation::{Relaxation, Share};
use row_tables::fixed_point::set_at;
use row_tables::{Draws, Made, RowTable};
use std::alloc::Global;
use std::cmp::Reverse;

/// More than half of a row, in units of 2^-32.
const HALF: i64 = 1 << 31;

/// From this share on a row is chosen whole.
const WHOLE: i64 = (1 << 32) / 100 * 99;

/// From this share on a row is taken.
const NEARLY_WHOLE: i64 = (1 << 32) / 10 * 9;

/// How many rows that aren't chosen whole are taken at most before the relaxation is solved again.
const MOST_AT_ONCE: u32 = 10;

/// How many rows of a vehicle a pass puts into the pool, and how many passes a solution takes at most.
const MOST_ROWS: usize = 10;

const MOST_PASSES: u32 = 3;

/// A plan that starts at this basis, if it comes to one. But for number 0 the first row is left out now and then, as is
/// drawn from the number.
pub fn dive(
    alloc: Global,
    table: &RowTable,
    relaxation: &mut Relaxation,
    basis: &[u32],
    number: u64,
) -> Made<Option<Plan>> {
    relaxation.is_held = false;
    relaxation.go_to(table, basis)?;
    let mut open: Vec<Share> = Vec::new(alloc);
    let plan = descend(alloc, table, relaxation, number, &mut open);
    drop(open);
    plan
}

/// The same from where the relaxation stands. The open rows are work space.
fn descend(
    alloc: Global,
    table: &RowTable,
    relaxation: &mut Relaxation,
    number: u64,
    open: &mut Vec<Share>,
) -> Made<Option<Plan>> {
    let mut draws = Draws::new(number);
    for _ in 0..table.vehicle_count().saturating_mul(2) {
        relaxation.solve(table, i64::MAX, MOST_ROWS, MOST_PASSES)?;
        relaxation.find_shares(table, i64::MAX)?;
        if relaxation.is_tired() || !list_open(table, relaxation, open)? {
            break;
        }
        if are_whole(&relaxation.shares) {
            return Ok(Some(whole_plan(alloc, table, &relaxation.shares)?));
        }
        let skips = number > 0 && draws.below(4) == 0;
        take_first(table, relaxation, open, skips);
    }
    Ok(None)
}

/// Whether all rows are chosen whole.
fn are_whole(shares: &[Share]) -> bool {
    match shares.last() {
        None => true,
        Some(share) => share.0.0 >= WHOLE,
    }
}

/// Lists the rows whose vehicles have another choice. False where a forbidden row is chosen.
fn list_open(table: &RowTable, relaxation: &Relaxation, open: &mut Vec<Share>) -> Made<bool> {
    open.clear();
    for share in &relaxation.shares {
        let row = share.1 as usize;
        if relaxation.is_forbidden(row) {
            return Ok(false);
        }
        if relaxation.has_choice(table, row) {
            open.push(*share)?;
        }
    }
    Ok(true)
}

/// The rows of which more than half is chosen.
pub fn whole_plan(alloc: Global, table: &RowTable, shares: &[Share]) -> Made<Plan> {
    let mut plan: Vec<Option<u32>> = vec![in alloc; None; table.vehicle_count()]?;
    for share in shares {
        if share.0.0 > HALF {
            let vehicle = table.vehicle(share.1 as usize);
            set_at(&mut plan, vehicle, Some(share.1));
        }
    }
    Ok(plan)
}

/// Takes the first rows that are still allowed, the very first one not where it is skipped.
fn take_first(table: &RowTable, relaxation: &mut Relaxation, open: &[Share], skips: bool) {
    let mut skips = skips;
    let mut count: u32 = 0;
    for (Reverse(part), row) in open {
        let is_sure = *part > WHOLE;
        if !is_sure && count > 0 && (*part < NEARLY_WHOLE || count >= MOST_AT_ONCE) {
            return;
        }
        if !is_sure && skips {
            skips = false;
        } else if !relaxation.is_forbidden(*row as usize) {
            relaxation.take(table, *row as usize);
            count = count.saturating_add(u32::from(!is_sure));
        }
    }
}
