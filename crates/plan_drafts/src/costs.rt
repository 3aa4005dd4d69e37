//! What plans cost.
use row_tables::fixed_point::{item, set_at};
use row_tables::{Made, RowTable};
use std::alloc::Global;

/// What a plan that isn't lawful counts as, in seconds.
pub const UNLAWFUL: i64 = i64::MAX / 4096;

/// What a plan costs, in seconds; very much where it isn't lawful.
pub fn plan_cost(alloc: Global, table: &RowTable, plan: &[Option<u32>]) -> Made<i64> {
    let mut is_served = vec![in alloc; false; table.rider_count()]?;
    let mut cost: i64 = 0;
    for vehicle in 0..table.vehicle_count() {
        let more = match item(plan, vehicle, None) {
            Some(row) => cost_of_row(table, row as usize, &mut is_served),
            None if table.rows_of(vehicle).is_empty() => 0,
            None => UNLAWFUL,
        };
        cost = cost.saturating_add(more);
    }
    let left = cost_of_left(table, &is_served);
    Ok(cost.saturating_add(left).min(UNLAWFUL))
}

/// What a row costs, of which nobody may be served yet. Its riders are served then.
fn cost_of_row(table: &RowTable, row: usize, is_served: &mut [bool]) -> i64 {
    let mut cost = table.cost(row);
    for rider in table.riders_of(row) {
        if item(is_served, *rider as usize, false) {
            cost = UNLAWFUL;
        }
        set_at(is_served, *rider as usize, true);
    }
    cost
}

/// What it costs to leave out whom nobody serves.
fn cost_of_left(table: &RowTable, is_served: &[bool]) -> i64 {
    let mut cost: i64 = 0;
    for (rider, is_served) in is_served.iter().enumerate() {
        if !*is_served {
            let must = table.must(rider);
            cost = cost.saturating_add(if must { UNLAWFUL } else { table.penalty() });
        }
    }
    cost
}
