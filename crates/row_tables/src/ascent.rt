//! A subgradient ascent of multipliers over the rows of a table.
//!
//! The subgradient counts for each rider how often the vehicles' rows of least reduced cost have her. Steps are
//! as long as Polyak's rule says (1969), and halved after eight turns without a rise.
use crate::Made;
use crate::fixed_point::{add_at, at, copy, put, reset, set_at, write_over};
use crate::row_table::RowTable;
use std::alloc::Global;

/// One, of directions and step lengths.
const UNIT: i64 = 1024;

/// After so many turns without a rise the steps are halved.
const MOST_IDLE: u32 = 8;

/// Multipliers after so many turns from what each rider costs who is served alone, toward a tenth of all
/// penalties, in 1/1024 second.
pub fn first_multipliers(alloc: Global, table: &RowTable, turns: u32) -> Made<Vec<i64>> {
    let riders = table.rider_count().min(1_000_000) as i64;
    let target = table.penalty().wrapping_mul(riders * UNIT) / 10;
    let start = first_point(alloc, table)?;
    ascend(alloc, table, start, target, turns)
}

/// The best multipliers of so many turns from the start, one for each rider, toward this value, all in 1/1024
/// second. A turn looks at each row once.
pub fn ascend(
    alloc: Global,
    table: &RowTable,
    start: Vec<i64>,
    target: i64,
    turns: u32,
) -> Made<Vec<i64>> {
    let mut ascent = Ascent {
        best: Vec::new(alloc),
        point: start,
        value: i64::MIN,
        slopes: Vec::new(alloc),
        direction: Vec::new(alloc),
        scale: UNIT,
        idle: 0,
    };
    let done = ascent.climb(table, target, turns);
    done.and(Ok(ascent.best))
}

#[derive(Drop)]
struct Ascent {
    point: Vec<i64>,
    best: Vec<i64>,
    value: i64,
    /// For each rider how much the value rises with her multiplier.
    slopes: Vec<i64>,
    direction: Vec<i64>,
    scale: i64,
    idle: u32,
}

impl Ascent {
    /// Takes so many turns, fewer where one leads nowhere.
    fn climb(&mut self, table: &RowTable, target: i64, turns: u32) -> Made<()> {
        let riders = table.rider_count();
        write_over(&mut self.best, &self.point)
            .and(reset(&mut self.slopes, riders, 0))
            .and(reset(&mut self.direction, riders, 0))?;
        for _ in 0..turns {
            let value = self.look(table);
            self.keep(value);
            let size = self.turn(table);
            if size <= 0 {
                break;
            }
            let gap = target.saturating_sub(value).max(UNIT);
            self.step(table, gap, size);
        }
        Ok(())
    }

    /// The value at the point. Computes the slopes there.
    fn look(&mut self, table: &RowTable) -> i64 {
        self.mark_rising(table);
        let mut value = table.value_of_riders(&self.point);
        for vehicle in 0..table.vehicle_count() {
            if let Some((row, cost)) = best_row(table, &self.point, vehicle) {
                value = value.wrapping_add(cost);
                for rider in table.riders_of(row) {
                    add_at(&mut self.slopes, *rider as usize, -1);
                }
            }
        }
        value
    }

    /// A rider's slope is one where her multiplier counts if it rises.
    fn mark_rising(&mut self, table: &RowTable) {
        for rider in 0..self.slopes.len() {
            let rises = at(&self.point, rider) < table.most_multiplier(rider);
            set_at(&mut self.slopes, rider, if rises { 1 } else { 0 });
        }
    }

    /// Keeps the point where it is the best so far, and goes back to that after some turns without a rise.
    fn keep(&mut self, value: i64) {
        if value > self.value {
            self.value = value;
            self.idle = 0;
            copy(&self.point, &mut self.best);
            return;
        }
        self.idle = self.idle.saturating_add(1);
        if self.idle >= MOST_IDLE {
            self.idle = 0;
            self.scale /= 2;
            copy(&self.best, &mut self.point);
        }
    }

    /// Makes the direction the mean of the last one and twice the slopes. The square of its length.
    fn turn(&mut self, table: &RowTable) -> i64 {
        let mut size: i64 = 0;
        for rider in 0..self.direction.len() {
            let slope = at(&self.slopes, rider).wrapping_mul(2 * UNIT);
            let mut part = slope.wrapping_add(at(&self.direction, rider)) / 2;
            if part > 0 && at(&self.point, rider) >= table.most_multiplier(rider) {
                part = 0;
            }
            set_at(&mut self.direction, rider, part);
            size = size.saturating_add(part.wrapping_mul(part) / UNIT);
        }
        size
    }

    fn step(&mut self, table: &RowTable, gap: i64, size: i64) {
        let length = self.scale.saturating_mul(gap / UNIT);
        for rider in 0..self.point.len() {
            let part = at(&self.direction, rider);
            let step = length.saturating_mul(part).checked_div(size).unwrap_or(0);
            let next = at(&self.point, rider).saturating_add(step);
            set_at(
                &mut self.point,
                rider,
                next.min(table.most_multiplier(rider)),
            );
        }
    }
}

/// For each rider the least of the penalty and of what it costs above its vehicle's first row to serve her
/// alone.
fn first_point(alloc: Global, table: &RowTable) -> Made<Vec<i64>> {
    let mut point = Vec::new(alloc);
    for rider in 0..table.rider_count() {
        let mut least = table.penalty();
        for row in table.rows_with(rider) {
            let row = *row as usize;
            if table.riders_of(row).len() == 1 {
                let first = table.rows_of(table.vehicle(row)).start;
                least = least.min(table.cost(row).saturating_sub(table.cost(first)));
            }
        }
        put(&mut point, least.wrapping_mul(UNIT))?;
    }
    Ok(point)
}

/// The vehicle's row of least reduced cost, and that cost.
fn best_row(table: &RowTable, point: &[i64], vehicle: usize) -> Option<(usize, i64)> {
    let mut best = None;
    let mut least = i64::MAX;
    for row in table.rows_of(vehicle) {
        let cost = table.reduced_cost(point, row);
        if cost < least {
            least = cost;
            best = Some((row, cost));
        }
    }
    best
}
