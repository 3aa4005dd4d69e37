//! The linear relaxation of an assignment: rows may be chosen in part.
//!
//! The revised simplex method in fixed point, so that each machine does the same, over a pool of rows to
//! which a pass over all rows adds those that better the solution (column generation; Gilmore and Gomory,
//! 1961). There is a condition for each rider, then one for each vehicle. Nothing is proved of how good a
//! solution is: a leaf value judges any multipliers.
//!
//! Plans, the tree, the dive, the scouts and the draft call it. It names `allowance`.

mod basis;
mod decisions;
mod dual;
mod factors;
mod ordering;
mod pivots;
mod pool;
mod pricing;
mod solution;
mod sparse;

use crate::allowance::Allowance;
use crate::relaxation::basis::Basis;
use crate::relaxation::pool::Pool;
use crate::relaxation::sparse::Sparse;
pub use basis::MANY_CONDITIONS;
pub use dual::Ended;
use row_tables::fixed_point::{at, copy, reset, set_at, write_over};
use row_tables::{Made, RowTable};
use std::alloc::Global;
use std::cmp::Reverse;
use std::mem::replace;

/// No column costs more, in units of 2^scale seconds.
const MOST_COST: i64 = 10_000_000;

/// What a forbidden row costs, in the units of prices: more than any other column.
const FORBIDDEN: i64 = MOST_COST << 32;

/// How many passes over all rows a solution takes at most.
const MOST_PASSES: u32 = 1000;

/// How many columns for each condition the dual simplex takes in at most for a solution.
const MOST_DUAL_PIVOTS: u64 = 20;

/// How many numbers a look at a row or a column counts as.
const A_LOOK: u64 = 2;

/// How much of a row is chosen, in units of 2^-32, and the row: what is chosen more stands first.
pub type Share = (Reverse<i64>, u32);

/// A basis with its factors and prices, to come back to.
#[derive(Drop)]
pub struct Saved {
    basis: Basis,
    prices: Vec<i64>,
}

impl Saved {
    /// No basis.
    pub fn new(alloc: Global) -> Self {
        Saved {
            basis: Basis::new(alloc),
            prices: Vec::new(alloc),
        }
    }
}

/// A solution of the relaxation of some rows, and the work space for the next one.
///
/// A number of a column is that of a row, or behind the rows a single condition's: a rider's who is left out, or that
/// of a vehicle without rows.
#[derive(Drop)]
pub struct Relaxation {
    pub basis: Basis,
    pub pool: Pool,
    is_forbidden: Vec<bool>,
    /// The forbidden rows, in order, and how many there are.
    forbidden: Vec<u32>,
    pub forbidden_count: usize,
    /// Whether forbidden rows are held at 0, at their own cost, in place of costing so much that they leave.
    pub is_held: bool,
    /// What each column costs, in the units of prices.
    costs: Vec<i64>,
    /// The prices of the conditions, in units of 2^-32 of 2^scale seconds.
    prices: Vec<i64>,
    pub scale: u32,
    /// How much each place costs, or how much of it is chosen.
    parts: Vec<i64>,
    /// A row of the basis's inverse over the conditions, and its products with the rows of the pool.
    row: Sparse,
    products: Vec<i64>,
    /// The reduced costs of columns that may come in, with their places in the pool, and in how many turns these are
    /// still good.
    candidates: Vec<(i64, u32)>,
    turns: u32,
    /// How many columns came in so far.
    pub pivots: u64,
    /// How many numbers it may still go through. Once they are gone it takes no more columns in: then any solution must
    /// do.
    pub allowance: Allowance,
    /// The best multipliers of the last solution and their value over the rows that aren't forbidden, in 1/1024 second.
    pub multipliers: Vec<i64>,
    pub value: i64,
    /// The multipliers at hand.
    tried: Vec<i64>,
    /// The reduced costs of a vehicle's least rows, and these.
    offers: Vec<(i64, u32)>,
    /// The rows that were found to be chosen in part, in order.
    pub shares: Vec<Share>,
}

impl Relaxation {
    /// No solution yet.
    pub fn new(alloc: Global) -> Self {
        Relaxation {
            basis: Basis::new(alloc),
            pool: Pool::new(alloc),
            is_forbidden: Vec::new(alloc),
            forbidden: Vec::new(alloc),
            forbidden_count: 0,
            is_held: false,
            costs: Vec::new(alloc),
            prices: Vec::new(alloc),
            scale: 0,
            parts: Vec::new(alloc),
            row: Sparse::new(alloc),
            products: Vec::new(alloc),
            candidates: Vec::new(alloc),
            turns: 0,
            pivots: 0,
            allowance: Allowance { rest: 0 },
            multipliers: Vec::new(alloc),
            value: i64::MIN,
            tried: Vec::new(alloc),
            offers: Vec::new(alloc),
            shares: Vec::new(alloc),
        }
    }

    /// Begins at the solution where each vehicle has this row, with the columns of all riders and these in the pool:
    /// each vehicle with rows has one, and no two of them have a rider in common.
    pub fn begin(
        &mut self,
        table: &RowTable,
        start: &[Option<u32>],
        columns: &[u32],
        allowance: Allowance,
    ) -> Made<()> {
        self.allowance = allowance;
        self.scale = scale_of(table);
        self.basis.begin(table, start)?;
        self.make_space(table)?;
        self.set_costs_left(table, &[], i64::MAX);
        for rider in 0..table.rider_count() {
            let column = table.row_count().saturating_add(rider);
            let cost = at(&self.costs, column);
            self.pool.add(table, column, cost)?;
        }
        self.add_all(table, columns)
    }

    fn make_space(&mut self, table: &RowTable) -> Made<()> {
        let conditions = table.condition_count();
        reset(&mut self.pool.is_in, table.column_count(), false)?;
        reset(&mut self.is_forbidden, table.row_count(), false)?;
        reset(&mut self.forbidden, table.row_count(), 0)?;
        reset(&mut self.costs, table.column_count(), 0)?;
        for row in 0..table.row_count() {
            set_at(&mut self.costs, row, in_prices(table.cost(row), self.scale));
        }
        reset(&mut self.prices, conditions, 0)?;
        reset(&mut self.parts, conditions, 0)?;
        self.row.make_space(conditions)?;
        reset(&mut self.multipliers, table.rider_count(), 0)?;
        reset(&mut self.tried, table.rider_count(), 0)
    }

    /// Has it cost as much to leave out a rider as the table says, but no more than her multiplier, in 1/1024 second,
    /// and these seconds.
    pub fn set_costs_left(&mut self, table: &RowTable, multipliers: &[i64], seconds: i64) {
        for rider in 0..table.rider_count() {
            let boxed = (at(multipliers, rider) / 1024).saturating_add(seconds);
            let cost = in_prices(boxed.min(table.cost_left(rider)), self.scale);
            set_at(
                &mut self.costs,
                table.row_count().saturating_add(rider),
                cost,
            );
            set_at(&mut self.pool.costs, rider, cost);
        }
    }

    /// Goes on to a solution over the rows that aren't forbidden, by passes over all of them that put up to
    /// so many of each vehicle into the pool. It ends early once its value reaches this one, in 1/1024
    /// second.
    pub fn solve(
        &mut self,
        table: &RowTable,
        most_value: i64,
        most_rows: usize,
        most_passes: u32,
    ) -> Made<()> {
        self.value = i64::MIN;
        for pass in 0..most_passes.min(MOST_PASSES) {
            self.pivot_on(table)?;
            self.reprice();
            self.find_multipliers(table);
            let added = self.pass(table, most_rows)?;
            if self.value >= most_value || added == 0 || self.is_tired() {
                return Ok(());
            }
            if (pass % 2 == 1 || added < 20) && self.is_near() {
                return Ok(());
            }
        }
        Ok(())
    }

    /// The same from a solution where fewer rows were forbidden, by the dual simplex. False where that fails.
    pub fn solve_dual(
        &mut self,
        table: &RowTable,
        most_value: i64,
        most_rows: usize,
    ) -> Made<bool> {
        let most = MOST_DUAL_PIVOTS.saturating_mul(self.basis.columns.len() as u64);
        let (ended, _) = self.pivot_dual(table, most, i64::MAX)?;
        if ended != Ended::Solved {
            return Ok(false);
        }
        self.solve(table, most_value, most_rows, u32::MAX)?;
        Ok(true)
    }

    /// Puts the rows of least reduced cost of each vehicle under these multipliers into the pool.
    pub fn fill_pool(
        &mut self,
        table: &RowTable,
        multipliers: &[i64],
        most_rows: usize,
    ) -> Made<()> {
        copy(multipliers, &mut self.tried);
        for vehicle in 0..table.vehicle_count() {
            self.look_through(table, vehicle, i64::MAX, most_rows)?;
        }
        Ok(())
    }

    fn add_all(&mut self, table: &RowTable, columns: &[u32]) -> Made<()> {
        for column in columns {
            let cost = at(&self.costs, *column as usize);
            self.pool.add(table, *column as usize, cost)?;
        }
        Ok(())
    }

    /// Takes the rows out of the pool that aren't in the basis and whose reduced cost lies so much above their
    /// vehicle's least one, in 1/1024 second.
    pub fn shrink_pool(&mut self, table: &RowTable, multipliers: &[i64], most: i64) -> Made<()> {
        copy(multipliers, &mut self.tried);
        for vehicle in 0..table.vehicle_count() {
            let bar = self.look_through(table, vehicle, i64::MIN, 0)?;
            for row in table.rows_of(vehicle) {
                let above = table.reduced_cost(multipliers, row).saturating_sub(bar);
                if above > most && !self.basis.has(row) {
                    set_at(&mut self.pool.is_in, row, false);
                }
            }
        }
        self.pool.press(table)
    }

    /// Counts looks at so many rows or columns.
    pub fn count_looks(&mut self, count: usize) {
        self.allowance.spend((count as u64).saturating_mul(A_LOOK));
    }

    /// What is left of its allowance.
    pub fn allowance(&mut self) -> Allowance {
        self.allowance
            .spend(replace(&mut self.basis.factors.work, 0));
        self.allowance
    }

    /// Whether it takes no more columns in.
    pub fn is_tired(&mut self) -> bool {
        self.allowance().rest == 0
    }

    /// Goes to a basis that was one before.
    pub fn go_to(&mut self, table: &RowTable, columns: &[u32]) -> Made<()> {
        self.add_all(table, columns)?;
        self.list_places()?;
        self.basis.go_to(columns)
    }

    /// Writes the basis there.
    pub fn save(&self, saved: &mut Saved) -> Made<()> {
        write_over(&mut saved.prices, &self.prices)?;
        saved.basis.copy_from(&self.basis)
    }

    /// Goes back to the basis that was written there.
    pub fn go_back(&mut self, saved: &Saved) -> Made<()> {
        copy(&saved.prices, &mut self.prices);
        self.basis.copy_from(&saved.basis)
    }

    /// A price in 1/1024 second.
    fn in_multipliers(&self, price: i64) -> i64 {
        let shift = 22 - self.scale.min(21);
        price.wrapping_add(1 << (shift - 1)) >> shift
    }
}

/// How many bits of costs are given up so that they, and what is forbidden, have room before the point.
fn scale_of(table: &RowTable) -> u32 {
    let mut greatest = table.penalty();
    for row in 0..table.row_count() {
        greatest = greatest.max(table.cost(row));
    }
    for scale in 0..14 {
        if greatest >> scale <= 65536 {
            return scale;
        }
    }
    14
}

/// Seconds in units of 2^-32 of 2^scale seconds. What costs very much costs the most.
pub fn in_prices(seconds: i64, scale: u32) -> i64 {
    let units = seconds.clamp(-(1 << 40), 1 << 40) * 256 >> scale.min(20);
    units.clamp(-MOST_COST * 256, MOST_COST * 256) * (1 << 24)
}
