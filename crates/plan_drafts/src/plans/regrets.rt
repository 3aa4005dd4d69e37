//! The rows that plans are made of, by regret.
//!
//! Under multipliers a plan costs the bound and regrets, none below 0: for each vehicle what the reduced
//! cost of its row lies above the vehicle's least, and for each rider who is left out what that costs above
//! her multiplier. Of each vehicle's rows only those of least regret are looked at.

use row_tables::fixed_point::{at, item, reset, set_at};
use row_tables::lists::{Lists, short};
use row_tables::{Made, RowTable};
use std::alloc::Global;

/// How many rows of a vehicle are looked at, beside its first one.
const MOST_ROWS: usize = 200;

/// A regret and a row, by which rows are sorted.
type Rank = (i64, u32);

/// A table of rows with their regrets, in 1/1024 second.
#[derive(Drop)]
pub struct Regrets<'a> {
    pub table: &'a RowTable,
    /// For each row its regret.
    above: Vec<i64>,
    /// For each rider what it costs to leave her out above her multiplier.
    pub left: Vec<i64>,
    /// For each vehicle its rows that are looked at, and for each rider those that have her, by rising regret.
    pub rows: Lists,
    pub with: Lists,
    /// What each rider is worth, which rows are looked at, and those of a vehicle or a rider by rising regret.
    prices: Vec<i64>,
    is_listed: Vec<bool>,
    ranks: Vec<Rank>,
}

impl<'a> Regrets<'a> {
    /// No regrets.
    pub fn new(alloc: Global, table: &'a RowTable) -> Self {
        Regrets {
            table,
            above: Vec::new(alloc),
            left: Vec::new(alloc),
            rows: Lists::new(alloc),
            with: Lists::new(alloc),
            prices: Vec::new(alloc),
            is_listed: Vec::new(alloc),
            ranks: Vec::new(alloc),
        }
    }

    /// Finds the regrets under these multipliers, in 1/1024 second.
    pub fn fill(&mut self, multipliers: &[i64]) -> Made<()> {
        self.price_riders(multipliers)?;
        for vehicle in 0..self.table.vehicle_count() {
            self.reduce(vehicle)?;
        }
        self.list()
    }

    /// What each rider is worth: her multiplier, and at most what it costs to leave her out.
    fn price_riders(&mut self, multipliers: &[i64]) -> Made<()> {
        for rider in 0..self.table.rider_count() {
            let cost = self.table.cost_left(rider).saturating_mul(1024);
            let price = at(multipliers, rider).min(cost);
            self.prices.push(price)?;
            self.left.push(cost.saturating_sub(price))?;
        }
        Ok(())
    }

    /// Notes the regrets of a vehicle's rows.
    fn reduce(&mut self, vehicle: usize) -> Made<()> {
        let least = self.least_cost(vehicle);
        for row in self.table.rows_of(vehicle) {
            let cost = self.table.reduced_cost(&self.prices, row);
            self.above.push(cost.saturating_sub(least))?;
        }
        Ok(())
    }

    /// The least reduced cost of a vehicle's rows.
    fn least_cost(&self, vehicle: usize) -> i64 {
        let mut least = i64::MAX;
        for row in self.table.rows_of(vehicle) {
            least = least.min(self.table.reduced_cost(&self.prices, row));
        }
        least
    }

    /// Lists the rows that are looked at.
    fn list(&mut self) -> Made<()> {
        reset(&mut self.is_listed, self.table.row_count(), false)?;
        for vehicle in 0..self.table.vehicle_count() {
            self.rank_vehicle(vehicle)?;
            self.list_vehicle(vehicle)?;
        }
        self.list_riders()
    }

    /// All rows of the vehicle by rising regret.
    fn rank_vehicle(&mut self, vehicle: usize) -> Made<()> {
        self.ranks.clear();
        for row in self.table.rows_of(vehicle) {
            let rank = (self.above(short(row)), short(row));
            self.ranks.push(rank)?;
        }
        self.ranks.as_mut_slice().sort_unstable();
        Ok(())
    }

    /// Lists the vehicle's rows of least regret and its first one, and marks them.
    fn list_vehicle(&mut self, vehicle: usize) -> Made<()> {
        let first = self.table.rows_of(vehicle).start;
        for (place, rank) in self.ranks.iter().enumerate() {
            let row = rank.1 as usize;
            if place < MOST_ROWS || row == first {
                self.rows.push(row)?;
                set_at(&mut self.is_listed, row, true);
            }
        }
        self.rows.end()
    }

    /// Lists for each rider the marked rows that have her.
    fn list_riders(&mut self) -> Made<()> {
        for rider in 0..self.table.rider_count() {
            self.rank_rider(rider)?;
            for rank in &self.ranks {
                self.with.push(rank.1 as usize)?;
            }
            self.with.end()?;
        }
        Ok(())
    }

    /// The marked rows that have the rider, by rising regret.
    fn rank_rider(&mut self, rider: usize) -> Made<()> {
        self.ranks.clear();
        for row in self.table.rows_with(rider) {
            if item(&self.is_listed, *row as usize, false) {
                let rank = (self.above(*row), *row);
                self.ranks.push(rank)?;
            }
        }
        self.ranks.as_mut_slice().sort_unstable();
        Ok(())
    }

    /// The regret of this row.
    #[inline]
    pub fn above(&self, row: u32) -> i64 {
        at(&self.above, row as usize)
    }
}
