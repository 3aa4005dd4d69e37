//! Multipliers from prices, their value over all rows, and rows that better a solution.
use crate::relaxation::Relaxation;
use row_tables::fixed_point::{at, copy, item, set_at};
use row_tables::lists::{offer, short};
use row_tables::{Made, RowTable};

/// What a vehicle adds to a value that has no row left: more than any plan costs.
const NO_ROW: i64 = 1 << 41;

/// A row betters a solution from here on, in 1/1024 second.
const LEAST_GAIN: i64 = 8;

impl Relaxation {
    /// Rounds the riders' prices to multipliers.
    pub fn find_multipliers(&mut self, table: &RowTable) {
        for rider in 0..self.tried.len() {
            let multiplier = self.in_multipliers(at(&self.prices, rider));
            let multiplier = multiplier.min(table.most_multiplier(rider));
            set_at(&mut self.tried, rider, multiplier);
        }
    }

    /// Computes the value of the multipliers over all rows, keeps them where they are the best so far, and
    /// puts up to so many rows of each vehicle into the pool. How many.
    pub fn pass(&mut self, table: &RowTable, most_rows: usize) -> Made<usize> {
        let before = self.pool.columns.len();
        self.count_looks(table.row_count());
        let mut value = table.value_of_riders(&self.tried);
        for vehicle in 0..table.vehicle_count() {
            let condition = table.rider_count().saturating_add(vehicle);
            let price = self.in_multipliers(at(&self.prices, condition));
            let bar = price.saturating_sub(LEAST_GAIN);
            value = value.wrapping_add(self.look_through(table, vehicle, bar, most_rows)?);
        }
        if value > self.value {
            self.value = value;
            copy(&self.tried, &mut self.multipliers);
        }
        Ok(self.pool.columns.len().saturating_sub(before))
    }

    /// The least reduced cost of the vehicle's rows under the multipliers at hand. Puts those below the bar into the
    /// pool, the least ones first, up to so many.
    pub fn look_through(
        &mut self,
        table: &RowTable,
        vehicle: usize,
        bar: i64,
        most_rows: usize,
    ) -> Made<i64> {
        let mut least = if table.rows_of(vehicle).is_empty() {
            0
        } else {
            NO_ROW
        };
        self.offers.clear();
        for row in table.rows_of(vehicle) {
            if !item(&self.is_forbidden, row, true) {
                let cost = table.reduced_cost(&self.tried, row);
                least = least.min(cost);
                if cost < bar && !item(&self.pool.is_in, row, false) {
                    offer(&mut self.offers, most_rows, (cost, short(row)))?;
                }
            }
        }
        for offered in &self.offers {
            let row = offered.1 as usize;
            let cost = at(&self.costs, row);
            self.pool.add(table, row, cost)?;
        }
        Ok(least)
    }
}
