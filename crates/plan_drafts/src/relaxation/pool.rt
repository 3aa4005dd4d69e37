//! The columns over which a solution is sought.
use row_tables::fixed_point::{at, item, set_at};
use row_tables::lists::{Lists, short};
use row_tables::{Made, RowTable};
use std::alloc::Global;

/// The columns of the riders, each at her number as its place, and behind them those of some rows.
#[derive(Drop)]
pub struct Pool {
    pub columns: Vec<u32>,
    /// Whether each column of the table is in, or is to stay in once the pool is pressed together.
    pub is_in: Vec<bool>,
    /// For each place what its column costs and its conditions: they lie side by side, unlike those of a table,
    /// of which a pool has few rows.
    pub costs: Vec<i64>,
    conditions: Lists,
    /// The same conditions, but none of a column that was forbidden when they were listed; and for each condition the
    /// places of the columns with it.
    open: Lists,
    pub places: Lists,
    /// Whether each column's conditions are listed that aren't forbidden.
    pub is_listed: bool,
    /// Where the next look at the columns starts.
    cursor: usize,
}

impl Pool {
    /// No column.
    pub fn new(alloc: Global) -> Self {
        Pool {
            columns: Vec::new(alloc),
            is_in: Vec::new(alloc),
            costs: Vec::new(alloc),
            conditions: Lists::new(alloc),
            open: Lists::new(alloc),
            places: Lists::new(alloc),
            is_listed: false,
            cursor: 0,
        }
    }

    /// Takes in a column, where it isn't in yet.
    pub fn add(&mut self, table: &RowTable, column: usize, cost: i64) -> Made<()> {
        if item(&self.is_in, column, true) {
            return Ok(());
        }
        set_at(&mut self.is_in, column, true);
        self.is_listed = false;
        self.columns.push(short(column))?;
        self.costs.push(cost)?;
        self.conditions.push_list(table.conditions_of(column))
    }

    /// Presses the columns together that are in.
    pub fn press(&mut self, table: &RowTable) -> Made<()> {
        let mut count = 0;
        self.conditions.clear();
        for place in 0..self.columns.len() {
            let column = self.column(place);
            if item(&self.is_in, column, false) {
                let cost = at(&self.costs, place);
                set_at(&mut self.columns, count, short(column));
                set_at(&mut self.costs, count, cost);
                self.conditions.push_list(table.conditions_of(column))?;
                count = count.wrapping_add(1);
            }
        }
        self.columns.truncate(count);
        self.costs.truncate(count);
        self.is_listed = false;
        Ok(())
    }

    /// The place at the cursor, which moves on, from the last place to the first.
    pub fn next(&mut self) -> usize {
        let is_in = self.cursor < self.columns.len();
        let place = if is_in { self.cursor } else { 0 };
        self.cursor = place.saturating_add(1);
        place
    }

    /// The column at a place.
    pub fn column(&self, place: usize) -> usize {
        item(&self.columns, place, u32::MAX) as usize
    }

    /// What the column at a place costs, less the prices of its conditions.
    #[inline]
    pub fn reduced_cost(&self, place: usize, prices: &[i64]) -> i64 {
        let mut rest = at(&self.costs, place);
        for condition in self.conditions.list(place) {
            rest = rest.wrapping_sub(at(prices, *condition as usize));
        }
        rest
    }

    /// Lists the places of each condition, below this many, but for those of forbidden columns.
    pub fn list_places(&mut self, conditions: usize, is_forbidden: &[bool]) -> Made<()> {
        self.is_listed = true;
        self.open.clear();
        for place in 0..self.columns.len() {
            if item(is_forbidden, self.column(place), false) {
                self.open.end()?;
            } else {
                self.open.push_list(self.conditions.list(place))?;
            }
        }
        self.places.transpose(&self.open, conditions)
    }
}
