//! The dual simplex over the pool (Lemke, 1954): from a solution to one where more rows are forbidden.
use crate::relaxation::Relaxation;
use crate::relaxation::ordering::LEAST_PIVOT;
use row_tables::fixed_point::{add_at, at, quotient, reset, times};
use row_tables::{Made, RowTable};

/// How pivots ended.
#[derive(Clone, Copy)]
pub enum Ended {
    /// No level is wrong any more: the solution over the pool is the best.
    Solved,
    /// It costs as much more as was asked for, or so many columns came in.
    Stopped,
    /// There is no solution, or none that these numbers reach.
    Failed,
}

/// A column that may come in: its reduced cost, and how much of the leaving level one of it takes.
#[derive(Clone, Copy)]
struct Entering {
    column: usize,
    cost: i64,
    value: i64,
}

impl Entering {
    /// Whether the prices use it up before another, if there is one: for less, or for as much at a greater number to
    /// divide by.
    #[inline]
    fn is_first(self, other: Option<Entering>) -> bool {
        let Some(other) = other else {
            return true;
        };
        let cost = i128::from(self.cost).wrapping_mul(i128::from(other.value));
        let others = i128::from(other.cost).wrapping_mul(i128::from(self.value));
        cost < others || (cost == others && self.value > other.value)
    }
}

impl Relaxation {
    /// Takes columns in until no level is wrong, or so many came in, or the cost rose by this. How much it
    /// rose. Forbidden rows are to be held at 0, and prices to be those of the basis where it has factors.
    pub fn pivot_dual(&mut self, table: &RowTable, most: u64, limit: i64) -> Made<(Ended, i64)> {
        if self.basis.made.is_none() {
            self.basis.factor(table)?;
            self.reprice();
        }
        if !self.pool.is_listed {
            self.list_places()?;
        }
        let mut rise: i64 = 0;
        for _ in 0..most {
            let Some(place) = self.basis.wrong_place(&self.is_forbidden) else {
                return Ok((Ended::Solved, rise));
            };
            match self.exchange_at(table, place)? {
                None => return Ok((Ended::Failed, rise)),
                Some(more) => rise = rise.saturating_add(more),
            }
            if rise >= limit || self.is_tired() {
                break;
            }
        }
        Ok((Ended::Stopped, rise))
    }

    /// Lists the places of each condition in the pool, but for those of rows that are forbidden now.
    pub fn list_places(&mut self) -> Made<()> {
        self.pool
            .list_places(self.prices.len(), &self.is_forbidden)?;
        reset(&mut self.products, self.pool.columns.len(), 0)
    }

    /// Has the level at a place leave for the column that prices use up first. How much the cost rises, `None`
    /// where no column may come in.
    fn exchange_at(&mut self, table: &RowTable, place: usize) -> Made<Option<i64>> {
        self.basis.find_row(place, &mut self.row);
        let level = at(&self.basis.levels, place);
        self.find_products(level > 0);
        let Some(entering) = self.entering() else {
            return Ok(None);
        };
        self.basis.find_column(table, entering.column);
        let value = self.basis.entering.at(place);
        if value.saturating_abs() < LEAST_PIVOT || (value > 0) != (level > 0) {
            return self.factor_anew(table);
        }
        let step = quotient(entering.cost, value);
        self.change_prices(step);
        self.pivots = self.pivots.saturating_add(1);
        let part = quotient(level, value);
        if !self.basis.exchange(place, entering.column, part)? {
            if !self.basis.factor(table)? {
                return Ok(None);
            }
            self.reprice();
        }
        Ok(Some(times(step, level)))
    }

    /// Makes the factors anew, where that can help: the cost stays. `None` where it can't.
    fn factor_anew(&mut self, table: &RowTable) -> Made<Option<i64>> {
        if self.basis.is_exchanged() && self.basis.factor(table)? {
            self.reprice();
            Ok(Some(0))
        } else {
            Ok(None)
        }
    }

    /// The column whose reduced cost is used up first as the prices change with the row that was found.
    fn entering(&self) -> Option<Entering> {
        let mut best = None;
        for (place, value) in self.products.iter().enumerate() {
            let value = *value;
            if value <= LEAST_PIVOT {
                continue;
            }
            let found = Entering {
                column: self.pool.column(place),
                cost: self.pool.reduced_cost(place, &self.prices).max(0),
                value,
            };
            if found.is_first(best) && self.may_enter(found.column) {
                best = Some(found);
            }
        }
        best
    }

    /// Adds the row that was found up over the conditions of each place of the pool, or its negative where the
    /// leaving level is too low.
    fn find_products(&mut self, is_high: bool) {
        self.products.as_mut_slice().fill(0);
        let mut count = self.products.len() as u64 / 8;
        for condition in self.row.places() {
            let value = self.row.at(condition);
            let value = if is_high { value } else { value.wrapping_neg() };
            let places = self.pool.places.list(condition);
            for place in places {
                add_at(&mut self.products, *place as usize, value);
            }
            count = count.saturating_add(places.len() as u64);
        }
        self.allowance.spend(count);
    }
}
