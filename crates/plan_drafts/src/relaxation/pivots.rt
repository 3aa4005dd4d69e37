//! The primal simplex over the pool.
use crate::relaxation::{FORBIDDEN, Relaxation};
use row_tables::fixed_point::{add_at, at, item, set_at, times};
use row_tables::lists::{offer, short};
use row_tables::{Made, RowTable};

/// How many candidates a look at the columns keeps, and for how many turns they are used.
const MOST_CANDIDATES: usize = 8;

/// With so many candidates a look at a part of the pool is enough.
const ENOUGH_CANDIDATES: usize = 4;

/// How many rows a look takes at least.
const LEAST_LOOK: usize = 1000;

/// A reduced cost counts from here on, in units of 2^-32.
const LEAST_GAIN: i64 = 1 << 24;

impl Relaxation {
    /// Takes columns in until the solution over the pool is the best, or one can't come in, or it is tired.
    pub fn pivot_on(&mut self, table: &RowTable) -> Made<()> {
        if self.basis.made.is_none() {
            self.basis.factor(table)?;
        }
        self.candidates.clear();
        self.turns = 0;
        self.reprice();
        let mut is_exact = true;
        for _ in 0..u64::MAX {
            let next = self.next_place()?;
            if self.is_tired() {
                return Ok(());
            }
            match next {
                Some((cost, place)) => {
                    is_exact = false;
                    let column = self.pool.column(place as usize);
                    if !self.enter(table, column, cost)? {
                        return Ok(());
                    }
                }
                None if is_exact => return Ok(()),
                None => {
                    self.reprice();
                    is_exact = true;
                }
            }
        }
        Ok(())
    }

    /// Computes the prices from the basis.
    pub fn reprice(&mut self) {
        for place in 0..self.parts.len() {
            let cost = self.cost_of(self.basis.column(place));
            set_at(&mut self.parts, place, cost);
        }
        self.basis.find_prices(&self.parts, &mut self.prices);
    }

    /// What a column costs.
    pub fn cost_of(&self, column: usize) -> i64 {
        if !self.is_held && self.is_forbidden(column) {
            FORBIDDEN
        } else {
            at(&self.costs, column)
        }
    }

    /// The place in the pool of the column to come in next, and its reduced cost.
    fn next_place(&mut self) -> Made<Option<(i64, u32)>> {
        self.reprice_candidates();
        if self.turns == 0 || self.candidates.is_empty() {
            self.turns = MOST_CANDIDATES as u32;
            self.find_candidates()?;
        } else {
            self.turns = self.turns.saturating_sub(1);
        }
        let mut best = None;
        let mut least = 0;
        for candidate in &self.candidates {
            if candidate.0 < least {
                least = candidate.0;
                best = Some(*candidate);
            }
        }
        Ok(best)
    }

    /// Takes out the candidates that better nothing any more.
    fn reprice_candidates(&mut self) {
        let mut count = 0;
        for number in 0..self.candidates.len() {
            let (_, place) = item(&self.candidates, number, (0, u32::MAX));
            let cost = self.pool.reduced_cost(place as usize, &self.prices);
            if cost < -LEAST_GAIN && !self.basis.has(self.pool.column(place as usize)) {
                set_at(&mut self.candidates, count, (cost, place));
                count = count.wrapping_add(1);
            }
        }
        self.candidates.truncate(count);
    }

    fn find_candidates(&mut self) -> Made<()> {
        self.candidates.clear();
        let count = self.pool.columns.len();
        let look = (count / 4).max(LEAST_LOOK).min(count);
        for part in 0..5_usize {
            let seen = part.wrapping_mul(look);
            self.look_at(look.min(count.saturating_sub(seen)))?;
            if self.candidates.len() >= ENOUGH_CANDIDATES {
                return Ok(());
            }
        }
        Ok(())
    }

    /// Takes those of the next columns among the candidates that better the solution, and do so more than others.
    fn look_at(&mut self, count: usize) -> Made<()> {
        self.count_looks(count);
        for _ in 0..count {
            let place = self.pool.next();
            let cost = self.pool.reduced_cost(place, &self.prices);
            if cost < -LEAST_GAIN {
                let column = self.pool.column(place);
                if self.may_enter(column) {
                    offer(&mut self.candidates, MOST_CANDIDATES, (cost, short(place)))?;
                }
            }
        }
        Ok(())
    }

    /// Whether a column is neither in the basis nor forbidden.
    #[inline]
    pub fn may_enter(&self, column: usize) -> bool {
        !self.basis.has(column) && !self.is_forbidden(column)
    }

    /// Takes a column in. False where it can't come in, or its basis isn't one: another was gone back to.
    fn enter(&mut self, table: &RowTable, column: usize, cost: i64) -> Made<bool> {
        self.basis.find_column(table, column);
        self.pivots = self.pivots.saturating_add(1);
        let Some((place, level)) = self.leaving_place() else {
            return Ok(false);
        };
        if self.basis.exchange(place, column, level)? {
            self.basis.find_row(place, &mut self.row);
            self.change_prices(cost);
            return Ok(true);
        }
        let is_good = self.basis.factor(table)?;
        self.reprice();
        Ok(is_good)
    }

    /// The place that a column that comes in takes, and how much of it comes in. Rows that are held at 0 leave
    /// first.
    fn leaving_place(&self) -> Option<(usize, i64)> {
        if self.is_held {
            if let Some(place) = self.basis.forbidden_place(&self.is_forbidden) {
                return Some((place, 0));
            }
        }
        self.basis.leaving_place()
    }

    /// Changes the prices by the row that was found times this.
    pub fn change_prices(&mut self, factor: i64) {
        for condition in self.row.places() {
            let change = times(self.row.at(condition), factor);
            add_at(&mut self.prices, condition, change);
        }
    }
}
