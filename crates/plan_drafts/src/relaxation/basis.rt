//! A basis of the relaxation, with how much of each column it takes.
use crate::relaxation::factors::Factors;
use crate::relaxation::ordering::{LEAST_PIVOT, Ordering};
use crate::relaxation::sparse::Sparse;
use rand_xoshiro::SplitMix64;
use rand_xoshiro::rand_core::{Rng, SeedableRng};
use row_tables::fixed_point::{
    ONE, add_at, at, copy, is_quotient_above, item, quotient, reset, set_at, times, write_over,
};
use row_tables::lists::short;
use row_tables::{Made, RowTable};
use std::alloc::Global;

/// After so many exchanges the factors are made anew.
const MOST_EXCHANGES: usize = 64;

/// With more conditions than this factors are dear to make.
pub const MANY_CONDITIONS: usize = 800;

/// A level is wrong that lies this far from where it may be.
const LEAST_WRONG: i64 = ONE / 100_000;

/// What the riders' capacities are drawn from.
const SEED: u64 = 6;

/// Which column stands at each place, and the factors of those columns. The places are the conditions.
#[derive(Drop)]
pub struct Basis {
    pub columns: Vec<u32>,
    /// Whether each column is in the basis.
    is_in: Vec<bool>,
    pub levels: Vec<i64>,
    /// How much each condition has: a little more than one where a rider may be left out, so that no two
    /// levels are used up at once.
    capacities: Vec<i64>,
    pub factors: Factors,
    /// How many columns came in, and with how many numbers, when the factors were made; none where there are none.
    pub made: Option<(usize, usize)>,
    /// The last columns that had factors.
    good: Vec<u32>,
    ordering: Ordering,
    /// Costs and prices on their way; all 0 between two calls.
    numbers: Sparse,
    /// The column that was found last, over the places.
    pub entering: Sparse,
}

impl Basis {
    /// No column.
    pub fn new(alloc: Global) -> Self {
        Basis {
            columns: Vec::new(alloc),
            is_in: Vec::new(alloc),
            levels: Vec::new(alloc),
            capacities: Vec::new(alloc),
            factors: Factors::new(alloc),
            made: None,
            good: Vec::new(alloc),
            ordering: Ordering::new(alloc),
            numbers: Sparse::new(alloc),
            entering: Sparse::new(alloc),
        }
    }

    /// Takes these rows of a table, of which no two have a rider in common, one for each vehicle that has any, and
    /// all other riders as left out.
    pub fn begin(&mut self, table: &RowTable, start: &[Option<u32>]) -> Made<()> {
        let count = table.condition_count();
        reset(&mut self.is_in, table.column_count(), false)?;
        reset(&mut self.levels, count, 0)?;
        self.numbers.make_space(count)?;
        self.entering.make_space(count)?;
        self.draw_capacities(table)?;
        for condition in 0..count {
            let vehicle = condition.wrapping_sub(table.rider_count());
            let single = short(table.row_count().saturating_add(condition));
            let column = item(start, vehicle, None).unwrap_or(single);
            self.columns.push(column)?;
            set_at(&mut self.is_in, column as usize, true);
        }
        write_over(&mut self.good, &self.columns)
    }

    fn draw_capacities(&mut self, table: &RowTable) -> Made<()> {
        let mut draws = SplitMix64::seed_from_u64(SEED);
        reset(&mut self.capacities, table.condition_count(), ONE)?;
        for rider in 0..table.rider_count() {
            let more = ONE / (4096 * 2048) * (1 + (draws.next_u64() % 4096) as i64);
            if !table.must(rider) {
                add_at(&mut self.capacities, rider, more);
            }
        }
        Ok(())
    }

    pub fn column(&self, place: usize) -> usize {
        item(&self.columns, place, u32::MAX) as usize
    }

    pub fn has(&self, column: usize) -> bool {
        item(&self.is_in, column, false)
    }

    /// Goes to other columns, which were a basis before.
    pub fn go_to(&mut self, columns: &[u32]) -> Made<()> {
        if columns.len() == self.columns.len() {
            self.put_columns(columns)?;
            self.made = None;
        }
        Ok(())
    }

    fn put_columns(&mut self, columns: &[u32]) -> Made<()> {
        mark(&mut self.is_in, &self.columns, false);
        mark(&mut self.is_in, columns, true);
        write_over(&mut self.columns, columns)
    }

    /// Becomes the same as another basis over the same rows.
    pub fn copy_from(&mut self, other: &Basis) -> Made<()> {
        self.put_columns(&other.columns)?;
        write_over(&mut self.levels, &other.levels)?;
        self.made = other.made;
        self.factors.copy_from(&other.factors)
    }

    /// Makes the factors of the columns, or where there are none goes back to the last columns that had
    /// some. False where it went back.
    pub fn factor(&mut self, table: &RowTable) -> Made<bool> {
        let is_good = self.try_factor(table)?;
        if is_good {
            write_over(&mut self.good, &self.columns)?;
        } else {
            mark(&mut self.is_in, &self.columns, false);
            mark(&mut self.is_in, &self.good, true);
            write_over(&mut self.columns, &self.good)?;
            self.try_factor(table)?;
        }
        self.made = Some((self.factors.pivots.len(), self.factors.size()));
        self.entering.load(&self.capacities);
        self.factors.solve(&mut self.entering);
        copy(&self.entering.numbers, &mut self.levels);
        Ok(is_good)
    }

    fn try_factor(&mut self, table: &RowTable) -> Made<bool> {
        let (columns, factors) = (&mut self.columns, &mut self.factors);
        self.ordering
            .factor(table, columns, factors, &mut self.entering)
    }

    /// Computes how much of each column is taken where each condition has one.
    pub fn find_parts(&mut self, parts: &mut [i64]) {
        for place in 0..parts.len() {
            self.entering.set(place, ONE);
        }
        self.factors.solve(&mut self.entering);
        copy(&self.entering.numbers, parts);
    }

    /// Computes the prices at which each place costs this.
    pub fn find_prices(&mut self, costs: &[i64], prices: &mut [i64]) {
        self.numbers.load(costs);
        self.factors.price(&mut self.numbers);
        copy(&self.numbers.numbers, prices);
    }

    /// Writes the inverse's row of a place over the conditions.
    pub fn find_row(&mut self, place: usize, row: &mut Sparse) {
        row.clear();
        row.set(place, ONE);
        self.factors.price(row);
    }

    /// Computes a column over the places.
    pub fn find_column(&mut self, table: &RowTable, column: usize) {
        self.entering.clear();
        self.entering.add_all(table.conditions_of(column), ONE);
        self.factors.solve(&mut self.entering);
    }

    /// The place whose level is the first to be used up as the column that was found comes in, and how much of
    /// it does.
    pub fn leaving_place(&self) -> Option<(usize, i64)> {
        let mut best = None;
        let mut least = i64::MAX;
        let mut divisor = 0;
        for place in self.entering.places() {
            let value = self.entering.at(place);
            let level = at(&self.levels, place).max(0);
            if value > LEAST_PIVOT && !is_quotient_above(level, value, least) {
                let ratio = quotient(level, value);
                if best.is_none() || ratio < least || (ratio == least && value > divisor) {
                    best = Some((place, ratio));
                    least = ratio;
                    divisor = value;
                }
            }
        }
        best
    }

    /// The place of a forbidden column at which the column that was found is greatest.
    pub fn forbidden_place(&self, is_forbidden: &[bool]) -> Option<usize> {
        let mut best = None;
        let mut most = LEAST_PIVOT;
        for place in self.entering.places() {
            let size = self.entering.at(place).saturating_abs();
            if size > most && item(is_forbidden, self.column(place), false) {
                most = size;
                best = Some(place);
            }
        }
        best
    }

    /// The place whose level is farthest from where it may be: below 0, or not 0 where its column is forbidden.
    pub fn wrong_place(&self, is_forbidden: &[bool]) -> Option<usize> {
        let mut best = None;
        let mut most = LEAST_WRONG;
        for place in 0..self.levels.len() {
            let level = at(&self.levels, place);
            let is_wrong = level < 0 || item(is_forbidden, self.column(place), false);
            if level.saturating_abs() > most && is_wrong {
                most = level.saturating_abs();
                best = Some(place);
            }
        }
        best
    }

    /// Puts the column that was found into this place. False where the factors should be made anew, which is dear where
    /// they have many numbers or there are many conditions.
    pub fn exchange(&mut self, place: usize, column: usize, level: i64) -> Made<bool> {
        self.take_levels(level);
        set_at(&mut self.levels, place, level);
        let leaving = self.column(place);
        set_at(&mut self.is_in, leaving, false);
        set_at(&mut self.columns, place, short(column));
        set_at(&mut self.is_in, column, true);
        self.factors.enter(place, &self.entering)?;
        let (count, size) = self.made.unwrap_or((0, 0));
        let conditions = self.columns.len();
        let each = if conditions > MANY_CONDITIONS { 32 } else { 8 };
        let most = conditions.saturating_mul(each).saturating_add(2000);
        let most = most.max(size.saturating_sub(48_000));
        let more = self.factors.pivots.len().saturating_sub(count);
        Ok(more < MOST_EXCHANGES && self.factors.size().saturating_sub(size) <= most)
    }

    /// Takes so much of the column that was found from the levels.
    fn take_levels(&mut self, level: i64) {
        if level != 0 {
            for place in self.entering.places() {
                let taken = times(self.entering.at(place), level);
                add_at(&mut self.levels, place, taken.wrapping_neg());
            }
        }
    }

    /// Whether columns were exchanged since the factors were made.
    pub fn is_exchanged(&self) -> bool {
        let (count, _) = self.made.unwrap_or((usize::MAX, 0));
        self.factors.pivots.len() > count
    }
}

/// Marks these columns as in the basis, or as not in it.
fn mark(is_in: &mut [bool], columns: &[u32], is_now: bool) {
    for column in columns {
        set_at(is_in, *column as usize, is_now);
    }
}
