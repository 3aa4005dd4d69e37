//! A basis as a product of two triangles, and of the columns that came in since they were made.
//!
//! The triangles are made column by column (Crout, 1941), of the numbers at conditions where no column stands yet and
//! of those at the others. A column that comes in later is kept as it was over the places (product form of the
//! inverse; Dantzig and Orchard-Hays, 1954). Only numbers that aren't 0 are kept.
use crate::relaxation::sparse::Sparse;
use row_tables::Made;
use row_tables::fixed_point::{ONE, is_noise, item, part, quotient, write_over};
use row_tables::lists::{Lists, short};
use std::alloc::Global;
use std::mem::replace;

/// How many columns that are passed over count as one number that is gone through.
const A_NUMBER: usize = 8;

/// No column stands here.
pub const NONE: u32 = u32::MAX;

/// Columns of numbers, each with 64 marks of the places where it isn't 0: one without any of some marks meets none of
/// their places.
#[derive(Drop)]
struct Columns {
    places: Lists,
    numbers: Vec<i64>,
    marks: Vec<u64>,
    /// The marks of the column at hand.
    mark: u64,
}

impl Columns {
    fn new(alloc: Global) -> Self {
        Columns {
            places: Lists::new(alloc),
            numbers: Vec::new(alloc),
            marks: Vec::new(alloc),
            mark: 0,
        }
    }

    fn clear(&mut self) {
        self.places.clear();
        self.numbers.clear();
        self.marks.clear();
    }

    fn copy_from(&mut self, other: &Columns) -> Made<()> {
        self.places.copy_from(&other.places)?;
        write_over(&mut self.numbers, &other.numbers)?;
        write_over(&mut self.marks, &other.marks)
    }

    fn push(&mut self, place: usize, number: i64) -> Made<()> {
        if !is_noise(number) {
            self.mark |= mark_of(place);
            self.places.push(place)?;
            self.numbers.push(number)?;
        }
        Ok(())
    }

    fn end(&mut self) -> Made<()> {
        self.marks.push(replace(&mut self.mark, 0))?;
        self.places.end()
    }

    /// The places where a column isn't 0, and its numbers there.
    #[inline]
    fn column(&self, number: usize) -> (&[u32], &[i64]) {
        let start = self.places.start(number);
        let places = self.places.list(number);
        let end = start.saturating_add(places.len());
        (places, part(&self.numbers, start, end))
    }
}

/// The factors of a basis.
#[derive(Drop)]
pub struct Factors {
    /// At which place each column came in, and its number there.
    pub pivots: Vec<(u32, i64)>,
    /// The other numbers of each column: of one of the triangles those at places where none had come in before it.
    columns: Columns,
    /// The numbers of the triangles' columns where others had come in before.
    above: Columns,
    /// How many numbers were gone through so far.
    pub work: u64,
}

impl Factors {
    pub fn new(alloc: Global) -> Self {
        Factors {
            pivots: Vec::new(alloc),
            columns: Columns::new(alloc),
            above: Columns::new(alloc),
            work: 0,
        }
    }

    pub fn clear(&mut self) {
        self.pivots.clear();
        self.columns.clear();
        self.above.clear();
    }

    pub fn copy_from(&mut self, other: &Factors) -> Made<()> {
        write_over(&mut self.pivots, &other.pivots)?;
        self.work = self.work.wrapping_add(other.size() as u64);
        self.columns.copy_from(&other.columns)?;
        self.above.copy_from(&other.above)
    }

    /// How many numbers they have.
    pub fn size(&self) -> usize {
        let above = self.above.numbers.len();
        self.columns.numbers.len().saturating_add(above)
    }

    /// Has a column of ones be the next of the triangles, of which no column before changes anything. Where a column
    /// came in before is placed.
    pub fn add_ones(&mut self, place: usize, places: &[u32], placed: &[u32]) -> Made<()> {
        if places.len() <= 1 {
            return Ok(());
        }
        for other in places {
            self.part(place, *other as usize, ONE, placed)?;
        }
        self.above.end()?;
        self.end(place, ONE)
    }

    /// Has a reduced column be the next of the triangles.
    pub fn add(&mut self, place: usize, column: &Sparse, placed: &[u32]) -> Made<()> {
        for other in column.places() {
            self.part(place, other, column.at(other), placed)?;
        }
        self.above.end()?;
        self.end(place, column.at(place))
    }

    /// Puts a number of a column into the one triangle or the other.
    fn part(&mut self, place: usize, other: usize, number: i64, placed: &[u32]) -> Made<()> {
        if item(placed, other, NONE) != NONE {
            self.above.push(other, number)
        } else if other != place {
            self.columns.push(other, number)
        } else {
            Ok(())
        }
    }

    /// Has a column come in at a place, as it is over all places.
    pub fn enter(&mut self, place: usize, column: &Sparse) -> Made<()> {
        for other in column.places() {
            if other != place {
                self.columns.push(other, column.at(other))?;
            }
        }
        self.end(place, column.at(place))
    }

    fn end(&mut self, place: usize, value: i64) -> Made<()> {
        self.pivots.push((short(place), value))?;
        self.columns.end()
    }

    /// Writes numbers over the places where numbers over the conditions stand.
    pub fn solve(&mut self, column: &mut Sparse) {
        let count = self.above.marks.len();
        self.reduce(column);
        for number in (0..count).rev() {
            let value = column.at(self.pivot(number).0);
            if !is_noise(value) {
                let (places, numbers) = self.above.column(number);
                column.take_products(places, numbers, value);
                self.work = self.work.wrapping_add(places.len() as u64);
            }
        }
        let end = self.pivots.len();
        self.take_from(column, count, end);
    }

    /// Takes the first triangle's columns from a column over the conditions, as far as there are any.
    pub fn reduce(&mut self, column: &mut Sparse) {
        let end = self.above.marks.len();
        self.take_from(column, 0, end);
    }

    /// Takes these columns from one, in their order.
    fn take_from(&mut self, column: &mut Sparse, first: usize, end: usize) {
        let passed = end.saturating_sub(first) / A_NUMBER;
        self.work = self.work.wrapping_add(passed as u64);
        for number in first..end {
            let (place, divisor) = self.pivot(number);
            let value = column.at(place);
            if !is_noise(value) {
                let value = quotient(value, divisor);
                column.set(place, value);
                let (places, numbers) = self.columns.column(number);
                column.take_products(places, numbers, value);
                self.work = self.work.wrapping_add(places.len() as u64);
            }
        }
    }

    /// Writes prices of the conditions in place of the costs of the places.
    pub fn price(&mut self, costs: &mut Sparse) {
        let count = self.above.marks.len();
        let mut marks = 0;
        for place in costs.places() {
            marks |= mark_of(place);
        }
        let end = self.pivots.len();
        marks = self.price_by(costs, count, end, marks);
        for number in 0..count {
            if item(&self.above.marks, number, 0) & marks != 0 {
                let place = self.pivot(number).0;
                let (places, numbers) = self.above.column(number);
                let rest = costs.less_products(costs.at(place), places, numbers);
                costs.set(place, rest);
                marks |= mark_of(place);
                self.work = self.work.wrapping_add(places.len() as u64);
            }
        }
        self.price_by(costs, 0, count, marks);
    }

    /// Prices the places of these columns, the last one first. The marks of all that isn't 0 then.
    fn price_by(&mut self, costs: &mut Sparse, first: usize, end: usize, marks: u64) -> u64 {
        let mut marks = marks;
        let passed = end.saturating_sub(first) / A_NUMBER;
        self.work = self.work.wrapping_add(passed as u64);
        for number in (first..end).rev() {
            let (place, divisor) = self.pivot(number);
            let mut rest = costs.at(place);
            if item(&self.columns.marks, number, 0) & marks != 0 {
                let (places, numbers) = self.columns.column(number);
                rest = costs.less_products(rest, places, numbers);
                self.work = self.work.wrapping_add(places.len() as u64);
            }
            if rest != 0 {
                marks |= mark_of(place);
            }
            costs.set(place, quotient(rest, divisor));
        }
        marks
    }

    #[inline]
    fn pivot(&self, number: usize) -> (usize, i64) {
        let (place, divisor) = item(&self.pivots, number, (NONE, ONE));
        (place as usize, divisor)
    }
}

/// One of 64 marks for a place: columns whose marks are all others than those of some numbers meet none of these.
#[inline]
fn mark_of(place: usize) -> u64 {
    1 << (place % 64)
}
