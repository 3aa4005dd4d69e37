//! In which order the columns of a basis come in, and at which conditions.
//!
//! Columns with a single condition left come first, and then conditions with a single column left, each with that
//! column: both need no arithmetic. The rest comes by rising size.
use crate::relaxation::factors::{Factors, NONE};
use crate::relaxation::sparse::Sparse;
use row_tables::fixed_point::{ONE, item, reset, set_at, write_over};
use row_tables::lists::{Lists, short};
use row_tables::{Made, RowTable};
use std::alloc::Global;

/// A number of a column may be divided by from here on.
pub const LEAST_PIVOT: i64 = ONE / 1000;

/// The columns or the conditions, each with the numbers of those that it meets, and how many of these are left; none
/// once it is done.
#[derive(Drop)]
struct Side {
    lists: Lists,
    counts: Vec<u32>,
}

impl Side {
    fn new(alloc: Global) -> Self {
        Side {
            lists: Lists::new(alloc),
            counts: Vec::new(alloc),
        }
    }

    fn count_all(&mut self) -> Made<()> {
        self.counts.clear();
        for number in 0..self.lists.len() {
            self.counts.push(short(self.lists.list(number).len()))?;
        }
        Ok(())
    }

    #[inline]
    fn count(&self, number: usize) -> u32 {
        item(&self.counts, number, 0)
    }

    /// The first of these that is left.
    fn first_left(&self, numbers: &[u32]) -> Option<usize> {
        for number in numbers {
            if self.count(*number as usize) > 0 {
                return Some(*number as usize);
            }
        }
        None
    }

    /// Takes one of those that each of these meets.
    fn take_one(&mut self, numbers: &[u32]) {
        for number in numbers {
            let count = self.count(*number as usize).saturating_sub(1);
            set_at(&mut self.counts, *number as usize, count);
        }
    }
}

/// The order of a basis's columns, and the work space to find it.
#[derive(Drop)]
pub struct Ordering {
    columns: Side,
    conditions: Side,
    queue: Vec<u32>,
    /// The columns with a single condition left and the numbers of these, of which there are so many, and behind them
    /// the conditions with a single column left and the numbers of these.
    pairs: Vec<(u32, u32)>,
    split: usize,
    /// How many conditions of each column of the rest are left, and its number.
    rest: Vec<(u32, u32)>,
    /// The column at each condition.
    placed: Vec<u32>,
}

impl Ordering {
    pub fn new(alloc: Global) -> Self {
        Ordering {
            columns: Side::new(alloc),
            conditions: Side::new(alloc),
            queue: Vec::new(alloc),
            pairs: Vec::new(alloc),
            split: 0,
            rest: Vec::new(alloc),
            placed: Vec::new(alloc),
        }
    }

    /// Makes the factors of these columns, and has each stand at the condition where it came in. False where one
    /// can't come in. The numbers are work space.
    pub fn factor(
        &mut self,
        table: &RowTable,
        columns: &mut Vec<u32>,
        factors: &mut Factors,
        numbers: &mut Sparse,
    ) -> Made<bool> {
        self.find(table, columns)?;
        factors.clear();
        reset(&mut self.placed, columns.len(), NONE)?;
        for turn in 0..columns.len() {
            let (place, condition) = self.turn(turn);
            let place = place as usize;
            match self.enter(condition, place, factors, numbers)? {
                None => return Ok(false),
                Some(condition) => set_at(&mut self.placed, condition, item(columns, place, NONE)),
            }
        }
        write_over(columns, &self.placed)?;
        Ok(true)
    }

    /// The number and the condition of the column that comes in at this turn, no condition for the rest.
    fn turn(&self, turn: usize) -> (u32, u32) {
        let (one, other) = item(&self.pairs, turn, (NONE, NONE));
        if turn < self.split {
            return (one, other);
        }
        if turn < self.pairs.len() {
            return (other, one);
        }
        let turn = turn.saturating_sub(self.pairs.len());
        (item(&self.rest, turn, (0, NONE)).1, NONE)
    }

    /// Has a column come in. At which condition.
    fn enter(
        &mut self,
        condition: u32,
        place: usize,
        factors: &mut Factors,
        numbers: &mut Sparse,
    ) -> Made<Option<usize>> {
        let met = self.columns.lists.list(place);
        if condition != NONE {
            factors.add_ones(condition as usize, met, &self.placed)?;
            return Ok(Some(condition as usize));
        }
        numbers.clear();
        numbers.add_all(met, ONE);
        factors.reduce(numbers);
        let found = self.emptiest_condition(numbers);
        if let Some(condition) = found {
            factors.add(condition, numbers, &self.placed)?;
            set_at(&mut self.conditions.counts, condition, 0);
        }
        Ok(found)
    }

    /// Orders these columns.
    fn find(&mut self, table: &RowTable, columns: &[u32]) -> Made<()> {
        self.columns.lists.clear();
        for column in columns {
            let conditions = table.conditions_of(*column as usize);
            self.columns.lists.push_list(conditions)?;
        }
        self.conditions
            .lists
            .transpose(&self.columns.lists, columns.len())?;
        self.columns.count_all()?;
        self.conditions.count_all()?;
        self.pairs.clear();
        let (columns, conditions) = (&mut self.columns, &mut self.conditions);
        peel(columns, conditions, &mut self.queue, &mut self.pairs)?;
        self.split = self.pairs.len();
        peel(conditions, columns, &mut self.queue, &mut self.pairs)?;
        self.order_rest()
    }

    fn order_rest(&mut self) -> Made<()> {
        self.rest.clear();
        for place in 0..self.columns.lists.len() {
            let count = self.columns.count(place);
            if count > 0 {
                self.rest.push((count, short(place)))?;
            }
        }
        self.rest.as_mut_slice().sort_unstable();
        Ok(())
    }

    /// Of the conditions that are left, at which these are at least a third of their greatest number there, the
    /// one that the fewest columns meet.
    fn emptiest_condition(&self, numbers: &Sparse) -> Option<usize> {
        let mut greatest = LEAST_PIVOT;
        for condition in numbers.places() {
            if self.conditions.count(condition) > 0 {
                greatest = greatest.max(numbers.at(condition).saturating_abs());
            }
        }
        let mut best = None;
        let mut best_rank = (u32::MAX, i64::MAX);
        for condition in numbers.places() {
            let size = numbers.at(condition).saturating_abs();
            let count = self.conditions.count(condition);
            let rank = (count, size.wrapping_neg());
            if count > 0 && size >= greatest / 3 && size >= LEAST_PIVOT && rank < best_rank {
                best = Some(condition);
                best_rank = rank;
            }
        }
        best
    }
}

/// Pairs those of one side that meet a single one of the other with that, one after the other.
fn peel(
    side: &mut Side,
    others: &mut Side,
    queue: &mut Vec<u32>,
    pairs: &mut Vec<(u32, u32)>,
) -> Made<()> {
    queue.clear();
    for number in 0..side.lists.len() {
        if side.count(number) == 1 {
            queue.push(short(number))?;
        }
    }
    for turn in 0..side.lists.len() {
        if turn >= queue.len() {
            return Ok(());
        }
        let number = item(queue, turn, NONE);
        let met = side.lists.list(number as usize);
        if let Some(other) = others.first_left(met) {
            others.take_one(met);
            set_at(&mut others.counts, other, 0);
            pairs.push((number, short(other)))?;
            for near in others.lists.list(other) {
                let count = side.count(*near as usize);
                set_at(&mut side.counts, *near as usize, count.saturating_sub(1));
                if count == 2 {
                    queue.push(*near)?;
                }
            }
        }
    }
    Ok(())
}
