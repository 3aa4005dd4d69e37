//! The best rows for a few vehicles, by a search depth first (Little and others, 1963).
//!
//! The vehicle with the fewest rows that fit is first, and each tries its rows by rising regret, as long as
//! the regrets so far and the least of the vehicles to come stay below the best choice's. What it costs to
//! leave a rider out counts as soon as the last vehicle that could serve her has its row.

use crate::plans::present::Present;
use crate::plans::regrets::Regrets;
use row_tables::Made;
use row_tables::fixed_point::{at, item, set_at, write_over};
use row_tables::lists::short;
use std::alloc::Global;

/// How many rows are looked at for a choice at most, on the average.
const MOST_TRIES: u64 = 200;

/// With more riders than this some have the same mark, and seem to be served when another is.
const MARKS: u32 = 128;

/// How many numbers a look at a row counts as.
const A_ROW: u64 = 8;

/// A row that fits, with its regret, what it costs to leave out those of its riders whom no later turn could serve, and
/// marks of its riders.
#[derive(Clone, Copy)]
struct Fit {
    row: u32,
    above: i64,
    last: i64,
    marks: u128,
}

const NO_FIT: Fit = Fit {
    row: 0,
    above: 0,
    last: 0,
    marks: 0,
};

/// A vehicle's turn to choose.
#[derive(Clone, Copy)]
struct Turn {
    /// Where its rows begin and end, and which comes next.
    first: usize,
    end: usize,
    next: usize,
    /// The regret of the choices before it with marks of their riders, and the least regret from it on.
    sum: i64,
    served: u128,
    least: i64,
    /// What it costs to leave out the riders whom it could serve last and no choice serves.
    left: i64,
}

const NO_TURN: Turn = Turn {
    first: 0,
    end: 0,
    next: 0,
    sum: 0,
    served: 0,
    least: 0,
    left: 0,
};

/// A search, and the work space for the next one.
#[derive(Drop)]
pub struct Choices {
    /// The rows that fit, a vehicle's side by side, by rising regret.
    fits: Vec<Fit>,
    /// For each vehicle how many rows fit and where they begin, the fewest rows first, and the turns, in this order.
    sizes: Vec<(usize, usize)>,
    turns: Vec<Turn>,
    /// For each rider who can be served the last turn that could do it, and her number; and how many there are.
    pub closings: Vec<Option<(u32, u32)>>,
    riders: u32,
    /// The row of each turn, and those of the best choice.
    picks: Vec<u32>,
    best: Vec<u32>,
    /// How many numbers the last search went through.
    pub work: u64,
}

impl Choices {
    pub fn new(alloc: Global) -> Self {
        Choices {
            fits: Vec::new(alloc),
            sizes: Vec::new(alloc),
            turns: Vec::new(alloc),
            closings: Vec::new(alloc),
            riders: 0,
            picks: Vec::new(alloc),
            best: Vec::new(alloc),
            work: 0,
        }
    }

    /// Gives these vehicles the best rows that it finds, with none better than the present ones. What that
    /// saves, in 1/1024 second.
    pub fn choose(
        &mut self,
        regrets: &Regrets,
        present: &mut Present,
        vehicles: &[u32],
        most_steps: u32,
    ) -> Made<i64> {
        for vehicle in vehicles {
            present.release(regrets.table, *vehicle as usize);
        }
        self.find_turns(regrets, present, vehicles)?;
        let left = self.look_ahead(regrets);
        let before = self.begin(regrets, present, vehicles, left)?;
        let after = self.search(regrets, before.saturating_add(1), most_steps)?;
        for row in &self.best {
            present.give(regrets.table, *row);
        }
        Ok(before.saturating_sub(after).max(0))
    }

    /// Lists the rows of each vehicle whose riders nobody serves, and puts the shorter lists first.
    fn find_turns(&mut self, regrets: &Regrets, present: &Present, vehicles: &[u32]) -> Made<()> {
        self.fits.clear();
        self.sizes.clear();
        self.work = 0;
        for vehicle in vehicles {
            let first = self.fits.len();
            self.add_fits(regrets, present, *vehicle as usize)?;
            let size = self.fits.len().saturating_sub(first);
            self.sizes.push((size, first))?;
        }
        self.sizes.as_mut_slice().sort_unstable();
        self.turns.clear();
        for (size, first) in &self.sizes {
            self.turns.push(Turn {
                first: *first,
                end: first.saturating_add(*size),
                next: *first,
                sum: 0,
                served: 0,
                least: 0,
                left: 0,
            })?;
        }
        Ok(())
    }

    fn add_fits(&mut self, regrets: &Regrets, present: &Present, vehicle: usize) -> Made<()> {
        let rows = regrets.rows.list(vehicle);
        let looks = (rows.len() as u64).saturating_mul(A_ROW);
        self.work = self.work.saturating_add(looks);
        for row in rows {
            if present.is_free(regrets.table, *row) {
                self.fits.push(Fit {
                    row: *row,
                    above: regrets.above(*row),
                    last: 0,
                    marks: 0,
                })?;
            }
        }
        Ok(())
    }

    /// The turn of this number, an empty one behind the last.
    #[inline]
    fn turn(&self, number: usize) -> Turn {
        item(&self.turns, number, NO_TURN)
    }

    /// Finds for each turn, the last first, the least regret from it on, and the riders whom no later one could serve.
    /// What it costs to leave out all riders whom one could serve.
    fn look_ahead(&mut self, regrets: &Regrets) -> i64 {
        self.closings.as_mut_slice().fill(None);
        self.riders = 0;
        let mut least: i64 = 0;
        let mut left_of_all: i64 = 0;
        for number in (0..self.turns.len()).rev() {
            let turn = self.turn(number);
            if turn.first < turn.end {
                least = least.saturating_add(item(&self.fits, turn.first, NO_FIT).above);
            }
            let left = self.close_riders(regrets, turn, short(number));
            left_of_all = left_of_all.saturating_add(left);
            if let Some(turn) = self.turns.get_mut(number) {
                turn.least = least;
                turn.left = left;
            }
        }
        left_of_all
    }

    /// Has this turn be the last that could serve its riders whom no later one could. What it costs to leave them out.
    fn close_riders(&mut self, regrets: &Regrets, turn: Turn, number: u32) -> i64 {
        let mut left: i64 = 0;
        for place in turn.first..turn.end {
            left = left.saturating_add(self.close_row(regrets, place, number));
        }
        left
    }

    /// The same for the riders of a row.
    fn close_row(&mut self, regrets: &Regrets, place: usize, number: u32) -> i64 {
        let mut fit = item(&self.fits, place, NO_FIT);
        let mut left: i64 = 0;
        for rider in regrets.table.riders_of(fit.row as usize) {
            let regret = at(&regrets.left, *rider as usize);
            let known = item(&self.closings, *rider as usize, None);
            let (turn, mark) = known.unwrap_or((number, self.riders));
            if known.is_none() {
                set_at(&mut self.closings, *rider as usize, Some((turn, mark)));
                self.riders = self.riders.saturating_add(1);
                left = left.saturating_add(regret);
            }
            if turn == number {
                fit.last = fit.last.saturating_add(regret);
            }
            fit.marks |= 1 << (mark % MARKS);
        }
        set_at(&mut self.fits, place, fit);
        left
    }

    /// Begins with the present rows of these vehicles as the best. Their regret, with that of the riders whom they
    /// could serve and don't, where it costs this to leave out all whom they could serve.
    fn begin(
        &mut self,
        regrets: &Regrets,
        present: &Present,
        vehicles: &[u32],
        left: i64,
    ) -> Made<i64> {
        let mut regret = left;
        self.best.clear();
        for vehicle in vehicles {
            if let Some(row) = present.row(*vehicle as usize) {
                self.best.push(row)?;
                regret = regret.saturating_add(regret_of(regrets, row));
            }
        }
        Ok(regret)
    }

    /// Searches for choices of a lesser regret than this; the least one found, or this. It is broken off
    /// after so many choices.
    fn search(&mut self, regrets: &Regrets, mut limit: i64, most_steps: u32) -> Made<i64> {
        let mut steps: u32 = 0;
        self.picks.clear();
        for _ in 0..u64::from(most_steps).saturating_mul(MOST_TRIES) {
            if let Some(fit) = self.next_fit(limit) {
                let is_open = self.descend(regrets, fit, &mut limit)?;
                steps = steps.saturating_add(u32::from(is_open));
            } else {
                let Some(row) = self.picks.pop() else {
                    break;
                };
                self.count_left(regrets, row, 1);
            }
            if steps > most_steps {
                break;
            }
        }
        Ok(limit)
    }

    /// The next row of this turn that fits, if its regret leaves a choice below the limit.
    fn next_fit(&mut self, limit: i64) -> Option<Fit> {
        let number = self.picks.len();
        let turn = self.turn(number);
        let rest = self.turn(number.saturating_add(1)).least;
        let room = limit.saturating_sub(turn.sum).saturating_sub(rest);
        for place in turn.next..turn.end {
            self.work = self.work.saturating_add(A_ROW);
            let fit = item(&self.fits, place, NO_FIT);
            if fit.above >= room {
                return None;
            }
            if fit.marks & turn.served == 0 {
                if let Some(turn) = self.turns.get_mut(number) {
                    turn.next = place.saturating_add(1);
                }
                return Some(fit);
            }
        }
        None
    }

    /// Chooses the row and goes on below it, if a better choice may be there. Whether it may.
    fn descend(&mut self, regrets: &Regrets, fit: Fit, limit: &mut i64) -> Made<bool> {
        let turn = self.turn(self.picks.len());
        let left = turn.left.wrapping_sub(fit.last);
        let sum = turn.sum.saturating_add(fit.above).saturating_add(left);
        let number = self.picks.len().saturating_add(1);
        if sum.saturating_add(self.turn(number).least) >= *limit {
            return Ok(false);
        }
        self.picks.push(fit.row)?;
        if let Some(below) = self.turns.get_mut(number) {
            below.sum = sum;
            below.served = turn.served | fit.marks;
            below.next = below.first;
            self.count_left(regrets, fit.row, -1);
        } else {
            *limit = sum;
            write_over(&mut self.best, &self.picks)?;
            self.picks.pop();
        }
        Ok(true)
    }

    /// Counts it to the turns so many times what it costs to leave out the row's riders.
    fn count_left(&mut self, regrets: &Regrets, row: u32, times: i64) {
        for rider in regrets.table.riders_of(row as usize) {
            let change = at(&regrets.left, *rider as usize).wrapping_mul(times);
            if let Some((closing, _)) = item(&self.closings, *rider as usize, None) {
                if let Some(turn) = self.turns.get_mut(closing as usize) {
                    turn.left = turn.left.wrapping_add(change);
                }
            }
        }
    }
}

/// The regret of a row, less that of leaving out its riders.
fn regret_of(regrets: &Regrets, row: u32) -> i64 {
    let mut regret = regrets.above(row);
    for rider in regrets.table.riders_of(row as usize) {
        regret = regret.saturating_sub(at(&regrets.left, *rider as usize));
    }
    regret
}
