//! On which row a node is branched: strong branching (Applegate, Bixby, Chvatal and Cook, 1995).
//!
//! Of the rows that the relaxation chooses most nearly by half some are tried: the dual simplex takes some columns in
//! with the row taken and with the row forbidden, over the rows at hand, and the greatest product of the two rises
//! wins.
use crate::relaxation::{Ended, MANY_CONDITIONS, Relaxation, Saved, Share, in_prices};
use row_tables::fixed_point::{ONE, item};
use row_tables::{Made, RowDecision, RowTable};
use std::alloc::Global;

/// What each rider of a row counts toward being tried.
const A_RIDER: i64 = ONE / 100 * 3;

/// Up to so many vehicles and riders a trial is cheap. It is dear with more than `MANY_CONDITIONS`.
pub const FEW_CONDITIONS: usize = 350;

/// The work space of a choice.
#[derive(Drop)]
pub struct Branching {
    /// How many rows are tried at most, after how many in a row without a better score no more are, and how many
    /// columns come in for one trial at most.
    candidates: usize,
    idle: usize,
    pivots: u64,
    /// Where the relaxation stood when the last choice was made.
    pub saved: Saved,
    /// The rows that may be tried, behind how far they lie from one half.
    ranks: Vec<(i64, u32)>,
}

impl Branching {
    pub fn new(alloc: Global, table: &RowTable) -> Self {
        let (candidates, idle, pivots) = match table.condition_count() {
            0..=FEW_CONDITIONS => (60, 60, 600),
            conditions if conditions > MANY_CONDITIONS => (3, 3, 30),
            _ => (6, 4, 30),
        };
        Branching {
            candidates,
            idle,
            pivots,
            saved: Saved::new(alloc),
            ranks: Vec::new(alloc),
        }
    }

    /// The row to branch on, where the relaxation stands at the node, which is saved; it stands there again
    /// afterwards. None where there is no choice left. The limit is what a plan is to cost less than, in seconds.
    /// Where no rows are to be tried the first one is taken.
    pub fn choose(
        &mut self,
        table: &RowTable,
        relaxation: &mut Relaxation,
        shares: &[Share],
        limit: i64,
        tries: bool,
    ) -> Made<Option<usize>> {
        let limit = in_prices(limit, relaxation.scale);
        let rest = limit.saturating_sub(relaxation.cost());
        relaxation.save(&mut self.saved)?;
        self.rank(table, shares)?;
        if self.ranks.is_empty() {
            return Ok(any_open_row(table, relaxation));
        }
        let mut best = 0;
        if tries && self.ranks.len() > 1 {
            best = self.try_rows(table, relaxation, rest.saturating_add(rest / 5))?;
        }
        Ok(Some(item(&self.ranks, best, (0, 0)).1 as usize))
    }

    /// Ranks these rows, those that are chosen most nearly by half first, as many as may be tried.
    fn rank(&mut self, table: &RowTable, shares: &[Share]) -> Made<()> {
        self.ranks.clear();
        for share in shares {
            let distance = share.0.0.wrapping_sub(ONE / 2).saturating_abs();
            let riders = table.riders_of(share.1 as usize).len().min(6) as i64;
            let rank = distance.wrapping_sub(A_RIDER.wrapping_mul(riders));
            self.ranks.push((rank, share.1))?;
        }
        self.ranks.as_mut_slice().sort_unstable();
        self.ranks.truncate(self.candidates);
        Ok(())
    }

    /// Tries one row after the other, until some in a row are no better. The place of the best one. A row that can't be
    /// the best any more, however much the cost rises where it is taken, isn't tried for that.
    fn try_rows(
        &mut self,
        table: &RowTable,
        relaxation: &mut Relaxation,
        most: i64,
    ) -> Made<usize> {
        let mut best: usize = 0;
        let mut most_score = -1;
        for place in 0..self.ranks.len() {
            if place.saturating_sub(best) >= self.idle {
                break;
            }
            let row = item(&self.ranks, place, (0, 0)).1 as usize;
            let left = self.rise(table, relaxation, decision(0, row, false), most)?;
            let left = score_of(left, most);
            if left.wrapping_mul(score_of(most, most)) <= most_score {
                continue;
            }
            let taken = self.rise(table, relaxation, decision(0, row, true), most)?;
            let score = left.wrapping_mul(score_of(taken, most));
            if score > most_score {
                most_score = score;
                best = place;
            }
        }
        Ok(best)
    }

    /// How much the cost rises at least with this decision, up to the most.
    fn rise(
        &mut self,
        table: &RowTable,
        relaxation: &mut Relaxation,
        decision: RowDecision,
        most: i64,
    ) -> Made<i64> {
        let count = relaxation.forbidden_count;
        relaxation.decide(table, decision);
        let (ended, rise) = relaxation.pivot_dual(table, self.pivots, most)?;
        relaxation.go_back(&self.saved)?;
        relaxation.allow_after(count);
        Ok(if ended == Ended::Failed { most } else { rise })
    }
}

/// A rise as far as it counts: at least half a second, and little more than what closes the node.
fn score_of(rise: i64, most: i64) -> i128 {
    i128::from(rise.min(most).max(ONE / 2))
}

/// A row taken or forbidden below this node.
pub fn decision(parent: usize, row: usize, is_taken: bool) -> RowDecision {
    RowDecision {
        parent,
        row,
        is_taken,
    }
}

/// A row of the basis whose vehicle has another one.
fn any_open_row(table: &RowTable, relaxation: &Relaxation) -> Option<usize> {
    for column in &relaxation.basis.columns {
        let row = *column as usize;
        let is_open = row < table.row_count() && !relaxation.is_forbidden(row);
        if is_open && relaxation.has_choice(table, row) {
            return Some(row);
        }
    }
    None
}
