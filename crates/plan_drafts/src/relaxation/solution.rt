//! What a solution costs, how near it is to the best, and which rows it chooses.
use crate::relaxation::Relaxation;
use row_tables::fixed_point::{ONE, times};
use row_tables::lists::short;
use row_tables::{Made, RowTable};
use std::cmp::Reverse;

/// Within so much of what it may be at most a solution counts as the best, in 1/1024 second.
const NEAR: i64 = 200;

impl Relaxation {
    /// What the solution costs, in units of 2^-32 of 2^scale seconds.
    pub fn cost(&self) -> i64 {
        self.cost_of_all(&self.basis.levels)
    }

    /// What so much of each column of the basis costs.
    fn cost_of_all(&self, parts: &[i64]) -> i64 {
        let mut cost: i64 = 0;
        for (place, part) in parts.iter().enumerate() {
            let each = self.cost_of(self.basis.column(place));
            cost = cost.wrapping_add(times(each, *part));
        }
        cost
    }

    /// Lists the rows of which the solution chooses more than a hundredth, and no more than this.
    pub fn find_shares(&mut self, table: &RowTable, most: i64) -> Made<()> {
        self.basis.find_parts(&mut self.parts);
        self.shares.clear();
        for (place, part) in self.parts.iter().enumerate() {
            let row = self.basis.column(place);
            if row < table.row_count() && *part > ONE / 100 && *part <= most {
                self.shares.push((Reverse(*part), short(row)))?;
            }
        }
        self.shares.as_mut_slice().sort_unstable();
        Ok(())
    }

    /// Whether the value is so near to what the solution costs that it is the best.
    pub fn is_near(&mut self) -> bool {
        self.basis.find_parts(&mut self.parts);
        let bound = self.in_multipliers(self.cost_of_all(&self.parts));
        bound.saturating_sub(self.value) < NEAR
    }
}
