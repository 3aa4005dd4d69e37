//! Decisions: which rows are forbidden.
use crate::relaxation::Relaxation;
use row_tables::fixed_point::{item, set_at};
use row_tables::lists::short;
use row_tables::{RowDecision, RowTable};

impl Relaxation {
    /// Allows the rows again that were forbidden after this many.
    pub fn allow_after(&mut self, count: usize) {
        for place in count..self.forbidden_count {
            let row = item(&self.forbidden, place, u32::MAX);
            set_at(&mut self.is_forbidden, row as usize, false);
        }
        self.forbidden_count = count;
    }

    /// Gives a row to its vehicle or forbids it.
    pub fn decide(&mut self, table: &RowTable, decision: RowDecision) {
        if decision.is_taken {
            self.take(table, decision.row);
        } else {
            self.forbid(decision.row);
        }
    }

    /// Gives a row to its vehicle: forbids the vehicle's other rows, and those of other vehicles with one of
    /// its riders.
    pub fn take(&mut self, table: &RowTable, row: usize) {
        for other in table.rows_of(table.vehicle(row)) {
            if other != row {
                self.forbid(other);
            }
        }
        for rider in table.riders_of(row) {
            self.forbid_others(table.rows_with(*rider as usize), row);
        }
    }

    fn forbid_others(&mut self, others: &[u32], row: usize) {
        for other in others {
            if *other as usize != row {
                self.forbid(*other as usize);
            }
        }
    }

    /// Forbids a row, which may stay in the basis.
    fn forbid(&mut self, row: usize) {
        if !item(&self.is_forbidden, row, true) {
            set_at(&mut self.is_forbidden, row, true);
            set_at(&mut self.forbidden, self.forbidden_count, short(row));
            self.forbidden_count = self.forbidden_count.saturating_add(1);
        }
    }

    /// Whether the row is forbidden.
    pub fn is_forbidden(&self, row: usize) -> bool {
        item(&self.is_forbidden, row, false)
    }

    /// Whether the vehicle of this row has another one that isn't forbidden.
    pub fn has_choice(&self, table: &RowTable, row: usize) -> bool {
        for other in table.rows_of(table.vehicle(row)) {
            if other != row && !self.is_forbidden(other) {
                return true;
            }
        }
        false
    }
}
