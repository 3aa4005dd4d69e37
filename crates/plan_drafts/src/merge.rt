//! The rows that some plans choose, as a table of their own.
use crate::plans::regrets::Regrets;
use crate::scout::Scout;
use crate::{Plan, whole};
use row_tables::fixed_point::{item, reset, set_at};
use row_tables::lists::short;
use row_tables::{Made, RowTable};
use std::alloc::Global;

/// Some rows of a table, as another table for the same vehicles and riders.
#[derive(Drop)]
pub struct Merge {
    pub part: RowTable,
    /// For each row of the part its number in the whole table, and for each row of that its number in the part, and at
    /// first any number if a plan chooses it.
    pub wholes: Vec<Option<u32>>,
    parts: Vec<Option<u32>>,
    /// The plan that was the best before, of rows of the part.
    pub plan: Plan,
}

impl Merge {
    /// The rows that these scouts' plans or this one, the best so far, choose, and those without regret.
    pub fn new(
        alloc: Global,
        regrets: &Regrets,
        plan: &[Option<u32>],
        scouts: &[Scout],
    ) -> Made<Self> {
        let mut must = Vec::new(alloc);
        for rider in 0..regrets.table.rider_count() {
            must.push(regrets.table.must(rider))?;
        }
        let mut merge = Merge {
            part: RowTable::new(alloc, regrets.table.penalty(), must),
            wholes: Vec::new(alloc),
            parts: Vec::new(alloc),
            plan: Vec::new(alloc),
        };
        let done = merge.fill(alloc, regrets, plan, scouts);
        whole(merge, done)
    }

    fn fill(
        &mut self,
        alloc: Global,
        regrets: &Regrets,
        plan: &[Option<u32>],
        scouts: &[Scout],
    ) -> Made<()> {
        let table = regrets.table;
        reset(&mut self.parts, table.row_count(), None)?;
        mark(plan, &mut self.parts);
        for scout in scouts {
            mark(&scout.plans.present.rows, &mut self.parts);
        }
        for vehicle in 0..table.vehicle_count() {
            self.put_vehicle(regrets, vehicle)?;
        }
        self.plan = renumbered(alloc, plan, &self.parts)?;
        self.part.index()
    }

    fn put_vehicle(&mut self, regrets: &Regrets, vehicle: usize) -> Made<()> {
        let table = regrets.table;
        for row in table.rows_of(vehicle) {
            if item(&self.parts, row, None).is_some() || regrets.above(short(row)) <= 0 {
                let number = short(self.wholes.len());
                self.part.push_row(table.cost(row), table.riders_of(row))?;
                self.wholes.push(Some(short(row)))?;
                set_at(&mut self.parts, row, Some(number));
            }
        }
        self.part.end_vehicle()
    }
}

/// A plan with these numbers in place of its rows.
pub fn renumbered(alloc: Global, plan: &[Option<u32>], numbers: &[Option<u32>]) -> Made<Plan> {
    let mut rows = Vec::new(alloc);
    for row in plan {
        rows.push(match row {
            None => None,
            Some(row) => item(numbers, *row as usize, None),
        })?;
    }
    Ok(rows)
}

/// Marks a plan's rows.
fn mark(plan: &[Option<u32>], parts: &mut [Option<u32>]) {
    for row in plan {
        if let Some(number) = row {
            set_at(parts, *number as usize, *row);
        }
    }
}
