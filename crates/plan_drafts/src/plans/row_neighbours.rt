//! Which rows of a vehicle have one rider less than a row, or one more.

use row_tables::fixed_point::{item, part, write_over};
use row_tables::lists::Lists;
use row_tables::{Made, RowTable};
use std::alloc::Global;

/// The rows beside each row.
#[derive(Drop)]
pub struct RowNeighbours {
    /// For each row and each of its riders the row without her, or one past the last row.
    without: Lists,
    /// For each row those with a rider more, by rising riders, and for each of these the rider.
    wider: Lists,
    added: Vec<u32>,
    /// For each row what it costs, less what it costs to leave out its riders, and 64 marks of those who can be added.
    rows: Vec<(i64, u64)>,
    /// The riders of a row but for one.
    trip: Vec<u32>,
}

impl RowNeighbours {
    /// No row.
    pub fn new(alloc: Global) -> Self {
        RowNeighbours {
            without: Lists::new(alloc),
            wider: Lists::new(alloc),
            added: Vec::new(alloc),
            rows: Vec::new(alloc),
            trip: Vec::new(alloc),
        }
    }

    /// Lists for each row and each of its riders the row of the same vehicle without her, or one past the last row. A
    /// vehicle's rows stand by size, then riders.
    fn list_without(&mut self, table: &RowTable) -> Made<()> {
        for row in 0..table.row_count() {
            let riders = table.riders_of(row);
            for skipped in 0..riders.len() {
                let rest = part(riders, skipped.saturating_add(1), riders.len());
                write_over(&mut self.trip, part(riders, 0, skipped))?;
                self.trip.extend_from_slice(rest)?;
                self.without.push(find(table, row, &self.trip))?;
            }
            self.without.end()?;
        }
        Ok(())
    }

    /// Lists the narrower rows, the wider ones, and who is added: those of a row stand by rising riders, as the rows of
    /// a vehicle do.
    pub fn fill(&mut self, table: &RowTable) -> Made<()> {
        self.list_without(table)?;
        self.wider.transpose(&self.without, table.row_count())?;
        for row in 0..table.row_count() {
            let mut marks = 0;
            for wider in self.wider.list(row) {
                let rider = first_other(table.riders_of(*wider as usize), table.riders_of(row));
                self.added.push(rider)?;
                marks |= mark_of(rider);
            }
            self.rows.push((worth(table, row), marks))?;
        }
        Ok(())
    }

    /// The row without this rider of its own, if there is one.
    pub fn without(&self, table: &RowTable, row: u32, rider: u32) -> Option<u32> {
        let riders = table.riders_of(row as usize);
        let place = riders.binary_search(&rider).ok()?;
        let narrower = item(self.without.list(row as usize), place, u32::MAX);
        if (narrower as usize) < table.row_count() {
            Some(narrower)
        } else {
            None
        }
    }

    /// What the next row costs more than this one, each less what it costs to leave out its riders.
    pub fn change(&self, row: u32, next: u32) -> i64 {
        let (old, _) = item(&self.rows, row as usize, (0, 0));
        let (new, _) = item(&self.rows, next as usize, (0, 0));
        new.saturating_sub(old)
    }

    /// Marks of the riders who can be added to the row.
    pub fn marks(&self, row: u32) -> u64 {
        item(&self.rows, row as usize, (0, 0)).1
    }

    /// The riders who can be added to the row, rising, and the rows with these.
    pub fn wider(&self, row: u32) -> (&[u32], &[u32]) {
        let start = self.wider.start(row as usize);
        let wider = self.wider.list(row as usize);
        let end = start.saturating_add(wider.len());
        (part(&self.added, start, end), wider)
    }

    /// The row with this rider too, if there is one.
    pub fn with(&self, row: u32, rider: u32) -> Option<u32> {
        let (added, wider) = self.wider(row);
        let place = added.binary_search(&rider).ok()?;
        wider.get(place).copied()
    }
}

/// The row with these riders among those of the same vehicle before this one, or one past the last row.
fn find(table: &RowTable, row: usize, trip: &[u32]) -> usize {
    let mut low = table.rows_of(table.vehicle(row)).start;
    let mut high = row;
    for _ in 0..32 {
        if low >= high {
            break;
        }
        let middle = low + (high - low) / 2;
        let riders = table.riders_of(middle);
        if (riders.len(), riders) < (trip.len(), trip) {
            low = middle.saturating_add(1);
        } else {
            high = middle;
        }
    }
    if low < row && table.riders_of(low) == trip {
        low
    } else {
        table.row_count()
    }
}

/// The first of these riders who isn't where she stands among the others.
fn first_other(riders: &[u32], others: &[u32]) -> u32 {
    for (place, rider) in riders.iter().enumerate() {
        if item(others, place, u32::MAX) != *rider {
            return *rider;
        }
    }
    u32::MAX
}

/// One of 64 marks for a rider: she is none of those with other marks.
pub fn mark_of(rider: u32) -> u64 {
    1 << (rider % 64)
}

/// What the row costs, less what it costs to leave out its riders.
fn worth(table: &RowTable, row: usize) -> i64 {
    let mut worth = table.cost(row);
    for rider in table.riders_of(row) {
        worth = worth.saturating_sub(table.cost_left(*rider as usize));
    }
    worth
}
