//! A plan that changes.
use row_tables::fixed_point::{item, reset, set_at};
use row_tables::lists::short;
use row_tables::{Made, RowTable};
use std::alloc::Global;

/// For each vehicle its row, and for each rider the vehicle that serves her.
#[derive(Drop)]
pub struct Present {
    pub rows: Vec<Option<u32>>,
    servers: Vec<Option<u32>>,
}

impl Present {
    /// No vehicle.
    pub fn new(alloc: Global) -> Self {
        Present {
            rows: Vec::new(alloc),
            servers: Vec::new(alloc),
        }
    }

    /// Begins with the vehicles of a table, none of which has a row.
    pub fn begin(&mut self, table: &RowTable) -> Made<()> {
        reset(&mut self.rows, table.vehicle_count(), None)?;
        reset(&mut self.servers, table.rider_count(), None)
    }

    /// The vehicle's row.
    #[inline]
    pub fn row(&self, vehicle: usize) -> Option<u32> {
        item(&self.rows, vehicle, None)
    }

    /// The vehicle that serves this rider.
    #[inline]
    pub fn server(&self, rider: u32) -> Option<u32> {
        item(&self.servers, rider as usize, None)
    }

    /// Whether nobody serves one of the row's riders.
    #[inline]
    pub fn is_free(&self, table: &RowTable, row: u32) -> bool {
        for rider in table.riders_of(row as usize) {
            if self.server(*rider).is_some() {
                return false;
            }
        }
        true
    }

    /// Gives the row to its vehicle.
    pub fn give(&mut self, table: &RowTable, row: u32) {
        let vehicle = table.vehicle(row as usize);
        set_at(&mut self.rows, vehicle, Some(row));
        self.serve(table, row, Some(short(vehicle)));
    }

    /// Gives the row to its vehicle, where that has none and nobody serves one of its riders.
    pub fn offer(&mut self, table: &RowTable, row: u32) {
        if self.row(table.vehicle(row as usize)).is_none() && self.is_free(table, row) {
            self.give(table, row);
        }
    }

    /// Nobody serves the vehicle's riders any more; it keeps its row until it is given another.
    pub fn release(&mut self, table: &RowTable, vehicle: usize) {
        if let Some(row) = self.row(vehicle) {
            self.serve(table, row, None);
        }
    }

    fn serve(&mut self, table: &RowTable, row: u32, server: Option<u32>) {
        for rider in table.riders_of(row as usize) {
            set_at(&mut self.servers, *rider as usize, server);
        }
    }
}
