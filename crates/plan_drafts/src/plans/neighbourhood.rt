//! A few vehicles near each other, whose rows are chosen anew (large neighbourhood search, Shaw, 1998).
//!
//! They are found by a walk over riders, rows with these, and the vehicles that serve the riders of such
//! rows. It begins at a rider who is left out, or at a vehicle with regret.

use crate::plans::choices::Choices;
use crate::plans::present::Present;
use crate::plans::regrets::Regrets;
use row_tables::fixed_point::{item, reset, set_at};
use row_tables::lists::short;
use row_tables::{Draws, Made, RowTable};
use std::alloc::Global;

/// A walk, and the work space for the next one.
#[derive(Drop)]
pub struct Neighbourhood {
    vehicles: Vec<u32>,
    is_in: Vec<bool>,
    /// Riders from whom the walk goes on.
    frontier: Vec<u32>,
    draws: Draws,
    pub choices: Choices,
}

impl Neighbourhood {
    /// No walk. What is drawn follows from the seed.
    pub fn new(alloc: Global, seed: u64) -> Self {
        Neighbourhood {
            vehicles: Vec::new(alloc),
            is_in: Vec::new(alloc),
            frontier: Vec::new(alloc),
            draws: Draws::new(seed),
            choices: Choices::new(alloc),
        }
    }

    /// Makes room for walks over the rows of this table.
    pub fn begin(&mut self, table: &RowTable) -> Made<()> {
        reset(&mut self.is_in, table.vehicle_count(), false)?;
        reset(&mut self.choices.closings, table.rider_count(), None)
    }

    /// Chooses the rows of so many vehicles near each other anew, if there are enough. What that saves, in 1/1024
    /// second.
    pub fn attempt(
        &mut self,
        regrets: &Regrets,
        present: &mut Present,
        size: usize,
        most_steps: u32,
    ) -> Made<i64> {
        self.vehicles.clear();
        self.frontier.clear();
        self.is_in.as_mut_slice().fill(false);
        let left = self.left_rider(regrets, present);
        if let Some(rider) = left {
            self.frontier.push(rider)?;
        }
        if left.is_none() || self.draws.below(3) == 0 {
            let vehicle = self.regretted(regrets, present);
            self.add(regrets, present, vehicle)?;
        }
        for _ in 0..size.saturating_mul(6) {
            if self.vehicles.len() >= size {
                break;
            }
            self.step(regrets, present, size)?;
        }
        self.choices
            .choose(regrets, present, &self.vehicles, most_steps)
    }

    /// A rider who is left out and could be served, if one is soon found.
    fn left_rider(&mut self, regrets: &Regrets, present: &Present) -> Option<u32> {
        for _ in 0..8 {
            let rider = self.draws.below(regrets.table.rider_count());
            if present.server(short(rider)).is_none() && !regrets.with.list(rider).is_empty() {
                return Some(short(rider));
            }
        }
        None
    }

    /// A vehicle whose row has regret, if one is soon found.
    fn regretted(&mut self, regrets: &Regrets, present: &Present) -> usize {
        let mut vehicle = 0;
        for turn in 0..20 {
            vehicle = self.draws.below(regrets.table.vehicle_count());
            if let Some(row) = present.row(vehicle) {
                if turn > 10 || regrets.above(row) > 0 {
                    return vehicle;
                }
            }
        }
        vehicle
    }

    /// Goes on from one of the riders to a row with her, its vehicle and those that serve its riders.
    fn step(&mut self, regrets: &Regrets, present: &Present, size: usize) -> Made<()> {
        if self.frontier.is_empty() {
            let vehicle = self.draws.below(regrets.table.vehicle_count());
            return self.add(regrets, present, vehicle);
        }
        let rider = item(&self.frontier, self.draws.below(self.frontier.len()), 0);
        let rows = regrets.with.list(rider as usize);
        if rows.is_empty() {
            return Ok(());
        }
        let most = self.draws.below(rows.len()).saturating_add(4);
        let most = self.draws.below(most.min(rows.len())).saturating_add(1);
        let row = item(rows, self.draws.below(most), 0) as usize;
        self.add(regrets, present, regrets.table.vehicle(row))?;
        for rider in regrets.table.riders_of(row) {
            match present.server(*rider) {
                None => self.frontier.push(*rider)?,
                Some(server) => {
                    if self.vehicles.len() < size {
                        self.add(regrets, present, server as usize)?;
                    }
                }
            }
        }
        Ok(())
    }

    /// Takes in a vehicle that has a row, and its riders.
    fn add(&mut self, regrets: &Regrets, present: &Present, vehicle: usize) -> Made<()> {
        if let Some(row) = present.row(vehicle) {
            if !item(&self.is_in, vehicle, true) {
                set_at(&mut self.is_in, vehicle, true);
                self.vehicles.push(short(vehicle))?;
                self.frontier
                    .extend_from_slice(regrets.table.riders_of(row as usize))?;
            }
        }
        Ok(())
    }
}
