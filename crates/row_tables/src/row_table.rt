//! The rows of a trip graph, or of a part of one, in flat tables.
use crate::Made;
use crate::fixed_point::{at, item, part, put, write_over};
use crate::lists::{Lists, short};
use plan_rules::{TripGraph, TripRow};
use std::alloc::Global;
use std::ops::Range;

/// What it costs at least to leave out a rider who must be served, in seconds.
const MUST_COST: i64 = 10_000_000;

/// Rows by vehicle, with their riders, and for each rider the rows that have her.
///
/// Vehicles, riders and rows are numbers from 0; costs are in seconds. What is asked of a number past the
/// last one is nothing, or nobody, at no cost.
#[derive(Drop)]
pub struct RowTable {
    penalty: i64,
    must: Vec<bool>,
    /// Where each vehicle's rows end.
    ends: Vec<u32>,
    vehicles: Vec<u32>,
    costs: Vec<i64>,
    /// The conditions of each column: a row's riders and behind them its vehicle, then those of single conditions.
    conditions: Lists,
    rows: Lists,
}

impl RowTable {
    /// A table without vehicles. The marks say which riders must be served.
    pub fn new(alloc: Global, penalty: i64, must: Vec<bool>) -> Self {
        RowTable {
            penalty,
            must,
            ends: Vec::new(alloc),
            vehicles: Vec::new(alloc),
            costs: Vec::new(alloc),
            conditions: Lists::new(alloc),
            rows: Lists::new(alloc),
        }
    }

    /// All rows of a graph.
    pub fn of_graph(alloc: Global, graph: &TripGraph) -> Made<Self> {
        RowTable::of_allowed(alloc, graph, &[])
    }

    /// The rows of a graph but for those with a mark that says no. They are numbered anew.
    pub fn of_allowed(alloc: Global, graph: &TripGraph, allowed: &[bool]) -> Made<Self> {
        let mut table = RowTable::new(alloc, i64::from(graph.penalty()), Vec::new(alloc));
        let done = table.fill(graph, allowed);
        done.and(Ok(table))
    }

    fn fill(&mut self, graph: &TripGraph, allowed: &[bool]) -> Made<()> {
        let mut made = Ok(());
        for rider in 0..graph.rider_count() {
            made = made.and(put(&mut self.must, graph.must(rider)));
        }
        for vehicle in 0..graph.vehicle_count() {
            made = made.and(self.push_vehicle(graph, allowed, vehicle));
        }
        made.and(self.index())
    }

    fn push_vehicle(&mut self, graph: &TripGraph, allowed: &[bool], vehicle: usize) -> Made<()> {
        if vehicle < graph.vehicle_count() {
            let rows = graph.rows();
            for row in graph.first_row(vehicle)..graph.first_row(vehicle + 1) {
                if item(allowed, row, true) {
                    self.push_trip(&rows[row])?;
                }
            }
        }
        self.end_vehicle()
    }

    fn push_trip(&mut self, trip: &TripRow) -> Made<()> {
        let mut made = Ok(());
        for rider in trip.riders.as_slice() {
            made = made.and(self.conditions.push(*rider));
        }
        made.and(self.end_row(trip.cost.min(1_000_000_000) as i64))
    }

    /// Puts in a row of the vehicle at hand.
    pub fn push_row(&mut self, cost: i64, riders: &[u32]) -> Made<()> {
        let mut made = Ok(());
        for rider in riders {
            made = made.and(self.conditions.push(*rider as usize));
        }
        made.and(self.end_row(cost))
    }

    fn end_row(&mut self, cost: i64) -> Made<()> {
        let vehicle = self.vehicle_count();
        let condition = self.rider_count().saturating_add(vehicle);
        put(&mut self.vehicles, short(vehicle))
            .and(put(&mut self.costs, cost))
            .and(self.conditions.push(condition))
            .and(self.conditions.end())
    }

    /// Becomes a table for the riders of another.
    pub fn copy_riders(&mut self, other: &RowTable) -> Made<()> {
        write_over(&mut self.must, &other.must)
    }

    /// Ends the rows of the vehicle at hand: later ones are those of the next.
    pub fn end_vehicle(&mut self) -> Made<()> {
        put(&mut self.ends, short(self.costs.len()))
    }

    /// Lists the rows under each condition, and the columns of single conditions. To be called after the last row.
    pub fn index(&mut self) -> Made<()> {
        let conditions = self.condition_count();
        let mut made = self.rows.transpose(&self.conditions, conditions);
        for condition in 0..conditions {
            made = made.and(self.conditions.push_list(&[short(condition)]));
        }
        made
    }

    /// How many vehicles there are.
    #[inline]
    pub fn vehicle_count(&self) -> usize {
        self.ends.len()
    }

    /// How many riders there are.
    #[inline]
    pub fn rider_count(&self) -> usize {
        self.must.len()
    }

    /// How many rows there are.
    #[inline]
    pub fn row_count(&self) -> usize {
        self.costs.len()
    }

    /// How many conditions a plan is under: one for each rider, and behind them one for each vehicle.
    #[inline]
    pub fn condition_count(&self) -> usize {
        self.must.len().saturating_add(self.ends.len())
    }

    /// How many columns there are: the rows, and behind them one for each condition alone.
    #[inline]
    pub fn column_count(&self) -> usize {
        self.costs.len().saturating_add(self.condition_count())
    }

    /// The vehicle's rows.
    #[inline]
    pub fn rows_of(&self, vehicle: usize) -> Range<usize> {
        let from = if vehicle == 0 {
            0
        } else {
            item(&self.ends, vehicle - 1, 0)
        };
        from as usize..item(&self.ends, vehicle, 0) as usize
    }

    /// The row's riders.
    #[inline]
    pub fn riders_of(&self, row: usize) -> &[u32] {
        let conditions = self.conditions.list(row);
        part(conditions, 0, conditions.len().saturating_sub(1))
    }

    /// The conditions of a column: a row's, which are its riders and behind them its vehicle, or behind the rows a
    /// single one.
    #[inline]
    pub fn conditions_of(&self, column: usize) -> &[u32] {
        self.conditions.list(column)
    }

    /// The rows under this condition, rising: those that have the rider, or behind the riders those of a vehicle.
    #[inline]
    pub fn rows_with(&self, condition: usize) -> &[u32] {
        self.rows.list(condition)
    }

    /// The cost of the row.
    #[inline]
    pub fn cost(&self, row: usize) -> i64 {
        item(&self.costs, row, 0)
    }

    /// The vehicle of the row.
    #[inline]
    pub fn vehicle(&self, row: usize) -> usize {
        item(&self.vehicles, row, 0) as usize
    }

    /// Whether the rider must be served.
    #[inline]
    pub fn must(&self, rider: usize) -> bool {
        item(&self.must, rider, false)
    }

    /// What it costs to leave out a rider who may be.
    #[inline]
    pub fn penalty(&self) -> i64 {
        self.penalty
    }

    /// What it costs to leave out this rider: the penalty, or a very large cost where she must be served.
    #[inline]
    pub fn cost_left(&self, rider: usize) -> i64 {
        if self.must(rider) {
            self.penalty.saturating_mul(100).max(MUST_COST)
        } else {
            self.penalty
        }
    }

    /// What a row costs, less the multipliers of its riders, in 1/1024 second.
    pub fn reduced_cost(&self, multipliers: &[i64], row: usize) -> i64 {
        let mut cost = self.cost(row).wrapping_mul(1024);
        for rider in self.riders_of(row) {
            cost = cost.wrapping_sub(at(multipliers, *rider as usize));
        }
        cost
    }

    /// The greatest multiplier of a rider that counts, in 1/1024 second: the penalty, where she may be left out.
    #[inline]
    pub fn most_multiplier(&self, rider: usize) -> i64 {
        if self.must(rider) {
            i64::MAX
        } else {
            self.penalty.wrapping_mul(1024)
        }
    }

    /// What the riders add to the value of multipliers, in 1/1024 second.
    pub fn value_of_riders(&self, multipliers: &[i64]) -> i64 {
        let mut value: i64 = 0;
        for rider in 0..multipliers.len() {
            let multiplier = at(multipliers, rider);
            value = value.wrapping_add(multiplier.min(self.most_multiplier(rider)));
        }
        value
    }
}
