ghost use Rattle.std.specs.Prelude.{◌≡◌, ◌+◌, ◌<◌, ◌≤◌, IsTrue, IfOk, IfErr, length, slice_index, slice_index_or};
ghost use Rattle.plan_rules.specs.Graph.{Graph, IsStartOf, IsWithinLimits, must_be_served};
ghost use Rattle.plan_rules.specs.GoodGraph.{IsGoodGraph};
ghost use Rattle.plan_rules.specs.GraphFault.{IsGraphFault};

use crate::fault::GraphFault;
use crate::held::mark_held;
use crate::parts::Parts;
use crate::row::TripRow;
use crate::row_index::row_starts;
use crate::row_order::{first_out_of_order, first_out_of_range};
use std::alloc::Global;
use std::marker::Model;

/// A trip graph: the rows by vehicle, then size, then riders, and for each vehicle the row that it
/// holds. A rider in a held row must be served.
#[derive(Drop)]
pub struct TripGraph {
    parts: Parts,
    starts: Vec<u32>,
    must: Vec<bool>,
}

impl Model for TripGraph {
    ghost use Rattle.plan_rules.specs.Graph.{Graph};
    ghost use Rattle.plan_rules.specs.work.Graph.{IsKept};
    ghost use Rattle.plan_rules.specs.Parts.{graph_of};

    ghost Value = { Graph };

    ghost view = { λ t. graph_of t.parts };

    ghost invariant = { λ t. IsKept (graph_of t.parts) t.starts.items t.must.items };
}

impl TripGraph {
    /// A graph of these rows and held rows.
    ///
    /// `GraphFault` says which row or vehicle is the first that is wrong; the lists are given up then.
    pub fn new(
        alloc: Global,
        vehicles: usize,
        riders: usize,
        penalty: u32,
        rows: Vec<TripRow>,
        held: Vec<Option<u32>>,
    ) -> Result<TripGraph, GraphFault>
        requires { IsWithinLimits (record { vehicles = vehicles; riders = riders; penalty = penalty; rows = rows.items; held = held.items }) }
        ensures value { IfOk result (λ g. g ≡ record { vehicles = vehicles; riders = riders; penalty = penalty; rows = rows.items; held = held.items }) }
        ensures good { IfOk result (λ g. IsGoodGraph g) }
        ensures fault { IfErr result (IsGraphFault (record { vehicles = vehicles; riders = riders; penalty = penalty; rows = rows.items; held = held.items })) }
    {
        let parts = Parts {
            vehicles,
            riders,
            penalty,
            rows,
            held,
        };
        if let Some(row) = first_out_of_range(&parts) {
            return Err(GraphFault::Range { row: row as u64 });
        }
        if let Some(row) = first_out_of_order(&parts) {
            return Err(GraphFault::Order { row: row as u64 });
        }
        let starts = row_starts(alloc, &parts)?;
        let must = mark_held(alloc, &parts, &starts)?;
        Ok(TripGraph {
            parts,
            starts,
            must,
        })
    }

    /// How many vehicles there are.
    pub fn vehicle_count(&self) -> usize
        ensures value { result ≡ self.now.vehicles }
        ensures within { result ≤ 500 }
        ensures good { IsGoodGraph self.now }
    {
        self.parts.vehicles
    }

    /// How many riders there are.
    pub fn rider_count(&self) -> usize
        ensures value { result ≡ self.now.riders }
        ensures within { result ≤ 1000 }
        ensures good { IsGoodGraph self.now }
    {
        self.parts.riders
    }

    /// What each rider who is left out costs, in seconds.
    pub fn penalty(&self) -> u32
        ensures value { result ≡ self.now.penalty }
        ensures within { result ≤ 1000000000 }
    {
        self.parts.penalty
    }

    /// All rows, vehicle by vehicle.
    pub fn rows(&self) -> &[TripRow]
        ensures value { result.now ≡ self.now.rows }
        ensures good { IsGoodGraph self.now }
    {
        self.parts.rows.as_slice()
    }

    /// For each vehicle the number of the row that it holds.
    pub fn held(&self) -> &[Option<u32>]
        ensures value { result.now ≡ self.now.held }
        ensures good { IsGoodGraph self.now }
    {
        self.parts.held.as_slice()
    }

    /// Whether the rider must be served.
    pub fn must(&self, rider: usize) -> bool
        requires { rider < self.now.riders }
        ensures { result ≡ must_be_served self.now rider }
    {
        self.must[rider]
    }

    /// The number of the vehicle's first row: its rows end where the next vehicle's begin.
    pub fn first_row(&self, vehicle: usize) -> usize
        requires { vehicle ≤ self.now.vehicles }
        ensures { IsStartOf self.now vehicle result }
    {
        self.starts[vehicle] as usize
    }
}
