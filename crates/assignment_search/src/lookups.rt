//! What is found once of a graph's rows, for all nodes of a tree.
ghost use Rattle.std.specs.Prelude.{IfOk};
ghost use Rattle.assignment_search.specs.work.Lookups.{AreLookupsOf};

use crate::{CheapestRows, RiderIndex};
use plan_rules::TripGraph;
use pool_base::OutOfMemory;
use row_tables::RowTable;
use std::alloc::Global;

/// The rows of each rider, and the cheapest of each vehicle.
#[derive(Drop)]
pub struct Lookups {
    pub index: RiderIndex,
    pub cheapest: CheapestRows,
}

impl Lookups {
    /// Those of a graph, whose rows the table has too.
    pub fn new(alloc: Global, graph: &TripGraph, table: &RowTable) -> Result<Lookups, OutOfMemory>
        ensures { IfOk result (AreLookupsOf graph.now) }
    {
        let index = RiderIndex::new(alloc, graph, table)?;
        let cheapest = CheapestRows::new(alloc, graph)?;
        Ok(Lookups { index, cheapest })
    }
}
