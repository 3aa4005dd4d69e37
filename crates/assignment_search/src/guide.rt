//! What a draft suggests for a tree that grows. All of it is judged where it is used.
ghost use Rattle.std.specs.Prelude.{◌<◌, IfOk, IfSome};
ghost use Rattle.plan_rules.specs.Plan.{IsLawful, cost_of};

use crate::ascend;
use plan_rules::{Plan, TripGraph, cost_of, is_lawful};
use pool_base::OutOfMemory;
use row_tables::fixed_point::put;
use row_tables::{Draft, DraftNode, Drafter, RowTable};
use std::alloc::Global;
use std::thread::Threads;

/// How many turns the ascent takes at most. A turn looks at each row once.
const TURNS: u32 = 200;

/// Multipliers for the two ends of a branch, or no multiplier at all.
#[derive(Drop)]
pub struct Suggested {
    pub taken: Vec<i64>,
    pub left: Vec<i64>,
}

/// A draft, and which of its nodes each node of the tree is.
#[derive(Drop)]
pub struct Guide {
    table: RowTable,
    draft: Draft,
    /// For each node of the tree its number in the draft, if the draft has it.
    numbers: Vec<Option<usize>>,
}

impl Guide {
    /// A plain draft.
    pub fn plain(alloc: Global, graph: &TripGraph) -> Result<Self, OutOfMemory> {
        let table = RowTable::of_graph(alloc, graph)?;
        let draft = plain_draft(alloc, graph)?;
        Guide::new(alloc, table, draft)
    }

    /// A draft with at most so many nodes, or a plain one where the drafter fails.
    pub fn by<R: Threads + Sync, D: Drafter>(
        rt: &R,
        alloc: Global,
        graph: &TripGraph,
        budget: usize,
        workers: u8,
        drafter: &D,
    ) -> Result<Self, OutOfMemory> {
        let table = RowTable::of_graph(alloc, graph)?;
        let draft = match drafter.draft(rt, alloc, &table, graph.held(), budget, workers) {
            Ok(draft) => draft,
            Err(OutOfMemory) => plain_draft(alloc, graph)?,
        };
        Guide::new(alloc, table, draft)
    }

    /// A draft and a tree of one node.
    fn new(alloc: Global, table: RowTable, draft: Draft) -> Result<Self, OutOfMemory> {
        let mut numbers = Vec::new(alloc);
        let made = put(&mut numbers, Some(0));
        made.and(Ok(Guide {
            table,
            draft,
            numbers,
        }))
    }

    /// The draft's plan, where it is lawful and costs less than this.
    pub fn cheaper_plan(
        &self,
        alloc: Global,
        graph: &TripGraph,
        limit: u64,
    ) -> Result<Option<Plan>, OutOfMemory>
        ensures { IfOk result (λ found. IfSome found (λ plan. IsLawful graph.now plan × (cost_of graph.now plan < limit))) }
    {
        if self.draft.cost.max(0).unsigned_abs() >= limit {
            return Ok(None);
        }
        let plan = Plan::of(Vec::from_slice(alloc, &self.draft.plan)?);
        if is_lawful(graph, &plan) && cost_of(graph, &plan) < limit {
            Ok(Some(plan))
        } else {
            Ok(None)
        }
    }

    /// The graph's rows.
    pub fn table(&self) -> &RowTable {
        &self.table
    }

    /// The multipliers at the root.
    pub fn root_multipliers(&self, alloc: Global) -> Result<Vec<i64>, OutOfMemory> {
        self.draft.multipliers_at(alloc, &self.table, 0)
    }

    /// The row that the node at this place is branched on.
    pub fn row_at(&self, place: usize) -> Option<usize> {
        Some(self.branch_at(place)?.0)
    }

    /// Notes that the node at this place is branched on a row, and that its ends come after it. Multipliers
    /// for the ends, or none where the draft doesn't know them.
    pub fn grow(
        &mut self,
        alloc: Global,
        place: usize,
        row: usize,
    ) -> Result<Suggested, OutOfMemory> {
        let mut ends = (None, None);
        if let Some((branch, first)) = self.branch_at(place) {
            if branch == row {
                ends = (Some(first), Some(first.saturating_add(1)));
            }
        }
        if place < self.numbers.len() {
            self.numbers.insert(place + 1, ends.0)?;
        }
        if place.saturating_add(1) < self.numbers.len() {
            self.numbers.insert(place + 2, ends.1)?;
        }
        Ok(Suggested {
            taken: self.multipliers_at(alloc, ends.0)?,
            left: self.multipliers_at(alloc, ends.1)?,
        })
    }

    fn multipliers_at(
        &self,
        alloc: Global,
        number: Option<usize>,
    ) -> Result<Vec<i64>, OutOfMemory> {
        match number {
            None => Ok(Vec::new(alloc)),
            Some(number) => self.draft.multipliers_at(alloc, &self.table, number),
        }
    }

    fn branch_at(&self, place: usize) -> Option<(usize, usize)> {
        let number = self.numbers.get(place).copied().flatten()?;
        self.draft.branch(number)
    }
}

/// The held plan, and a root with multipliers that an ascent from the first-fit ones reaches.
fn plain_draft(alloc: Global, graph: &TripGraph) -> Result<Draft, OutOfMemory> {
    let allowed = vec![in alloc; true; graph.rows().len()]?;
    let multipliers = ascend(alloc, graph, &allowed, TURNS)?;
    let mut nodes = Vec::new(alloc);
    nodes.push(DraftNode {
        decision: None,
        branch: None,
        multipliers: multipliers.into_vec(),
    })?;
    Ok(Draft {
        plan: Vec::from_slice(alloc, graph.held())?,
        cost: i64::MAX,
        bound: 0,
        nodes,
    })
}
