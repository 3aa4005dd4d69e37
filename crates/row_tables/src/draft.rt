//! A draft of an assignment: a plan and a tree of decisions, of which nothing is promised.
ghost use Rattle.std.specs.Thread.{IsSync};

use crate::Made;
use crate::row_table::RowTable;
use std::alloc::Global;
use std::thread::Threads;

/// What multiplier a rider has whose row is taken, in 1/1024 second: it shuts out her other rows.
const SUNK: i64 = -(1 << 41);

/// What drafts assignments. Whoever asks for a draft judges all of it, so that any drafter will do.
pub trait Drafter: Sync {
    /// A plan, and a tree of at most so many nodes, by at most so many workers. The held plan is lawful. (That `R` is
    /// `Sync` is said once more in a clause: of a method's own type, a proof knows only what clauses say.)
    fn draft<R: Threads + Sync>(
        &self,
        rt: &R,
        alloc: Global,
        table: &RowTable,
        held: &[Option<u32>],
        budget: usize,
        workers: u8,
    ) -> Made<Draft>
        requires shared { IsSync R.row };
}

/// A row that is taken or forbidden below another node.
#[derive(Clone, Copy)]
pub struct RowDecision {
    pub parent: usize,
    pub row: usize,
    pub is_taken: bool,
}

/// A node of a draft's tree.
#[derive(Drop)]
pub struct DraftNode {
    /// What leads here; none at the root.
    pub decision: Option<RowDecision>,
    /// The row that the node is branched on, and the number of the node where it is taken. The one where it
    /// isn't comes next.
    pub branch: Option<(usize, usize)>,
    /// The riders' multipliers, in 1/1024 second.
    pub multipliers: Vec<i64>,
}

/// A plan, and a tree whose root is node 0.
#[derive(Drop)]
pub struct Draft {
    /// For each vehicle its row, if it has one.
    pub plan: Vec<Option<u32>>,
    /// What the plan costs, in seconds.
    pub cost: i64,
    /// Below this no plan costs, in seconds.
    pub bound: i64,
    pub nodes: Vec<DraftNode>,
}

impl Draft {
    /// The row that a node is branched on, and the number of the node where it is taken; the one where it
    /// isn't comes next.
    pub fn branch(&self, number: usize) -> Option<(usize, usize)> {
        match self.nodes.get(number) {
            None => None,
            Some(node) => node.branch,
        }
    }

    /// The decision that leads to a node.
    pub fn decision(&self, number: usize) -> Option<RowDecision> {
        match self.nodes.get(number) {
            None => None,
            Some(node) => node.decision,
        }
    }

    /// The multipliers of a node, with those of riders in taken rows sunk.
    pub fn multipliers_at(&self, alloc: Global, table: &RowTable, number: usize) -> Made<Vec<i64>> {
        let mut multipliers = Vec::new(alloc);
        if number < self.nodes.len() {
            multipliers.extend_from_slice(&self.nodes[number].multipliers)?;
        }
        let mut number = number;
        for _ in 0..self.nodes.len() {
            if let Some(decision) = self.decision(number) {
                if decision.is_taken {
                    sink(table.riders_of(decision.row), &mut multipliers);
                }
                number = decision.parent;
            }
        }
        Ok(multipliers)
    }
}

fn sink(riders: &[u32], multipliers: &mut [i64]) {
    for rider in riders {
        let rider = *rider as usize;
        if rider < multipliers.len() {
            multipliers[rider] = SUNK;
        }
    }
}
