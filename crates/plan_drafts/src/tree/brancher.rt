//! The parting of a node: it is branched on a row, and its two ends are solved.
use crate::allowance::Allowance;
use crate::diving::whole_plan;
use crate::relaxation::Relaxation;
use crate::tree::branching::{Branching, decision};
use crate::tree::tree::{DraftTree, Standing};
use crate::{Plan, whole};
use row_tables::fixed_point::{ONE, write_over};
use row_tables::{DraftNode, Made, RowDecision, RowTable};
use std::alloc::Global;

/// How many nodes are parted at once: a tree follows from this, and not from the number of workers.
pub const MOST_AT_ONCE: usize = 4;

/// How many columns come in before no more rows are tried, times vehicles and riders.
const MOST_WORK: usize = 60_000_000 / MOST_AT_ONCE;

/// No more of a row than this counts as chosen in part, in units of 2^-32.
const MOST_PART: i64 = ONE / 100 * 99 - 1;

/// How many rows of a vehicle a pass puts into the pool.
const MOST_ROWS: usize = 10;

/// A node in the making: where it stands, and a plan where its solution is one.
#[derive(Drop)]
pub struct End {
    pub node: DraftNode,
    pub standing: Standing,
    pub plan: Option<Plan>,
}

impl End {
    /// The end to which this decision leads.
    pub fn new(alloc: Global, decision: Option<RowDecision>) -> Self {
        End {
            node: DraftNode {
                decision,
                branch: None,
                multipliers: Vec::new(alloc),
            },
            standing: Standing {
                value: i64::MIN,
                is_open: true,
                basis: Vec::new(alloc),
                shares: Vec::new(alloc),
            },
            plan: None,
        }
    }

    /// Notes where the relaxation stands.
    pub fn note(&mut self, table: &RowTable, relaxation: &mut Relaxation) -> Made<()> {
        relaxation.find_shares(table, MOST_PART)?;
        self.standing.value = relaxation.value;
        write_over(&mut self.standing.basis, &relaxation.basis.columns)?;
        write_over(&mut self.standing.shares, &relaxation.shares)?;
        write_over(&mut self.node.multipliers, &relaxation.multipliers)
    }
}

/// Who parts nodes, with a relaxation of its own.
#[derive(Drop)]
pub struct Brancher {
    alloc: Global,
    pub relaxation: Relaxation,
    branching: Branching,
    /// The node at hand, if there is one.
    pub node: Option<usize>,
    /// What came of it: the row that the node is branched on and its ends, the last first, if there is one, and whether
    /// there was memory for that.
    pub branch: Option<usize>,
    pub ends: Vec<End>,
    pub is_done: bool,
}

impl Brancher {
    /// One without a solution.
    pub fn new(alloc: Global, table: &RowTable) -> Self {
        Brancher {
            alloc,
            relaxation: Relaxation::new(alloc),
            branching: Branching::new(alloc, table),
            node: None,
            branch: None,
            ends: Vec::new(alloc),
            is_done: false,
        }
    }

    /// Begins at a lawful plan, over the same pool as this relaxation.
    pub fn begin(
        &mut self,
        table: &RowTable,
        relaxation: &Relaxation,
        plan: &[Option<u32>],
        allowance: Allowance,
    ) -> Made<()> {
        let columns = &relaxation.pool.columns;
        self.relaxation.is_held = true;
        self.relaxation.begin(table, plan, columns, allowance)
    }

    /// Parts the node at hand of this tree.
    pub fn part(&mut self, table: &RowTable, tree: &DraftTree) {
        self.branch = None;
        self.is_done = match self.node {
            None => true,
            Some(number) => self.branch(table, tree, number).is_ok(),
        };
    }

    fn branch(&mut self, table: &RowTable, tree: &DraftTree, number: usize) -> Made<()> {
        let Some(standing) = tree.standings.get(number) else {
            return Ok(());
        };
        self.forbid_above(table, tree, number);
        let relaxation = &mut self.relaxation;
        relaxation.go_to(table, &standing.basis)?;
        relaxation.pivot_on(table)?;
        let conditions = table.condition_count() as u64;
        let tries = relaxation.pivots.saturating_mul(conditions) < MOST_WORK as u64;
        let cost = tree.draft.cost;
        let branching = &mut self.branching;
        self.branch = branching.choose(table, relaxation, &standing.shares, cost, tries)?;
        if let Some(row) = self.branch {
            self.add(table, tree, decision(number, row, true))?;
            self.add(table, tree, decision(number, row, false))?;
        }
        Ok(())
    }

    /// Forbids what the decisions above the node forbid.
    fn forbid_above(&mut self, table: &RowTable, tree: &DraftTree, mut number: usize) {
        self.relaxation.allow_after(0);
        for _ in 0..tree.draft.nodes.len() {
            match tree.draft.decision(number) {
                None => break,
                Some(decision) => {
                    self.relaxation.decide(table, decision);
                    number = decision.parent;
                }
            }
        }
    }

    /// Makes the end to which this decision leads from where the relaxation stands, and goes back there. It is solved by
    /// the dual simplex, or where that fails from the node above.
    fn add(&mut self, table: &RowTable, tree: &DraftTree, decision: RowDecision) -> Made<()> {
        let most = tree.draft.cost.saturating_mul(1024).saturating_sub(1023);
        let relaxation = &mut self.relaxation;
        let count = relaxation.forbidden_count;
        relaxation.decide(table, decision);
        if !relaxation.solve_dual(table, most, MOST_ROWS)? {
            relaxation.go_back(&self.branching.saved)?;
            relaxation.is_held = false;
            relaxation.solve(table, most, MOST_ROWS, u32::MAX)?;
            relaxation.is_held = true;
        }
        let mut end = End::new(self.alloc, Some(decision));
        let done = self.fill(table, tree, decision.parent, &mut end, most);
        self.ends.insert(0, whole(end, done)?)?;
        self.relaxation.allow_after(count);
        self.relaxation.go_back(&self.branching.saved)
    }

    /// Fills an end that is solved up to this value. It has the value and the multipliers of the node above where those
    /// are better.
    fn fill(
        &mut self,
        table: &RowTable,
        tree: &DraftTree,
        parent: usize,
        end: &mut End,
        most: i64,
    ) -> Made<()> {
        end.note(table, &mut self.relaxation)?;
        if end.standing.shares.is_empty() && end.standing.value < most {
            self.relaxation.find_shares(table, i64::MAX)?;
            end.plan = Some(whole_plan(self.alloc, table, &self.relaxation.shares)?);
        }
        let above = tree.value(parent);
        if end.standing.value >= above {
            return Ok(());
        }
        end.standing.value = above;
        write_over(&mut end.node.multipliers, tree.multipliers(parent))
    }
}
