//! A tree of decisions, best bound first, without proofs: what comes out is a plan, and for each node a row
//! to branch on and multipliers, which are judged where they are used.
use crate::allowance::Allowance;
use crate::costs::{UNLAWFUL, plan_cost};
use crate::relaxation::{Relaxation, Share};
use crate::tree::brancher::{Brancher, End, MOST_AT_ONCE};
use crate::whole;
use pool_base::OutOfMemory;
use row_tables::fixed_point::write_over;
use row_tables::{Draft, Made, RowTable};
use std::alloc::Global;
use std::thread;
use std::thread::Threads;

/// How many hundredths of what is left a tree's growth takes at most.
const SHARE: u64 = 40;

/// Up to this part of the gap above the bound nodes are parted beside the one of least value.
const NEAR_PART: i64 = 8;

/// Where the relaxation stands at a node.
#[derive(Drop)]
pub struct Standing {
    /// In 1/1024 second.
    pub value: i64,
    /// Whether the node may still be branched.
    pub is_open: bool,
    pub basis: Vec<u32>,
    /// The rows that are chosen in part, until the node is branched.
    pub shares: Vec<Share>,
}

/// A tree that grows.
#[derive(Drop)]
pub struct DraftTree {
    alloc: Global,
    /// The best plan known, and the nodes so far.
    pub draft: Draft,
    /// Of each node where it stands.
    pub standings: Vec<Standing>,
    /// How many nodes are open.
    open: usize,
    /// What work may still be done for the draft.
    pub allowance: Allowance,
}

impl DraftTree {
    /// A tree without nodes and plan.
    pub fn new(alloc: Global, allowance: Allowance) -> Self {
        DraftTree {
            alloc,
            draft: Draft {
                plan: Vec::new(alloc),
                cost: UNLAWFUL,
                bound: 0,
                nodes: Vec::new(alloc),
            },
            standings: Vec::new(alloc),
            open: 0,
            allowance,
        }
    }

    /// Puts in the root, where the relaxation stands.
    pub fn root(&mut self, table: &RowTable, relaxation: &mut Relaxation) -> Made<()> {
        self.draft.bound = seconds_of(relaxation.value);
        let mut end = End::new(self.alloc, None);
        let done = end.note(table, relaxation);
        self.put(whole(end, done)?)
    }

    /// Puts in a node, which is open.
    fn put(&mut self, end: End) -> Made<()> {
        self.open = self.open.saturating_add(1);
        self.standings.push(end.standing)?;
        self.draft.nodes.push(end.node)?;
        Ok(())
    }

    /// Takes a plan of this cost where it is the best.
    pub fn offer(&mut self, plan: &[Option<u32>], cost: i64) -> Made<()> {
        if cost >= self.draft.cost {
            return Ok(());
        }
        self.draft.cost = cost;
        write_over(&mut self.draft.plan, plan)
    }

    /// Whether a plan might cost less than the best one.
    pub fn is_open(&self) -> bool {
        self.draft.bound < self.draft.cost
    }

    /// The gap between the cost and this bound, in seconds.
    pub fn gap(&self, bound: i64) -> i64 {
        self.draft.cost.saturating_sub(bound)
    }

    /// The basis of the first solution.
    pub fn root_basis(&self) -> &[u32] {
        match self.standings.first() {
            None => &[],
            Some(standing) => &standing.basis,
        }
    }

    /// The relaxation's value at a node, in 1/1024 second; very little where there is none.
    pub fn value(&self, number: usize) -> i64 {
        match self.standings.get(number) {
            None => i64::MIN,
            Some(standing) => standing.value,
        }
    }

    /// The multipliers of a node.
    pub fn multipliers(&self, number: usize) -> &[i64] {
        match self.draft.nodes.get(number) {
            None => &[],
            Some(node) => &node.multipliers,
        }
    }

    /// Grows to so many nodes, by a team with relaxations beside this one and at most so many workers.
    pub fn grow<R: Threads + Sync>(
        &mut self,
        rt: &R,
        table: &RowTable,
        relaxation: &Relaxation,
        budget: usize,
        workers: u8,
    ) -> Made<()> {
        let share = self.allowance.share(SHARE);
        let mut left = share;
        let mut team: Vec<Brancher> = Vec::new(self.alloc);
        for _ in 0..budget {
            for _ in team.len()..self.open.min(MOST_AT_ONCE) {
                let mut brancher = Brancher::new(self.alloc, table);
                let done = brancher.begin(table, relaxation, &self.draft.plan, left);
                team.push(whole(brancher, done)?)?;
            }
            if left.rest == 0 || !self.hand_out(&mut team, budget, left) {
                break;
            }
            self.part_all(rt, table, workers, &mut team);
            for brancher in team.iter_mut() {
                left.rest = left.rest.min(brancher.relaxation.allowance().rest);
                self.take_in(table, brancher)?;
            }
        }
        self.allowance.settle(share, left);
        Ok(())
    }

    /// Raises the bound to the least value of an open node, or to the cost where no node is open. Gives the open nodes
    /// of least value to these, one each, and so much to go through. Whether there was one: not where the bound meets
    /// the cost, or there is no room.
    fn hand_out(&mut self, team: &mut [Brancher], budget: usize, allowance: Allowance) -> bool {
        let bound = match self.least_open() {
            None => self.draft.cost,
            Some(number) => seconds_of(self.value(number)).min(self.draft.cost),
        };
        self.draft.bound = self.draft.bound.max(bound);
        let mut room = budget.saturating_sub(self.standings.len()) / 2;
        let mut is_any = false;
        for brancher in team.iter_mut() {
            brancher.relaxation.allowance = allowance;
            brancher.node = if room > 0 { self.take_near() } else { None };
            is_any = is_any || brancher.node.is_some();
            room = room.saturating_sub(1);
        }
        is_any
    }

    /// Has these part their nodes.
    fn part_all<R: Threads + Sync>(
        &self,
        rt: &R,
        table: &RowTable,
        workers: u8,
        team: &mut [Brancher],
    ) {
        let workers = usize::from(workers).max(1);
        let part = |_: usize, brancher: &mut Brancher| brancher.part(table, self);
        thread::for_each_mut(rt, team, workers, &part);
    }

    /// Takes in what one made of its node: the next two nodes are its ends.
    fn take_in(&mut self, table: &RowTable, brancher: &mut Brancher) -> Made<()> {
        if !brancher.is_done {
            return Err(OutOfMemory);
        }
        if let (Some(number), Some(row)) = (brancher.node, brancher.branch) {
            self.note_branch(number, row);
        }
        for _ in 0..brancher.ends.len() {
            if let Some(end) = brancher.ends.pop() {
                if let Some(plan) = &end.plan {
                    let cost = plan_cost(self.alloc, table, plan)?;
                    self.offer(plan, cost)?;
                }
                self.put(end)?;
            }
        }
        Ok(())
    }

    /// Takes out the open node of least value, where that lies above the bound by no more than a part of the gap:
    /// another may never have to be parted.
    fn take_near(&mut self) -> Option<usize> {
        let number = self.least_open()?;
        let above = seconds_of(self.value(number)).saturating_sub(self.draft.bound);
        if !self.is_open() || above > self.gap(self.draft.bound) / NEAR_PART {
            return None;
        }
        if let Some(standing) = self.standings.get_mut(number) {
            standing.is_open = false;
            self.open = self.open.saturating_sub(1);
        }
        Some(number)
    }

    /// The last of the open nodes of least value, if one is open.
    fn least_open(&self) -> Option<usize> {
        let mut best = None;
        let mut least = i64::MAX;
        for (number, standing) in self.standings.iter().enumerate() {
            if standing.is_open && standing.value <= least {
                best = Some(number);
                least = standing.value;
            }
        }
        best
    }

    /// Notes that a node is branched on a row, and that the next two nodes are its ends. It doesn't need the rows any
    /// more that it chooses in part.
    fn note_branch(&mut self, number: usize, row: usize) {
        let first = self.draft.nodes.len();
        if let Some(node) = self.draft.nodes.get_mut(number) {
            node.branch = Some((row, first));
        }
        if let Some(standing) = self.standings.get_mut(number) {
            standing.shares = Vec::new(self.alloc);
        }
    }
}

/// A value in 1/1024 second, in seconds, rounded up.
fn seconds_of(value: i64) -> i64 {
    value.saturating_add(1023) >> 10
}
