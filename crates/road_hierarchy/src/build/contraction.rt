//! How a hierarchy is drafted (Geisberger, Sanders, Schultes and Delling 2008). Nodes take their turns one by one. For each way
//! through a node, between two that are left, an arc is added, unless a short search past it finds a way that is no longer.
use crate::build::check::label::Label;
use crate::build::lists::{Lists, Step};
use pool_base::OutOfMemory;
use road_network::Network;
use std::alloc::Global;
use std::cmp::Reverse;
use std::collections::BinaryHeap;

/// How many nodes a search settles where a node is valued, and where it takes its turn.
const FEW_STEPS: [usize; 3] = [1, 7, 32];

const MORE_STEPS: [usize; 4] = [1, 7, 32, 160];

/// An arc that is to be added.
#[derive(Clone, Copy)]
pub(crate) struct Added {
    pub from: u32,
    pub to: u32,
    pub seconds: u32,
}

/// Contraction, so far.
#[derive(Drop)]
pub(crate) struct Contraction {
    pub lists: Lists,
    /// How many nodes were contracted below a node, at most one above the other.
    depths: Vec<u32>,
    labels: Vec<Label>,
    /// The number of this search.
    current: u32,
    heap: BinaryHeap<Reverse<(u32, u32)>>,
    /// The arcs without which the node that was looked at last can't go.
    pub added: Vec<Added>,
    /// How many arcs may still be looked at.
    pub rest: u64,
}

impl Contraction {
    /// A network of which no node has had its turn.
    pub(crate) fn new(
        alloc: Global,
        network: &Network,
        rest: u64,
    ) -> Result<Contraction, OutOfMemory> {
        let nodes = network.node_count();
        let none = Label {
            search: 0,
            seconds: 0,
        };
        let lists = Lists::of(alloc, network)?;
        let depths = vec![in alloc; 0; nodes]?;
        let labels = vec![in alloc; none; nodes]?;
        Ok(Contraction {
            lists,
            depths,
            labels,
            current: 0,
            heap: BinaryHeap::new(alloc),
            added: Vec::new(alloc),
            rest,
        })
    }

    /// The worth of a node: who has least goes first.
    pub(crate) fn worth(&mut self, node: u32) -> Result<i64, OutOfMemory> {
        self.find_added(node, &FEW_STEPS)?;
        let ins = self.lists.ins(node).len();
        let outs = self.lists.outs(node).len();
        let more = count_of(self.added.len()).saturating_sub(count_of(ins.saturating_add(outs)));
        let depth = depth_of(&self.depths, node);
        Ok(more.saturating_mul(2).saturating_add(i64::from(depth)))
    }

    /// Takes a node out, and puts in the arcs without which it can't go.
    pub(crate) fn contract(&mut self, node: u32) -> Result<(), OutOfMemory> {
        self.find_added(node, &MORE_STEPS)?;
        let depth = depth_of(&self.depths, node).saturating_add(1);
        deepen(&mut self.depths, self.lists.outs(node), depth);
        deepen(&mut self.depths, self.lists.ins(node), depth);
        self.lists.take_out(node);
        put_all(&mut self.lists, &self.added, node)
    }

    /// Finds the arcs without which a node can't go, by searches of so many steps.
    fn find_added(&mut self, node: u32, rounds: &[usize]) -> Result<(), OutOfMemory> {
        self.added.clear();
        for place in 0..self.lists.ins(node).len() {
            if let Some(first) = self.lists.ins(node).get(place) {
                let first = *first;
                self.find_added_from(node, first, rounds)?;
            }
        }
        Ok(())
    }

    /// The same for the ways from one node.
    fn find_added_from(
        &mut self,
        node: u32,
        first: Step,
        rounds: &[usize],
    ) -> Result<(), OutOfMemory> {
        let most = first.seconds.saturating_add(longest(self.lists.outs(node)));
        self.begin(first.node)?;
        for steps in rounds {
            self.settle(node, most, *steps)?;
            if self.reaches_all(node, first) {
                return Ok(());
            }
        }
        self.add_from(node, first)
    }

    /// Adds an arc for each node behind one to which no way is short enough.
    fn add_from(&mut self, node: u32, first: Step) -> Result<(), OutOfMemory> {
        for second in self.lists.outs(node) {
            let seconds = first.seconds.saturating_add(second.seconds);
            if second.node != first.node
                && seconds_of(&self.labels, self.current, second.node) > seconds
            {
                self.added.push(Added {
                    from: first.node,
                    to: second.node,
                    seconds,
                })?;
            }
        }
        Ok(())
    }

    /// Begins a search.
    fn begin(&mut self, source: u32) -> Result<(), OutOfMemory> {
        self.heap.clear();
        self.current = self.current.saturating_add(1);
        self.lower(source, 0)
    }

    /// Settles so many nodes at most, past one, as far as `most` seconds.
    fn settle(&mut self, past: u32, most: u32, steps: usize) -> Result<(), OutOfMemory> {
        for _ in 0..steps {
            match self.heap.pop() {
                Some(Reverse((seconds, node))) => self.relax(past, most, seconds, node)?,
                None => return Ok(()),
            }
        }
        Ok(())
    }

    /// Looks at the arcs that leave a node, unless it was met by a shorter way since.
    fn relax(&mut self, past: u32, most: u32, seconds: u32, node: u32) -> Result<(), OutOfMemory> {
        if seconds > most || seconds_of(&self.labels, self.current, node) < seconds {
            return Ok(());
        }
        let count = self.lists.outs(node).len();
        self.rest = self.rest.saturating_sub(count as u64);
        for place in 0..count {
            if let Some(step) = self.lists.outs(node).get(place) {
                let step = *step;
                let through = seconds.saturating_add(step.seconds);
                if step.node != past && through <= most {
                    self.lower(step.node, through)?;
                }
            }
        }
        Ok(())
    }

    /// Lowers the label of a node.
    fn lower(&mut self, node: u32, seconds: u32) -> Result<(), OutOfMemory> {
        if seconds >= seconds_of(&self.labels, self.current, node) {
            return Ok(());
        }
        if let Some(label) = self.labels.get_mut(node as usize) {
            *label = Label {
                search: self.current,
                seconds,
            };
        }
        self.heap.push(Reverse((seconds, node)))?;
        Ok(())
    }

    /// Whether there is a way that is short enough to each node behind one.
    fn reaches_all(&self, node: u32, first: Step) -> bool {
        for second in self.lists.outs(node) {
            let seconds = first.seconds.saturating_add(second.seconds);
            if seconds_of(&self.labels, self.current, second.node) > seconds {
                return false;
            }
        }
        true
    }
}

/// The seconds that a search gave a node, and more than all where it met none.
#[inline]
fn seconds_of(labels: &[Label], current: u32, node: u32) -> u32 {
    match labels.get(node as usize) {
        Some(label) if label.search == current => label.seconds,
        _ => u32::MAX,
    }
}

/// The depth of a node.
fn depth_of(depths: &[u32], node: u32) -> u32 {
    match depths.get(node as usize) {
        Some(depth) => *depth,
        None => 0,
    }
}

/// Makes the nodes to which steps lead as deep as this at least.
fn deepen(depths: &mut [u32], steps: &[Step], depth: u32) {
    for step in steps {
        if let Some(known) = depths.get_mut(step.node as usize) {
            *known = (*known).max(depth);
        }
    }
}

/// Puts arcs in that lead by way of a node.
fn put_all(lists: &mut Lists, added: &[Added], way: u32) -> Result<(), OutOfMemory> {
    for arc in added {
        lists.put(arc.from, arc.to, arc.seconds, way)?;
    }
    Ok(())
}

/// A count with a sign; beyond a billion it stays there.
fn count_of(count: usize) -> i64 {
    count.min(1_000_000_000) as i64
}

/// The seconds of the longest of these steps.
fn longest(steps: &[Step]) -> u32 {
    let mut most = 0;
    for step in steps {
        most = step.seconds.max(most);
    }
    most
}
