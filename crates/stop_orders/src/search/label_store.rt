ghost use Rattle.std.specs.Prelude.{◌≡◌, ◌<◌, ◌≤◌, [], ◌∷◌, ◌++◌, IsTrue, All, OnOk};
ghost use Rattle.pool_base.specs.Times.{point_count, travel_time};
ghost use Rattle.stop_orders.specs.work.search.LabelStore.{labels_of, Dominates, IsDominated, IsLabelPlaced};

use crate::search::label::Label;
use crate::task::done::Done;
use pool_base::{OutOfMemory, Times};
use std::alloc::Global;

/// A label that is kept, and the next one in its chain.
#[derive(Clone, Copy)]
pub struct Entry {
    pub label: Label,
    next: usize,
}

/// The labels from which all ways on were tried, in chains by what is done.
#[derive(Drop)]
pub struct LabelStore {
    pub entries: Vec<Entry>,
    heads: Vec<usize>,
    /// How many chains the task has: a power of two, or 0.
    chains: usize,
}

/// The room for labels that searches need, to be handed from one to the next.
#[derive(Drop)]
pub struct Workspace {
    pub(crate) store: LabelStore,
}

impl Workspace {
    /// No room yet; it takes no memory.
    pub fn new(alloc: Global) -> Workspace {
        Workspace {
            store: LabelStore {
                entries: Vec::new(alloc),
                heads: Vec::new(alloc),
                chains: 0,
            },
        }
    }
}

impl LabelStore {
    /// Forgets all labels, and makes chains for a task of so many stops.
    pub(crate) fn begin(&mut self, stops: usize) -> Result<(), OutOfMemory>
        ensures { OnOk result (labels_of self.new ≡ []) }
    {
        self.entries.clear();
        self.chains = chain_count(stops);
        if self.heads.len() < self.chains {
            self.heads.resize(self.chains, usize::MAX)?;
        }
        Ok(())
    }

    /// Whether the task has so many stops that labels are looked up.
    pub(crate) fn is_of_use(&self) -> bool {
        self.chains > 0
    }

    /// Keeps a label.
    pub(crate) fn keep(&mut self, label: Label) -> Result<(), OutOfMemory>
        ensures { OnOk result (labels_of self.new ≡ labels_of self.old ++ label ∷ []) }
    {
        let chain = self.chain_of(label.done);
        let next = self.head_of(chain);
        self.entries.push(Entry { label, next })?;
        if chain < self.heads.len() {
            self.heads[chain] = self.entries.len() - 1;
        }
        Ok(())
    }

    /// Whether a kept label dominates this one.
    pub(crate) fn dominates(&self, times: &Times, label: &Label) -> bool
        requires placed { All (IsLabelPlaced (point_count times.now)) (labels_of self.now) }
        requires place { label.now.place < point_count times.now }
        ensures { IsTrue result → IsDominated (travel_time times.now) (labels_of self.now) label.now }
    {
        let mut at = self.head_of(self.chain_of(label.done));
        for _entry in 0..self.entries.len() {
            if at >= self.entries.len() {
                return false;
            }
            let entry = self.entries[at];
            if dominates(times, &entry.label, label) {
                return true;
            }
            at = entry.next;
        }
        false
    }

    /// The chain of the labels with these stops done; `usize::MAX` where there are no chains.
    fn chain_of(&self, done: Done) -> usize {
        if self.chains == 0 {
            return usize::MAX;
        }
        done.hash() as usize & (self.chains - 1)
    }

    /// The first entry of a chain. What an earlier task left there is none.
    fn head_of(&self, chain: usize) -> usize {
        if chain >= self.heads.len() {
            return usize::MAX;
        }
        let head = self.heads[chain];
        if head < self.entries.len() && self.chain_of(self.entries[head].label.done) == chain {
            head
        } else {
            usize::MAX
        }
    }
}

/// How many chains a task of so many stops has: few labels need none.
fn chain_count(stops: usize) -> usize {
    match stops {
        0..=6 => 0,
        7..=10 => 64,
        11..=14 => 1024,
        _ => 65536,
    }
}

/// Whether a label of the same stops is as soon wherever the other goes, with as much room and no more
/// delay. That holds across places, since no way round is shorter.
fn dominates(times: &Times, kept: &Label, label: &Label) -> bool
    requires kept { IsLabelPlaced (point_count times.now) kept.now }
    requires place { label.now.place < point_count times.now }
    ensures { IsTrue result → Dominates (travel_time times.now) kept.now label.now }
{
    if kept.done != label.done
        || kept.room < label.room
        || kept.delay > label.delay
        || kept.free > label.free
    {
        return false;
    }
    match times.get(kept.place, label.place) {
        None => false,
        Some(seconds) => kept.free + seconds as u64 <= label.free,
    }
}
