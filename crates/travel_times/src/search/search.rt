ghost use Rattle.std.specs.Prelude.{◌≡◌, ℕ, ◌+◌, ◌<◌, ◌≤◌, true, false, All, IfOk, IfSome, IfNone, OnOk, length, replicate, slice_index};
ghost use Rattle.pool_base.specs.TravelTime.{longest};
ghost use Rattle.travel_times.specs.search.Near.{AreTimesUpTo, reach};
ghost use Rattle.travel_times.specs.search.Search.{IsNextTaken, RelaxesHops, waits};

use crate::search::arcs::Arcs;
use crate::search::ring::Ring;
use crate::search::short_hop::ShortHop;
use pool_base::{OutOfMemory, Times};
use road_network::Network;
use std::alloc::Global;

/// No travel time is longer: a shortest walk has at most 99,999 arcs of 10,000 seconds.
pub const LONGEST: u32 = 1_000_000_000;

/// The room that searches need, made once and handed from one to the next.
#[derive(Drop)]
pub struct Search {
    pub alloc: Global,
    /// By node: the least seconds found so far, `NEVER` where no walk was found.
    pub seconds: Vec<u32>,
    /// By node: whether its seconds fell since its arcs were relaxed.
    pub waiting: Vec<bool>,
    /// The nodes that wait, the nearest first.
    pub ring: Ring,
}

impl Search {
    /// Room that grows with the first search.
    pub fn new(alloc: Global) -> Result<Search, OutOfMemory> {
        Ok(Search {
            alloc,
            seconds: Vec::new(alloc),
            waiting: Vec::new(alloc),
            ring: Ring::new(alloc)?,
        })
    }

    /// Forgets what was found, and has room for so many nodes.
    fn begin(&mut self, nodes: usize) -> Result<(), OutOfMemory>
        ensures seconds { OnOk result (self.new.seconds.items ≡ replicate nodes u32.MAX) }
        ensures waiting { OnOk result (self.new.waiting.items ≡ replicate nodes false) }
    {
        if self.seconds.len() == nodes && self.waiting.len() == nodes {
            self.seconds.fill(Times::NEVER);
            self.waiting.fill(false);
            return Ok(());
        }
        self.seconds = no_ways(self.alloc, nodes)?;
        self.waiting = none_waiting(self.alloc, nodes)?;
        Ok(())
    }

    /// Finds the least seconds from one node to every node that is no further than the goal, or to every node where
    /// there is no goal (Dijkstra 1959, with a ring of buckets by Dial 1969).
    pub fn run(
        &mut self,
        arcs: &Arcs<'_>,
        start: usize,
        goal: Option<usize>,
    ) -> Result<(), OutOfMemory>
        requires start { start < length arcs.now.network.now.nodes }
        requires goal { IfSome goal (λ goal. goal < length arcs.now.network.now.nodes) }
        ensures size { OnOk result (length self.new.seconds.items ≡ length arcs.now.network.now.nodes) }
        ensures times { OnOk result (AreTimesUpTo arcs.now.network.now.arcs (length arcs.now.network.now.nodes) start (reach goal self.new.seconds.items) self.new.seconds.items) }
    {
        let nodes = arcs.network.node_count();
        self.begin(nodes)?;
        self.seconds[start] = 0;
        self.waiting[start] = true;
        self.ring.push(start as u32, 0)?;
        while let Some(node) = next_near(
            &mut self.ring,
            &mut self.waiting,
            &self.seconds,
            reach(goal, &self.seconds),
        ) {
            let here = self.seconds[node];
            relax(
                arcs.leaving(node),
                here,
                &mut self.seconds,
                &mut self.waiting,
                &mut self.ring,
            )?;
        }
        Ok(())
    }
}

/// As many numbers of seconds that tell of no way.
pub(crate) fn no_ways(alloc: Global, count: usize) -> Result<Vec<u32>, OutOfMemory>
    ensures { IfOk result (λ seconds. seconds.items ≡ replicate count u32.MAX) }
{
    Ok(vec![in alloc; Times::NEVER; count]?)
}

/// As many nodes of which none waits.
pub(crate) fn none_waiting(alloc: Global, nodes: usize) -> Result<Vec<bool>, OutOfMemory>
    ensures { IfOk result (λ waiting. waiting.items ≡ replicate nodes false) }
{
    Ok(vec![in alloc; false; nodes]?)
}

/// How far a search goes: as far as its goal, if there is one.
fn reach(goal: Option<usize>, seconds: &[u32]) -> u32
    requires { IfSome goal (λ goal. goal < length seconds.now) }
    ensures { result ≡ reach goal seconds.now }
{
    match goal {
        Some(goal) => seconds[goal],
        None => Times::NEVER,
    }
}

/// Takes a node that waits and has at most so many seconds: the ring's next, or any, should the ring be empty before.
/// What the ring gives and is further stays waiting.
pub fn next_near(ring: &mut Ring, waiting: &mut [bool], seconds: &[u32], most: u32) -> Option<usize>
    requires { length waiting.old ≡ length seconds.now }
    ensures length { length waiting.new ≡ length waiting.old }
    ensures some { IfSome result (IsNextTaken waiting.old waiting.new) }
    ensures none { IfNone result ((node : ℕ) → waits waiting.new node ≡ true → most < slice_index seconds.now node) }
    ensures unchanged { IfNone result (waiting.new ≡ waiting.old) }
{
    while let Some(node) = ring.pop() {
        let node = node as usize;
        if node < waiting.len() && waiting[node] && seconds[node] <= most {
            take(waiting, node);
            return Some(node);
        }
    }
    let node = first_near(waiting, seconds, most)?;
    take(waiting, node);
    Some(node)
}

/// Takes a node that waits: it waits no longer.
#[inline]
pub(crate) fn take(waiting: &mut [bool], node: usize)
    requires within { node < length waiting.old }
    requires waits { waits waiting.old node ≡ true }
    ensures { IsNextTaken waiting.old waiting.new node }
{
    waiting[node] = false;
}

/// The first node that waits and has at most so many seconds.
pub(crate) fn first_near(waiting: &[bool], seconds: &[u32], most: u32) -> Option<usize>
    requires { length waiting.now ≡ length seconds.now }
    ensures some { IfSome result (λ node. (node < length waiting.now) × (waits waiting.now node ≡ true)) }
    ensures none { IfNone result ((node : ℕ) → waits waiting.now node ≡ true → most < slice_index seconds.now node) }
{
    for (node, waits) in waiting.iter().enumerate() {
        if *waits && seconds[node] <= most {
            return Some(node);
        }
    }
    None
}

/// Relaxes the arcs of a node: where one gives fewer seconds, these are noted, and the node at its end waits.
pub fn relax(
    hops: &[ShortHop],
    here: u32,
    seconds: &mut [u32],
    waiting: &mut [bool],
    ring: &mut Ring,
) -> Result<(), OutOfMemory>
    requires few { length seconds.old ≤ 100000 }
    requires lengths { length waiting.old ≡ length seconds.old }
    requires short { here ≤ longest }
    requires hops { All (λ hop. (hop.to < length seconds.old) × (hop.seconds ≤ 10000)) hops.now }
    ensures relaxes { OnOk result (RelaxesHops hops.now (length hops.now) here seconds.old waiting.old seconds.new waiting.new) }
    ensures seconds_length { length seconds.new ≡ length seconds.old }
    ensures waiting_length { length waiting.new ≡ length waiting.old }
{
    for hop in hops {
        let to = hop.to();
        let through = here + hop.seconds();
        if through < seconds[to] && through <= LONGEST {
            seconds[to] = through;
            waiting[to] = true;
            ring.push(to as u32, through)?;
        }
    }
    Ok(())
}
