ghost use Rattle.std.specs.Prelude.{◌≤◌, All, Contains, IfOk, length, map};
ghost use Rattle.std.specs.Thread.{IsSync};
ghost use Rattle.road_network.specs.Roads.{Roads, index_in};
ghost use Rattle.travel_times.specs.table.Table.{AreTravelTimes};

use crate::table::table::times_shared;
use pool_base::{NodeId, OutOfMemory, Times};
use road_network::Network;
use std::alloc::Global;
use std::thread::Threads;

/// What tells the travel times of a road network.
pub trait Ways: Sync {
    ghost use Rattle.road_network.specs.Roads.{Roads};

    /// The network whose travel times these are.
    ghost roads: { Self → Roads };

    /// The table of shortest times between nodes of the network, as `times_between` gives it. (That `R` is `Sync` is said
    /// once more in a clause: of a method's own type, a proof knows only what clauses say.)
    fn table<R: Threads + Sync>(
        &self,
        rt: &R,
        alloc: Global,
        nodes: &[NodeId],
    ) -> Result<Times, OutOfMemory>
        requires shared { IsSync R.row }
        requires known { All (λ node. Contains (roads self.now).nodes node) nodes.now }
        requires few { length nodes.now ≤ 12500 }
        ensures { IfOk result (AreTravelTimes (roads self.now).arcs (map (index_in (roads self.now).nodes) nodes.now)) };
}

/// The travel times of a network by one search for each node, as `times_between` makes them, on as many threads at a
/// time as there are workers.
#[derive(Clone, Copy)]
pub struct NetworkWays<'a> {
    pub network: &'a Network,
    pub workers: u8,
}

impl Ways for NetworkWays<'_> {
    ghost roads = { λ ways. ways.network.now };

    fn table<R: Threads + Sync>(
        &self,
        rt: &R,
        alloc: Global,
        nodes: &[NodeId],
    ) -> Result<Times, OutOfMemory> {
        times_shared(rt, alloc, self.network, nodes, self.workers as usize)
    }
}
