ghost use Rattle.std.specs.Prelude.{◌≡◌, ℕ, ◌+◌, ◌<◌, ◌≤◌, false, All, Contains, IfOk, length, map, slice_index};
ghost use Rattle.pool_base.specs.TravelTime.{longest};
ghost use Rattle.road_network.specs.Roads.{index_in};
ghost use Rattle.road_network.specs.Walk.{IsTimeBetween};
ghost use Rattle.travel_times.specs.search.Search.{RelaxesHops};
ghost use Rattle.travel_times.specs.table.Table.{AreTravelTimes};
ghost use Rattle.travel_times.specs.work.table.Table.{AreRows};

use crate::search::search::{LONGEST, first_near, no_ways, none_waiting};
use crate::table::rows::push_row;
use crate::table::table::{indexes_of, table_of};
use pool_base::{NodeId, OutOfMemory, Times};
use road_network::{Hop, Network};
use std::alloc::Global;

/// The table of `times_between` by repeated relaxation (Ford 1956), on one thread and with no queue: as long as the
/// seconds of some node fell, its arcs are relaxed again. It is slow, and there to compare with.
pub fn times_by_repeated_relaxation(
    alloc: Global,
    network: &Network,
    nodes: &[NodeId],
) -> Result<Times, OutOfMemory>
    requires known { All (λ node. Contains network.now.nodes node) nodes.now }
    requires few { length nodes.now ≤ 12500 }
    ensures { IfOk result (AreTravelTimes network.now.arcs (map (index_in network.now.nodes) nodes.now)) }
{
    let points = indexes_of(alloc, network, nodes)?;
    let cells = cells_of(alloc, network, &points)?;
    Ok(table_of(network, &points, cells))
}

/// The cells of the table, row by row.
fn cells_of(alloc: Global, network: &Network, points: &[usize]) -> Result<Vec<u32>, OutOfMemory>
    requires known { All (λ point. point < length network.now.nodes) points.now }
    requires few { length points.now ≤ 12500 }
    ensures { IfOk result (λ cells. AreRows network.now.arcs points.now 0 (length points.now) cells.items) }
{
    let mut cells = Vec::with_capacity(alloc, points.len() * points.len())?;
    for &start in points {
        let seconds = seconds_from(alloc, network, start)?;
        push_row(&mut cells, points, &seconds)?;
    }
    Ok(cells)
}

/// The least seconds from one node to every node.
fn seconds_from(alloc: Global, network: &Network, start: usize) -> Result<Vec<u32>, OutOfMemory>
    requires { start < length network.now.nodes }
    ensures length { IfOk result (λ seconds. length seconds.items ≡ length network.now.nodes) }
    ensures times { IfOk result (λ seconds. (goal : ℕ) → goal < length network.now.nodes → IsTimeBetween network.now.arcs start goal (slice_index seconds.items goal)) }
{
    let nodes = network.node_count();
    let mut seconds = no_ways(alloc, nodes)?;
    let mut waiting = none_waiting(alloc, nodes)?;
    seconds[start] = 0;
    waiting[start] = true;
    while let Some(node) = first_near(&waiting, &seconds, Times::NEVER) {
        waiting[node] = false;
        let here = seconds[node];
        relax(network.arcs_from(node), here, &mut seconds, &mut waiting);
    }
    Ok(seconds)
}

/// Relaxes the arcs of a node.
fn relax(hops: &[Hop], here: u32, seconds: &mut [u32], waiting: &mut [bool])
    requires lengths { length waiting.old ≡ length seconds.old }
    requires short { here ≤ longest }
    requires hops { All (λ hop. (hop.to < length seconds.old) × (hop.seconds ≤ 10000)) hops.now }
    ensures { RelaxesHops hops.now (length hops.now) here seconds.old waiting.old seconds.new waiting.new }
{
    for hop in hops {
        let through = here + hop.seconds;
        if through < seconds[hop.to] && through <= LONGEST {
            seconds[hop.to] = through;
            waiting[hop.to] = true;
        }
    }
}
