ghost use Rattle.std.specs.Prelude.{◌≡◌, ℕ, ◌+◌, ◌*◌, ◌<◌, ◌≤◌, ◌↔◌, All, IsTrue, Contains, IfOk, length, map, slice_index};
ghost use Rattle.road_network.specs.Roads.{index_in};
ghost use Rattle.road_network.specs.Walk.{IsTimeBetween};
ghost use Rattle.travel_times.specs.table.Table.{AreTravelTimes};
ghost use Rattle.travel_times.specs.work.table.Table.{AreRows};

use crate::search::arcs::Arcs;
use crate::search::search::no_ways;
use crate::table::rows::{are_computed, write_pieces};
use pool_base::{NodeId, OutOfMemory, Times};
use road_network::Network;
use std::alloc::Global;
use std::thread::Threads;

/// Work below so many settled nodes takes less than a millisecond or two, and stays on one thread.
const SMALL: usize = 50_000;

/// The table of shortest times between nodes of the network: cell (i, j) is the least seconds over all walks from node i
/// to node j, and `Times::NEVER` exactly where there is no walk.
///
/// One search for each node, on as many threads as there are processors.
pub fn times_between(
    rt: &(impl Threads + Sync),
    alloc: Global,
    network: &Network,
    nodes: &[NodeId],
) -> Result<Times, OutOfMemory>
    requires known { All (λ node. Contains network.now.nodes node) nodes.now }
    requires few { length nodes.now ≤ 12500 }
    ensures { IfOk result (AreTravelTimes network.now.arcs (map (index_in network.now.nodes) nodes.now)) }
{
    let threads = rayon::current_num_threads(rt);
    times_shared(rt, alloc, network, nodes, threads)
}

/// The same table, on so many threads at most.
pub(crate) fn times_shared(
    rt: &(impl Threads + Sync),
    alloc: Global,
    network: &Network,
    nodes: &[NodeId],
    threads: usize,
) -> Result<Times, OutOfMemory>
    requires known { All (λ node. Contains network.now.nodes node) nodes.now }
    requires few { length nodes.now ≤ 12500 }
    ensures { IfOk result (AreTravelTimes network.now.arcs (map (index_in network.now.nodes) nodes.now)) }
{
    let points = indexes_of(alloc, network, nodes)?;
    let cells = cells_between(rt, alloc, network, &points, threads)?;
    Ok(table_of(network, &points, cells))
}

/// The table of these cells: what follows from least times over walks is what a table keeps.
pub(crate) fn table_of(network: &Network, points: &[usize], cells: Vec<u32>) -> Times
    requires known { All (λ point. point < length network.now.nodes) points.now }
    requires rows { AreRows network.now.arcs points.now 0 (length points.now) cells.items }
    ensures { AreTravelTimes network.now.arcs points.now result }
{
    let _nodes = network.node_count();
    Times::of(points.len(), cells)
}

/// The table of these cells, which are travel times between nodes of the network by index, row by row. Nothing is looked
/// at: what follows from least times over walks is what a table keeps.
pub fn table_of_times(network: &Network, points: &[usize], cells: Vec<u32>) -> Times
    requires known { All (λ point. point < length network.now.nodes) points.now }
    requires size { length cells.items ≡ length points.now * length points.now }
    requires times { (i j : ℕ) → i < length points.now → j < length points.now → IsTimeBetween network.now.arcs (slice_index points.now i) (slice_index points.now j) (slice_index cells.items (i * length points.now + j)) }
    ensures { AreTravelTimes network.now.arcs points.now result }
{
    table_of(network, points, cells)
}

/// Whether every node is one of the network's.
pub fn are_known(network: &Network, nodes: &[NodeId]) -> bool
    ensures { IsTrue result ↔ All (λ node. Contains network.now.nodes node) nodes.now }
{
    for &node in nodes {
        if !network.has_node(node) {
            return false;
        }
    }
    true
}

/// The indexes of nodes of the network.
pub fn indexes_of(
    alloc: Global,
    network: &Network,
    nodes: &[NodeId],
) -> Result<Vec<usize>, OutOfMemory>
    requires known { All (λ node. Contains network.now.nodes node) nodes.now }
    ensures indexes { IfOk result (λ points. points.items ≡ map (index_in network.now.nodes) nodes.now) }
    ensures within { IfOk result (λ points. All (λ point. point < length network.now.nodes) points.items) }
{
    let mut points = Vec::with_capacity(alloc, nodes.len())?;
    for &node in nodes {
        points.push(network.index_of(node).unwrap())?;
    }
    Ok(points)
}

/// How many rows of a table one thread computes, where so many threads share it. Work that is small stays on one.
pub fn rows_of_a_piece(points: usize, threads: usize, is_small: bool) -> usize
    ensures some { 0 < points → 0 < result }
    ensures most { result ≤ points }
{
    if is_small || threads == 0 {
        points
    } else {
        points.div_ceil(threads)
    }
}

/// The cells of the table, row by row, each written where it stays: the table is held once.
fn cells_between(
    rt: &(impl Threads + Sync),
    alloc: Global,
    network: &Network,
    points: &[usize],
    threads: usize,
) -> Result<Vec<u32>, OutOfMemory>
    requires known { All (λ point. point < length network.now.nodes) points.now }
    requires few { length points.now ≤ 12500 }
    ensures { IfOk result (λ cells. AreRows network.now.arcs points.now 0 (length points.now) cells.items) }
{
    let arcs = Arcs::of(alloc, network)?;
    let count = points.len();
    let mut cells = no_ways(alloc, count * count)?;
    if count == 0 {
        return Ok(cells);
    }
    let is_small = count.saturating_mul(network.node_count()) < SMALL;
    let rows = rows_of_a_piece(count, threads, is_small);
    write_pieces(rt, alloc, &arcs, points, rows, &mut cells);
    if !are_computed(count, &cells) {
        return Err(OutOfMemory);
    }
    Ok(cells)
}
