//! The nodes by rank: more arcs first, then lower index.
ghost use Rattle.std.specs.Prelude.{◌≡◌, ℕ, ◌+◌, ◌-◌, ◌<◌, ◌≤◌, ◌==◌, All, IfOk, count_by, length, map, slice_index, slice_index_or};
ghost use Rattle.road_network.specs.Roads.{leaving};
ghost use Rattle.travel_times.specs.labels.Rank.{degree};
ghost use Rattle.travel_times.specs.work.labels.Order.{IsNodeOrder};

use pool_base::OutOfMemory;
use road_network::{Hop, Network};
use std::alloc::Global;

/// More than any degree.
const MOST: u32 = 1_000_000;

/// What nodes are sorted by: how many arcs are missing to the most, the index.
type Key = (u32, u32);

/// The indexes of the nodes, by rank.
pub(crate) fn nodes_by_rank(alloc: Global, network: &Network) -> Result<Vec<u32>, OutOfMemory>
    ensures { IfOk result (λ order. IsNodeOrder network.now.arcs (length network.now.nodes) order.items) }
{
    let _nodes = network.node_count();
    let degrees = degrees_of(alloc, network)?;
    let mut keys = keys_of(alloc, &degrees)?;
    keys.sort_unstable();
    let order = nodes_of(alloc, &keys)?;
    Ok(order)
}

/// How many arcs leave or reach each node.
fn degrees_of(alloc: Global, network: &Network) -> Result<Vec<u32>, OutOfMemory>
    ensures each { IfOk result (λ degrees. length degrees.items ≡ length network.now.nodes) }
    ensures degrees { IfOk result (λ degrees. (node : ℕ) → node < length network.now.nodes → slice_index degrees.items node ≡ degree network.now.arcs node) }
{
    let nodes = network.node_count();
    let mut degrees = leaving_counts(alloc, network)?;
    for node in 0..nodes {
        count_reaching(&mut degrees, network.arcs_from(node));
    }
    Ok(degrees)
}

/// How many arcs leave each node.
fn leaving_counts(alloc: Global, network: &Network) -> Result<Vec<u32>, OutOfMemory>
    ensures { IfOk result (λ counts. length counts.items ≡ length network.now.nodes × ((node : ℕ) → node < length network.now.nodes → slice_index counts.items node ≡ length (leaving node network.now.arcs))) }
{
    let nodes = network.node_count();
    let mut counts = Vec::with_capacity(alloc, nodes)?;
    for node in 0..nodes {
        counts.push(network.arcs_from(node).len() as u32)?;
    }
    Ok(counts)
}

/// Counts each hop at the node that it reaches.
fn count_reaching(counts: &mut [u32], hops: &[Hop])
    requires ends { All (λ hop. hop.to < length counts.old) hops.now }
    requires few { length hops.now ≤ 400000 }
    requires room { All (λ count. count ≤ 1000000) counts.old }
    ensures { (node : ℕ) → node < length counts.old → slice_index counts.new node ≡ slice_index counts.old node + count_by (λ hop. hop.to == node) hops.now }
{
    for hop in hops {
        counts[hop.to] += 1;
    }
}

/// What each node is sorted by.
fn keys_of(alloc: Global, degrees: &[u32]) -> Result<Vec<Key>, OutOfMemory>
    requires few { length degrees.now ≤ 100000 }
    requires small { All (λ d. d ≤ 1000000) degrees.now }
    ensures { IfOk result (λ keys. (length keys.items ≡ length degrees.now) × ((node : ℕ) → node < length degrees.now → slice_index_or keys.items node (0, 0) ≡ (1000000 - slice_index degrees.now node, node))) }
{
    let mut keys = Vec::with_capacity(alloc, degrees.len())?;
    for (node, degree) in degrees.iter().enumerate() {
        keys.push((MOST - *degree, node as u32))?;
    }
    Ok(keys)
}

/// The nodes of the keys.
fn nodes_of(alloc: Global, keys: &[Key]) -> Result<Vec<u32>, OutOfMemory>
    ensures { IfOk result (λ nodes. nodes.items ≡ map (λ key. key.1) keys.now) }
{
    let mut nodes = Vec::with_capacity(alloc, keys.len())?;
    for key in keys {
        nodes.push(key.1)?;
    }
    Ok(nodes)
}

/// The place of each node among the nodes by rank.
pub(crate) fn ranks_of(alloc: Global, nodes: usize, order: &[u32]) -> Result<Vec<u32>, OutOfMemory>
    requires few { length order.now ≤ 100000 }
    requires within { (r : ℕ) → r < length order.now → slice_index order.now r < nodes }
    requires apart { (r s : ℕ) → r < s → s < length order.now → slice_index order.now r ≡ slice_index order.now s → ⊥ }
    ensures { IfOk result (λ rank. (length rank.items ≡ nodes) × ((r : ℕ) → r < length order.now → slice_index rank.items (slice_index order.now r) ≡ r)) }
{
    let mut rank = vec![in alloc; 0; nodes]?;
    for (place, node) in order.iter().enumerate() {
        rank[*node as usize] = place as u32;
    }
    Ok(rank)
}
