//! Shortest walks of a worked town, by threads and by repeated relaxation.
use crate::line::network_of;
use pool_base::{NodeId, OutOfMemory, Times};
use road_network::Network;
use std::alloc::Global;
use std::test::Fail;
use std::thread::Threads;
use travel_times::{are_known, times_between, times_by_repeated_relaxation};

// A one-way arc, two arcs between nodes 2 and 3, an arc from 3 to itself, arcs of no seconds, and nodes 6 and 7 apart.
const TOWN: &[u8] =
    b"from,to,seconds\n1,2,60\n2,3,50\n2,3,20\n3,3,5\n3,4,0\n4,3,0\n4,1,7\n5,1,9\n6,7,1\n";

/// The table between these nodes, where all are known.
pub fn fast(
    rt: &(impl Threads + Sync),
    alloc: Global,
    network: &Network,
    nodes: &[NodeId],
) -> Option<Result<Times, OutOfMemory>> {
    if nodes.len() <= 12_500 && are_known(network, nodes) {
        Some(times_between(rt, alloc, network, nodes))
    } else {
        None
    }
}

// The same by repeated relaxation.
fn plain(alloc: Global, network: &Network, nodes: &[NodeId]) -> Option<Result<Times, OutOfMemory>> {
    if nodes.len() <= 12_500 && are_known(network, nodes) {
        Some(times_by_repeated_relaxation(alloc, network, nodes))
    } else {
        None
    }
}

// The tables of the town by either way, row by row.
fn cells(rt: &(impl Threads + Sync), alloc: Global) -> Option<[Vec<u32>; 2]> {
    let network = network_of(alloc, TOWN)?;
    let mut nodes = Vec::new(alloc);
    for name in 1..=7 {
        nodes.push(NodeId::new(name)?).ok()?;
    }
    let fast = fast(rt, alloc, &network, &nodes)?.ok()?;
    let plain = plain(alloc, &network, &nodes)?.ok()?;
    Some([cells_of(alloc, &fast).ok()?, cells_of(alloc, &plain).ok()?])
}

// The seconds of the table, row by row.
fn cells_of(alloc: Global, times: &Times) -> Result<Vec<u32>, OutOfMemory> {
    let mut cells = Vec::new(alloc);
    for a in 0..times.len() {
        for b in 0..times.len() {
            cells.push(times.seconds(a, b))?;
        }
    }
    Ok(cells)
}

const N: u32 = Times::NEVER;

const WALKS: [u32; 49] = [
    0, 60, 80, 80, N, N, N, 27, 0, 20, 20, N, N, N, 7, 67, 0, 0, N, N, N, 7, 67, 0, 0, N, N, N, 9,
    69, 89, 89, 0, N, N, N, N, N, N, N, 0, 1, N, N, N, N, N, N, 0,
];

#[test]
fn walks_of_a_town(rt: HostRuntime) -> Result<(), Fail> {
    let [fast, plain] = cells(&rt, rt.alloc()).ok_or("no table")?;
    assert_eq!(rt; fast.as_slice(), WALKS.as_slice());
    assert_eq!(rt; plain.as_slice(), WALKS.as_slice());
    Ok(())
}
