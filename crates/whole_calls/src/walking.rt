//! A shortest walk on a town whose shortest way isn't the one of fewest nodes.
use pool_base::NodeId;
use pool_io::rows;
use road_network::{NETWORK_HEADER, Network, read_network};
use route_drive::{WalkStep, shortest_walk};
use std::alloc::Global;

// From 1 to 4 the arc takes longer than the way by 2 and 3; nobody comes back from 4, and nobody comes to 5.
const TOWN: &[u8] = b"from,to,seconds\n1,4,100\n1,2,30\n2,3,20\n3,4,40\n5,1,9\n";

fn town(alloc: Global) -> Option<Network> {
    match rows(alloc, TOWN, NETWORK_HEADER) {
        Ok(table) => read_network(alloc, &table).ok(),
        Err(_) => None,
    }
}

fn node(name: u64) -> NodeId {
    NodeId::new(name).unwrap_or(NodeId::default())
}

/// What a walk from one node to another says, where the town has both and there is memory.
fn walked(
    alloc: Global,
    network: &Network,
    from: NodeId,
    to: NodeId,
) -> Option<Option<Vec<WalkStep>>> {
    if network.has_node(from) && network.has_node(to) {
        shortest_walk(alloc, network, from, to).ok()
    } else {
        None
    }
}

fn walk(alloc: Global, from: u64, to: u64) -> Option<Option<Vec<WalkStep>>> {
    let network = town(alloc)?;
    walked(alloc, &network, node(from), node(to))
}

/// The name of a step's node, with its seconds.
fn told(step: &WalkStep) -> (u32, u32) {
    (step.node.get(), step.seconds)
}

/// Whether a walk has just these nodes, each at its second.
fn is_walk(walk: Option<Option<Vec<WalkStep>>>, steps: &[(u32, u32)]) -> bool {
    match walk {
        Some(Some(found)) => {
            let mut rest = steps.iter();
            for step in &found {
                match rest.next() {
                    Some(wanted) if *wanted == told(step) => {}
                    _ => return false,
                }
            }
            rest.next().is_none()
        }
        _ => false,
    }
}

#[test]
fn the_shortest_way_and_not_the_fewest_nodes(rt: HostRuntime) {
    let alloc = rt.alloc();
    assert!(rt; is_walk(walk(alloc, 1, 4), &[(1, 0), (2, 30), (3, 50), (4, 90)]));
    assert!(rt; is_walk(walk(alloc, 5, 2), &[(5, 0), (1, 9), (2, 39)]));
    assert!(rt; is_walk(walk(alloc, 3, 3), &[(3, 0)]));
    assert!(rt; matches!(walk(alloc, 4, 1), Some(None)));
    assert!(rt; matches!(walk(alloc, 1, 5), Some(None)));
}
