//! Three vehicles, each with an empty row and a pair; each two pairs share a rider. At most one pair rides, which leaves one
//! rider out.
use arrayvec::ArrayVec;
use assignment_search::{search, search_by};
use bound_checker::check;
use plan_drafts::RelaxationDrafter;
use plan_rules::{GraphFault, TripGraph, TripRow};
use std::alloc::{AllocError, Global};
use std::test::Fail;
use std::thread::Threads;

fn row(vehicle: usize, riders: &[usize], cost: u64) -> TripRow {
    let mut trip = ArrayVec::new();
    for rider in riders {
        let _rides = trip.try_push(*rider);
    }
    TripRow {
        vehicle,
        riders: trip,
        cost,
    }
}

fn pair_rows(alloc: Global) -> Result<Vec<TripRow>, AllocError> {
    Ok(vec![in alloc;
        row(0, &[], 0),
        row(0, &[0, 1], 10),
        row(1, &[], 0),
        row(1, &[1, 2], 10),
        row(2, &[], 0),
        row(2, &[0, 2], 10),
    ]?)
}

/// The graph of three vehicles, three riders and these rows, if there are few.
fn graph_of(
    alloc: Global,
    rows: Vec<TripRow>,
    held: Vec<Option<u32>>,
) -> Result<TripGraph, GraphFault> {
    if rows.len() > 100 {
        return Err(GraphFault::OutOfMemory);
    }
    TripGraph::new(alloc, 3, 3, 100, rows, held)
}

/// The graph of the pairs, in which each vehicle holds nobody.
pub fn three_pairs(alloc: Global) -> Result<TripGraph, Fail> {
    let held = vec![in alloc; Some(0), Some(2), Some(4)]?;
    Ok(
        graph_of(alloc, pair_rows(alloc)?, held)
            .ok()
            .ok_or("a graph")?,
    )
}

/// What a search with this budget says: its bound, its cost, how many nodes it has, and what the checker
/// says of its tree.
fn told<R: Threads + Sync>(
    rt: &R,
    alloc: Global,
    graph: &TripGraph,
    budget: u32,
) -> Option<(i128, u64, usize, i128)> {
    let found = search_by(rt, alloc, graph, budget.max(1), 4, &RelaxationDrafter).ok()?;
    let checked = check(alloc, graph, &found.tree).ok()?;
    Some((found.bound, found.cost, found.tree.nodes().len(), checked))
}

/// Whether the search by its own plain draft comes to this cost and bound.
fn finds_plainly(alloc: Global, graph: &TripGraph, cost: u64) -> bool {
    match search(alloc, graph, 50_000) {
        Ok(found) => found.cost == cost && found.bound == i128::from(cost),
        Err(_) => false,
    }
}

#[test]
fn pairs_that_share_riders(rt: HostRuntime) -> Result<(), Fail> {
    let alloc = rt.alloc();
    let graph = three_pairs(alloc)?;
    let whole = told(&rt, alloc, &graph, 16);
    assert!(rt; matches!(whole, Some((110, 110, _, 110))));
    // Half of each pair is worth 15 seconds.
    let root = told(&rt, alloc, &graph, 1).ok_or("no search")?;
    assert!(rt; root.1 == 110 && root.2 == 1 && root.0 == root.3 && 10 <= root.0 && root.0 <= 15);
    assert!(rt; finds_plainly(alloc, &graph, 110));
    Ok(())
}
