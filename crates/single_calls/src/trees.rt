//! Trees of the worked pairs that are sound, and trees whose first wrong node is named.
use crate::plans::three_pairs;
use bound_checker::{CheckFault, check};
use plan_rules::{Multipliers, Node, Tree, TripGraph};
use std::alloc::{AllocError, Global};
use std::test::Fail;

fn leaf(alloc: Global, multiplier: i64) -> Result<Node, AllocError> {
    Ok(Node::Leaf {
        multipliers: Multipliers::of(vec![in alloc; multiplier, multiplier, multiplier]?),
    })
}

/// A tree of one leaf with these multipliers alike.
fn alone(alloc: Global, multiplier: i64) -> Result<Tree, AllocError> {
    Ok(Tree::of(vec![in alloc; leaf(alloc, multiplier)?]?))
}

/// A branch at this row of vehicle 0, with two leaves of these multipliers alike.
fn branched(alloc: Global, row: u32, multiplier: i64) -> Result<Tree, AllocError> {
    let branch = Node::Branch { vehicle: 0, row };
    Ok(Tree::of(vec![in alloc; branch, leaf(alloc, multiplier)?, leaf(alloc, multiplier)?]?))
}

/// A tree of one leaf with two multipliers, where there are three riders.
fn short(alloc: Global) -> Result<Tree, AllocError> {
    let short = Node::Leaf {
        multipliers: Multipliers::of(vec![in alloc; 0, 0]?),
    };
    Ok(Tree::of(vec![in alloc; short]?))
}

/// Two leaves, of which the first is a whole tree.
fn doubled(alloc: Global) -> Result<Tree, AllocError> {
    Ok(Tree::of(vec![in alloc; leaf(alloc, 0)?, leaf(alloc, 0)?]?))
}

fn dead(alloc: Global) -> Result<Tree, AllocError> {
    Ok(Tree::of(vec![in alloc; Node::Dead]?))
}

/// The value of a tree that was made, if it is sound.
fn value(alloc: Global, graph: &TripGraph, tree: Result<Tree, AllocError>) -> Option<i128> {
    match tree {
        Ok(tree) => check(alloc, graph, &tree).ok(),
        Err(_) => None,
    }
}

/// Why a tree that was made is refused.
fn fault(alloc: Global, graph: &TripGraph, tree: Result<Tree, AllocError>) -> Option<CheckFault> {
    match tree {
        Ok(tree) => check(alloc, graph, &tree).err(),
        Err(_) => None,
    }
}

#[test]
fn the_value_of_a_sound_tree(rt: HostRuntime) -> Result<(), Fail> {
    let alloc = rt.alloc();
    let graph = three_pairs(alloc)?;
    assert_eq!(rt; value(alloc, &graph, alone(alloc, 0)), Some(0));
    assert_eq!(rt; value(alloc, &graph, alone(alloc, 5120)), Some(15));
    assert_eq!(rt; value(alloc, &graph, alone(alloc, 102_400)), Some(-270));
    assert_eq!(rt; value(alloc, &graph, branched(alloc, 1, 5120)), Some(15));
    Ok(())
}

#[test]
fn the_first_wrong_node_is_named(rt: HostRuntime) -> Result<(), Fail> {
    let alloc = rt.alloc();
    let graph = three_pairs(alloc)?;
    let none = fault(alloc, &graph, Ok(Tree::of(Vec::new(alloc))));
    assert!(rt; matches!(none, Some(CheckFault::Unfinished)));
    let dead = fault(alloc, &graph, dead(alloc));
    assert!(rt; matches!(dead, Some(CheckFault::BadDead { node: 0 })));
    let short = fault(alloc, &graph, short(alloc));
    assert!(rt; matches!(short, Some(CheckFault::BadLeaf { node: 0 })));
    let foreign = fault(alloc, &graph, branched(alloc, 2, 0));
    assert!(rt; matches!(foreign, Some(CheckFault::BadBranch { node: 0 })));
    let doubled = fault(alloc, &graph, doubled(alloc));
    assert!(rt; matches!(doubled, Some(CheckFault::Extra { node: 1 })));
    Ok(())
}
