//! Moves of idle vehicles to riders who are left.
use pool_base::Times;
use rebalancing::rebalance;
use std::alloc::Global;

const NEVER: u32 = Times::NEVER;

/// From vehicle 0 a second to rider 0 and two to rider 1, from vehicle 1 two to rider 0 and 100 to rider 1.
const CROSSED: [u32; 16] = [
    0, NEVER, 1, 2, NEVER, 0, 2, 100, NEVER, NEVER, 0, NEVER, NEVER, NEVER, NEVER, 0,
];

/// The same with no way to rider 1.
const ONE_RIDER: [u32; 16] = [
    0, NEVER, 1, NEVER, NEVER, 0, 2, NEVER, NEVER, NEVER, 0, NEVER, NEVER, NEVER, NEVER, 0,
];

/// Whether two vehicles move so to two riders over these seconds, in this total.
fn moves(alloc: Global, seconds: &[u32], pairs: &[(usize, usize)], total: u64) -> bool {
    match Vec::from_slice(alloc, seconds) {
        Ok(cells) => match Times::checked(4, cells) {
            Ok(times) => moves_over(alloc, &times, pairs, total),
            Err(_) => false,
        },
        Err(_) => false,
    }
}

fn moves_over(alloc: Global, times: &Times, pairs: &[(usize, usize)], total: u64) -> bool {
    if times.len() != 4 {
        return false;
    }
    match rebalance(alloc, &[0, 1], &[2, 3], times) {
        Ok(moves) => moves.pairs.as_slice() == pairs && moves.total == total,
        Err(_) => false,
    }
}

/// Whether nobody moves where no vehicle is idle and nobody is left.
fn nobody_moves(alloc: Global) -> bool {
    match Times::checked(0, Vec::new(alloc)) {
        Ok(times) => match rebalance(alloc, &[], &[], &times) {
            Ok(moves) => moves.pairs.is_empty() && moves.total == 0,
            Err(_) => false,
        },
        Err(_) => false,
    }
}

/// To move the nearest first takes 101 seconds in the first example.
#[test]
fn the_least_seconds_in_all(rt: HostRuntime) {
    assert!(rt; moves(rt.alloc(), &CROSSED, &[(0, 1), (1, 0)], 4));
    assert!(rt; moves(rt.alloc(), &ONE_RIDER, &[(0, 0)], 1));
    assert!(rt; nobody_moves(rt.alloc()));
}
