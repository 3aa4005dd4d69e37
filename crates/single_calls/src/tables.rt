//! Tables of seconds, and the first thing that is wrong with one.
use pool_base::{Times, TimesFault};
use std::alloc::Global;

const NEVER: u32 = Times::NEVER;

/// What is wrong with a table of these cells; `None` also for want of memory.
fn fault_of(alloc: Global, points: usize, cells: &[u32]) -> Option<TimesFault> {
    match Vec::from_slice(alloc, cells) {
        Ok(cells) => match Times::checked(points, cells) {
            Ok(_) => None,
            Err(fault) => Some(fault),
        },
        Err(_) => None,
    }
}

/// The cells of a table of these cells, if it is one.
fn is_table(alloc: Global, points: usize, cells: &[u32]) -> bool {
    match Vec::from_slice(alloc, cells) {
        Ok(cells) => match Times::checked(points, cells) {
            Ok(times) => times.len() == points,
            Err(_) => false,
        },
        Err(_) => false,
    }
}

#[test]
fn the_first_fault_of_a_table(rt: HostRuntime) {
    let alloc = rt.alloc();
    assert!(rt; is_table(alloc, 0, &[]));
    assert!(rt; is_table(alloc, 2, &[0, 5, NEVER, 0]));
    assert!(rt; is_table(alloc, 2, &[0, 1_000_000_000, 0, 0]));
    assert!(rt; is_table(alloc, 3, &[0, 1, 2, NEVER, 0, 1, NEVER, NEVER, 0]));
    assert!(rt; matches!(fault_of(alloc, 2, &[0, 5, 0]), Some(TimesFault::Size)));
    assert!(rt;
        matches!(
            fault_of(alloc, 2, &[0, 1_000_000_001, 0, 0]),
            Some(TimesFault::TooLong { a: 0, b: 1 })
        )
    );
    assert!(rt;
        matches!(
            fault_of(alloc, 2, &[1, 5, 5, 0]),
            Some(TimesFault::Diagonal { a: 0 })
        )
    );
    assert!(rt;
        matches!(
            fault_of(alloc, 3, &[0, 1, 5, NEVER, 0, 1, NEVER, NEVER, 0]),
            Some(TimesFault::Triangle { a: 0, b: 1, c: 2 })
        )
    );
}
