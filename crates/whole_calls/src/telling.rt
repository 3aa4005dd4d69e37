//! Three notifiers of a run, of whom one is left out once it fails.
use crate::calls::{Counts, counts_of};
use request_book::{MemoryNotifier, Notifier};
use shared_work::FreeGate;
use std::alloc::{AllocError, Global};
use std::sync::Wait;
use std::test::Fail;
use std::thread::Threads;

const FLEET: &[u8] = b"vehicle,seats,node,second\n1,2,1,0\n";

// Two batches with three notices each.
const TWO_BATCHES: &[u8] =
    b"round,lane,command,a,b,c,d\n0,0,submit,1,2,4,0\n0,0,submit,2,3,5,0\n0,0,submit,3,5,1,0\n1,0,seal,0,,,\n2,0,seal,0,,,\n";

// A notifier with room for six notices of which this call fails.
fn boxed(alloc: Global, fail: u64) -> Result<Box<MemoryNotifier>, AllocError> {
    let mut notifier = MemoryNotifier::new(alloc, Vec::from_slice(alloc, &[fail])?);
    if notifier.reserve(6).is_err() {
        return Err(AllocError);
    }
    match Box::new(alloc, notifier) {
        Ok(notifier) => Ok(notifier),
        Err(_) => Err(AllocError),
    }
}

// How many of three notifiers are left where the second fails this call.
fn left(rt: &(impl Threads + Wait + Sync), alloc: Global, fail: u64) -> Result<usize, AllocError> {
    let mut notifiers: Vec<Box<dyn Notifier>> = Vec::new(alloc);
    for call in [6, fail, 6] {
        notifiers.push(boxed(alloc, call)?)?;
    }
    match counts_of(rt, alloc, FLEET, TWO_BATCHES, &mut notifiers, &FreeGate) {
        Some(
            Counts {
                entries: 7,
                accepted: 3,
                closed: 2,
            },
        ) => Ok(notifiers.len()),
        _ => Err(AllocError),
    }
}

#[test]
fn who_fails_is_told_no_more(rt: HostRuntime) -> Result<(), Fail> {
    assert_eq!(rt; left(&rt, rt.alloc(), 1)?, 2);
    assert_eq!(rt; left(&rt, rt.alloc(), 5)?, 2);
    assert_eq!(rt; left(&rt, rt.alloc(), 6)?, 3);
    Ok(())
}
