//! What a gate sees of whole runs: lanes that meet, a lane that is answered during growth, and pieces of growth.
use crate::calls::counts_of;
use request_book::Notifier;
use shared_work::Gate;
use std::alloc::Global;
use std::sync::Wait;
use std::sync::atomic::{AtomicU64, Ordering};
use std::thread;
use std::thread::Threads;

const FLEET: &[u8] = b"vehicle,seats,node,second\n1,2,1,0\n";

// Lane 0 seals, and lane 1 asks twice.
const SEAL_AND_ASK: &[u8] =
    b"round,lane,command,a,b,c,d\n0,0,seal,0,,,\n0,1,submit,1,2,4,0\n0,1,submit,2,3,5,0\n";

// Two riders who can share the vehicle, and two seals.
const THREE_ROUNDS: &[u8] =
    b"round,lane,command,a,b,c,d\n0,0,submit,1,2,4,0\n0,0,submit,2,3,5,0\n1,0,seal,0,,,\n2,0,seal,0,,,\n";

// Each of sixteen lanes asks once.
const SIXTEEN: &[u8] =
    b"round,lane,command,a,b,c,d\n0,0,submit,1,2,4,0\n0,1,submit,2,2,4,0\n0,2,submit,3,2,4,0\n0,3,submit,4,2,4,0\n0,4,submit,5,2,4,0\n0,5,submit,6,2,4,0\n0,6,submit,7,2,4,0\n0,7,submit,8,2,4,0\n0,8,submit,9,2,4,0\n0,9,submit,10,2,4,0\n0,10,submit,11,2,4,0\n0,11,submit,12,2,4,0\n0,12,submit,13,2,4,0\n0,13,submit,14,2,4,0\n0,14,submit,15,2,4,0\n0,15,submit,16,2,4,0\n";

// For how many turns a gate holds at most.
const TURNS: u32 = 1_000_000_000;

// Holds until a count is so high. Where its turns run out it says so.
fn hold(count: &AtomicU64, least: u64, ran_out: &AtomicU64) {
    for _ in 0..TURNS {
        if count.load(Ordering::SeqCst) >= least {
            return;
        }
        thread::yield_now();
    }
    ran_out.store(1, Ordering::SeqCst);
}

// Holds each lane's answer until sixteen answers were given.
#[derive(Drop)]
struct AllLanes {
    answers: AtomicU64,
    ran_out: AtomicU64,
}

impl Gate for AllLanes {
    fn enter(&self, _piece: u32) {}

    fn answered(&self, _lane: u8) {
        self.answers.fetch_add(1, Ordering::SeqCst);
        hold(&self.answers, 16, &self.ran_out);
    }
}

// Holds lane 1's first answer until piece 0 was begun, and piece 0 until lane 1 had so many answers.
#[derive(Drop)]
struct DuringGrowth {
    awaited: u64,
    begun: AtomicU64,
    answers: AtomicU64,
    ran_out: AtomicU64,
}

impl DuringGrowth {
    fn until(awaited: u64) -> DuringGrowth {
        DuringGrowth {
            awaited,
            begun: AtomicU64::new(0),
            answers: AtomicU64::new(0),
            ran_out: AtomicU64::new(0),
        }
    }
}

impl Gate for DuringGrowth {
    fn enter(&self, piece: u32) {
        if piece == 0 {
            self.begun.fetch_add(1, Ordering::SeqCst);
            hold(&self.answers, self.awaited, &self.ran_out);
        }
    }

    fn answered(&self, lane: u8) {
        if lane == 1 && self.answers.fetch_add(1, Ordering::SeqCst) == 0 {
            hold(&self.begun, 1, &self.ran_out);
        }
    }
}

// How many entries a run of this script has, how many of them accept a rider, and how many close a batch; nobody is told
// anything.
fn made<G: Gate>(
    rt: &(impl Threads + Wait + Sync),
    alloc: Global,
    script: &[u8],
    gate: &G,
) -> Option<(u64, usize, usize)> {
    let mut nobody: Vec<Box<dyn Notifier>> = Vec::new(alloc);
    let counts = counts_of(rt, alloc, FLEET, script, &mut nobody, gate)?;
    Some((counts.entries, counts.accepted, counts.closed))
}

#[test]
fn a_lane_is_answered_during_growth(rt: HostRuntime) {
    let gate = DuringGrowth::until(2);
    assert!(rt; matches!(made(&rt, rt.alloc(), SEAL_AND_ASK, &gate), Some((4, 2, 1))));
    assert_eq!(rt; gate.ran_out.load(Ordering::SeqCst), 0);
}

#[test]
fn sixteen_lanes_meet(rt: HostRuntime) {
    let gate = AllLanes {
        answers: AtomicU64::new(0),
        ran_out: AtomicU64::new(0),
    };
    assert!(rt; matches!(made(&rt, rt.alloc(), SIXTEEN, &gate), Some((16, 16, 0))));
    assert_eq!(rt; gate.ran_out.load(Ordering::SeqCst), 0);
}

// In each of the two batches the trips of one rider, of two and of three are a run of their own.
#[test]
fn each_size_is_grown_in_runs_of_its_own(rt: HostRuntime) {
    let gate = DuringGrowth::until(0);
    assert!(rt; matches!(made(&rt, rt.alloc(), THREE_ROUNDS, &gate), Some((6, 2, 2))));
    assert_eq!(rt; gate.begun.load(Ordering::SeqCst), 6);
}
