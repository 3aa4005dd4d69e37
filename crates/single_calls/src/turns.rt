//! Lanes that count in turn.
ghost use Rattle.std.specs.Prelude.{◌≡◌, ℕ, ◌<◌, All, length, vec_len, slice_index_or};
ghost use Rattle.seat_lock.specs.Values.{IsPassOf, AreAllPasses};

use seat_lock::{Counter, Pass, SeatLock};
use std::alloc::Global;
use std::sync::Wait;
use std::test::Fail;
use std::thread;
use std::thread::Threads;

const LANES: u8 = 16;

const CALLS: u64 = 1000;

// Adds each number below `CALLS` in turn, until a call is refused.
fn play_all<R: Wait>(rt: &R, alloc: Global, lock: &SeatLock<Counter>, pass: &mut Pass<Counter>)
    requires { IsPassOf lock.now pass.old }
    ensures { IsPassOf lock.now pass.new × (pass.new.lane ≡ pass.old.lane) }
{
    for amount in 0..CALLS {
        if lock.with_turn(rt, alloc, pass, amount).is_err() {
            return;
        }
    }
}

// Each lane on a thread of its own.
fn play_lanes<R: Threads + Wait + Sync>(
    rt: &R,
    alloc: Global,
    lock: &SeatLock<Counter>,
    passes: &mut Vec<Pass<Counter>>,
)
    requires { AreAllPasses lock.now passes.old.items }
    ensures { AreAllPasses lock.now passes.new.items }
{
    thread::for_each_mut(
        rt,
        passes.as_mut_slice(),
        usize::from(LANES),
        &|_lane, pass| play_all(rt, alloc, lock, pass),
    );
}

// Each lane's calls stand there in their order, and each with the count after it.
#[test]
fn sixteen_lanes(rt: HostRuntime) -> Result<(), Fail> {
    let alloc = rt.alloc();
    let all = usize::from(LANES) * 1000;
    let counter = Counter::new(alloc, 7919, all).ok().ok_or("memory")?;
    let Ok((lock, mut passes)) = SeatLock::start(alloc, counter, LANES) else {
        panic!(rt; "no memory to start")
    };
    play_lanes(&rt, alloc, &lock, &mut passes);
    let Ok(counter) = lock.finish(passes) else {
        panic!(rt; "no memory to finish")
    };
    assert_eq!(rt; counter.additions.len(), all);
    let mut next = [0u64; 16];
    let mut count = 0u64;
    for addition in &counter.additions {
        let lane = usize::from(addition.lane);
        assert!(rt; lane < 16);
        assert_eq!(rt; addition.amount, next[lane]);
        next[lane] = next[lane].wrapping_add(1);
        count = count.wrapping_add(addition.amount) % 7919;
        assert_eq!(rt; addition.count, count);
    }
    Ok(())
}
