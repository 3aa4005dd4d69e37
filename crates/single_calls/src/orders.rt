//! Orders of stops: one that is out of reach, and the least delay of the widest task.
ghost use Rattle.std.specs.Prelude.{◌≡◌, ◌<◌, ◌≤◌};
ghost use Rattle.pool_base.specs.Times.{point_count};
ghost use Rattle.stop_orders.specs.task.Task.{IsTask};

use arrayvec::ArrayVec;
use pool_base::{OutOfMemory, Party, Steps, Times};
use std::alloc::Global;
use std::marker::Brand;
use std::process::Abort;
use std::sync::ledger::{Blank, Ledger};
use std::test::Fail;
use stop_orders::{
    Leg, Route, Stop, Task, Workspace, delay_of, is_order, is_valid, least_delay_with,
    least_over_all_orders, serves, stop_second,
};

/// A person who may be late by any number of seconds that matters.
fn leg(origin: usize, destination: usize, ideal: u64) -> Leg {
    Leg {
        origin,
        destination,
        latest_pickup: 4_000_000_000,
        ideal,
        latest_dropoff: 4_000_000_000,
        party: Party::ONE,
    }
}

/// A vehicle in place 0, at second 0.
fn vehicle(dwell: u16, seats: u8) -> Task {
    Task {
        start: 0,
        ready: 0,
        dwell,
        seats,
        aboard: ArrayVec::new(),
        riders: ArrayVec::new(),
    }
}

#[test]
fn out_of_reach(rt: HostRuntime) -> Result<(), Fail> {
    let cells = vec![in rt.alloc(); 0, 60, Times::NEVER, 0]?;
    let times = Times::checked(2, cells).ok().ok_or("a table")?;
    let mut task = vehicle(0, 4);
    let _rider = task.riders.try_push(leg(1, 0, 0));
    let stops = [Stop::Pick(0), Stop::Drop(0)];
    assert!(rt; is_valid(&task, times.len()));
    assert!(rt; !serves(&task, &times, &stops));
    assert!(rt; is_order(&task, &stops));
    assert_eq!(rt; stop_second(&task, &times, &stops, 0), Some(60));
    assert_eq!(rt; stop_second(&task, &times, &stops, 1), None);
    assert_eq!(rt; delay_of(&task, &times, &stops), None);
    assert!(rt; least_over_all_orders(&task, &times).is_none());
    Ok(())
}

/// The least delay of a task that is valid.
fn least(
    rt: &impl Abort,
    alloc: Global,
    task: &Task,
    times: &Times,
) -> Result<Option<Route>, OutOfMemory> {
    assert!(rt; is_valid(task, times.len()));
    counted::<Brand>(&mut Workspace::new(alloc), task, times, Blank::new(1))
}

fn counted<L: Ledger>(
    workspace: &mut Workspace,
    task: &Task,
    times: &Times,
    blank: Blank,
) -> Result<Option<Route>, OutOfMemory>
    requires valid { IsTask (point_count times.now) task.now }
    requires name { blank.name ≡ L.name }
    requires parts { blank.parts ≡ L.parts }
    requires share { 0 < blank.parts }
{
    least_delay_with(workspace, task, times, &mut Steps::<L>::new(blank))
}

/// The seconds between two of 23 places that are spread over a square, 60 seconds a step.
fn steps_between(a: u64, b: u64) -> u32
    requires from { a < 23 }
    requires to { b < 23 }
{
    let across = (7 * a % 20).abs_diff(7 * b % 20);
    let along = (11 * a * a % 20).abs_diff(11 * b * b % 20);
    (across + along) as u32 * 60
}

fn square(alloc: Global) -> Result<Times, Fail> {
    let mut cells = Vec::new(alloc);
    for a in 0..23u64 {
        for b in 0..23u64 {
            cells.push(steps_between(a, b))?;
        }
    }
    Ok(Times::checked(23, cells).ok().ok_or("a table")?)
}

/// Six riders, ten passengers, and every ideal second out of reach. The delay is from a program of its own
/// (bench/routing.cpp).
#[test]
fn widest_task(rt: HostRuntime) -> Result<(), Fail> {
    let times = square(rt.alloc())?;
    let mut task = vehicle(10, 10);
    for i in 0..6usize {
        let _waits = task
            .riders
            .try_push(leg(1 + 2 * i, 2 + 2 * i, 100 * i as u64));
    }
    for j in 0..10usize {
        let _aboard = task.aboard.try_push(leg(0, 13 + j, 50 * j as u64));
    }
    let route = least(&rt, rt.alloc(), &task, &times)
        .ok()
        .flatten()
        .ok_or("an order")?;
    assert_eq!(rt; route.delay, 54_000);
    Ok(())
}
