ghost use Rattle.std.specs.Prelude.{◌≡◌, ◌<◌, ◌≤◌, IfOk};
ghost use Rattle.pool_base.specs.Times.{point_count};

use crate::fault::Fault;
use arrayvec::ArrayVec;
use pool_base::{OutOfMemory, Party, Times};
use rand_xoshiro::SplitMix64;
use rand_xoshiro::rand_core::Rng;
use std::alloc::Global;
use stop_orders::{Leg, Task};

const PLACES: usize = 100;

/// A place on a square, by its steps from a corner.
#[derive(Clone, Copy)]
struct Spot {
    across: u8,
    along: u8,
}

/// A number below `most`.
fn draw(draws: &mut SplitMix64, most: u64) -> u64
    requires { 0 < most }
    ensures { result < most }
{
    draws.next_u64() % most
}

fn drawn_place(draws: &mut SplitMix64) -> usize
    ensures { result < 100 }
{
    draw(draws, PLACES as u64) as usize
}

/// The seconds between 100 places that are drawn on a square of 20 by 20 steps, 30 seconds a step.
pub fn drawn_table(alloc: Global, draws: &mut SplitMix64) -> Result<Times, Fault>
    ensures { IfOk result (λ times. point_count times ≡ 100) }
{
    let spots = drawn_spots(alloc, draws)?;
    let cells = cells_between(alloc, &spots)?;
    Ok(Times::checked(PLACES, cells)?)
}

fn drawn_spots(alloc: Global, draws: &mut SplitMix64) -> Result<Vec<Spot>, OutOfMemory> {
    let mut spots = Vec::with_capacity(alloc, PLACES)?;
    for _place in 0..PLACES {
        let across = draw(draws, 20) as u8;
        let along = draw(draws, 20) as u8;
        spots.push(Spot { across, along })?;
    }
    Ok(spots)
}

fn cells_between(alloc: Global, spots: &[Spot]) -> Result<Vec<u32>, OutOfMemory> {
    let mut cells = Vec::new(alloc);
    for from in spots {
        for to in spots {
            cells.push(seconds_between(*from, *to))?;
        }
    }
    Ok(cells)
}

fn seconds_between(from: Spot, to: Spot) -> u32 {
    let across = from.across.abs_diff(to.across) as u32;
    let along = from.along.abs_diff(to.along) as u32;
    30 * (across + along)
}

/// So many tasks.
pub fn drawn_tasks(
    alloc: Global,
    draws: &mut SplitMix64,
    times: &Times,
    count: u64,
) -> Result<Vec<Task>, OutOfMemory>
    requires { point_count times.now ≡ 100 }
{
    let mut tasks = Vec::new(alloc);
    for _task in 0..count {
        tasks.push(drawn_task(draws, times))?;
    }
    Ok(tasks)
}

/// A task of 2 to 6 riders and 0 to 8 passengers.
fn drawn_task(draws: &mut SplitMix64, times: &Times) -> Task
    requires { point_count times.now ≡ 100 }
{
    let start = drawn_place(draws);
    let ready = draw(draws, 60);
    let mut task = Task {
        start,
        ready,
        dwell: draw(draws, 16) as u16,
        seats: 8 + draw(draws, 3) as u8,
        aboard: ArrayVec::new(),
        riders: ArrayVec::new(),
    };
    let riders = 2 + draw(draws, 5);
    let passengers = draw(draws, 9);
    for _rider in 0..riders {
        let _waits = task.riders.try_push(drawn_rider(draws, times, ready));
    }
    for _passenger in 0..passengers {
        let _aboard = task.aboard.try_push(drawn_passenger(draws, start, ready));
    }
    task
}

fn drawn_rider(draws: &mut SplitMix64, times: &Times, ready: u64) -> Leg
    requires places { point_count times.now ≡ 100 }
    requires ready { ready < 60 }
{
    let origin = drawn_place(draws);
    let destination = drawn_place(draws);
    let latest_pickup = ready + 600 + draw(draws, 1800);
    let ideal = ready + draw(draws, 300) + times.seconds(origin, destination) as u64;
    Leg {
        origin,
        destination,
        latest_pickup,
        ideal,
        latest_dropoff: ideal + 600 + draw(draws, 3000),
        party: Party::new(1 + draw(draws, 2)).unwrap_or(Party::ONE),
    }
}

fn drawn_passenger(draws: &mut SplitMix64, start: usize, ready: u64) -> Leg
    requires { ready < 60 }
{
    let destination = drawn_place(draws);
    let ideal = ready + draw(draws, 600);
    Leg {
        origin: start,
        destination,
        latest_pickup: ready,
        ideal,
        latest_dropoff: ideal + 600 + draw(draws, 3000),
        party: Party::ONE,
    }
}
