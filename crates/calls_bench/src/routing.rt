//! How long `least_delay_with` takes on drawn tasks, how many can be served, and the sum of their least delays, by which
//! another program's answers can be compared.
ghost use Rattle.std.specs.Prelude.{◌≡◌, ◌<◌};
ghost use Rattle.pool_base.specs.Times.{point_count};
ghost use Rattle.stop_orders.specs.task.Task.{IsTask};

use crate::draw::{drawn_table, drawn_tasks};
use crate::fault::Fault;
use pool_base::{OutOfMemory, Steps, Times, read_number_up_to};
use rand_xoshiro::SplitMix64;
use rand_xoshiro::rand_core::SeedableRng;
use std::alloc::Global;
use std::env;
use std::marker::Brand;
use std::sync::ledger::{Blank, Ledger};
use std::time::Instant;
use stop_orders::{Route, Task, Workspace, is_valid, least_delay_with};

const MOST_TASKS: u64 = 100_000;

/// The answers to many tasks.
#[derive(Clone, Copy)]
struct Answers {
    served: u64,
    delays: u64,
}

/// Times the tasks that the words behind the first ask for.
pub fn time_routing(rt: &HostRuntime) -> Result<(), Fault> {
    let Some((seed, count)) = wish_of(rt) else {
        return Err(Fault::Words);
    };
    let mut draws = SplitMix64::seed_from_u64(seed);
    let times = drawn_table(rt.alloc(), &mut draws)?;
    let tasks = drawn_tasks(rt.alloc(), &mut draws, &times, count)?;
    let start = Instant::now(rt)?;
    let answers = answers_of(rt.alloc(), &tasks, &times)?;
    let took = start.elapsed(rt)?.as_micros();
    println!(rt; "served {}, delays {}", answers.served, answers.delays)?;
    eprintln!(rt; "{took} microseconds")?;
    Ok(())
}

/// The seed and the number of tasks; `None` where the words aren't two numbers.
fn wish_of(rt: &HostRuntime) -> Option<(u64, u64)> {
    let mut words = env::args(rt).ok()?.skip(2);
    let seed = read_number_up_to(words.next()?.as_bytes(), u64::MAX)?;
    let count = read_number_up_to(words.next()?.as_bytes(), MOST_TASKS)?;
    Some((seed, count))
}

fn answers_of(alloc: Global, tasks: &[Task], times: &Times) -> Result<Answers, OutOfMemory> {
    let mut workspace = Workspace::new(alloc);
    let mut answers = Answers {
        served: 0,
        delays: 0,
    };
    for task in tasks {
        if !is_valid(task, times.len()) {
            continue;
        }
        if let Some(route) = least(&mut workspace, task, times)? {
            answers.served = answers.served.saturating_add(1);
            answers.delays = answers.delays.saturating_add(route.delay);
        }
    }
    Ok(answers)
}

fn least(
    workspace: &mut Workspace,
    task: &Task,
    times: &Times,
) -> Result<Option<Route>, OutOfMemory>
    requires valid { IsTask (point_count times.now) task.now }
{
    counted::<Brand>(workspace, task, times, Blank::new(1))
}

fn counted<L: Ledger>(
    workspace: &mut Workspace,
    task: &Task,
    times: &Times,
    blank: Blank,
) -> Result<Option<Route>, OutOfMemory>
    requires valid { IsTask (point_count times.now) task.now }
    requires name { blank.name ≡ L.name }
    requires parts { blank.parts ≡ L.parts }
    requires share { 0 < blank.parts }
{
    least_delay_with(workspace, task, times, &mut Steps::<L>::new(blank))
}
