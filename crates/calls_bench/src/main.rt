//! Times two calls alone: exact routing of drawn tasks, and tables of shortest times.
//!
//! The scripts of bench/ run it beside other programs on the same tasks and networks, and compare the sums that it prints.
//! Nothing is proved of it but that it is safe.
#![tactic(auto)]

mod draw;
mod fault;
mod routing;
mod tables;

use fault::Fault;
use routing::time_routing;
use std::env;
use std::process::ExitCode;
use std::thread::Threads;
use tables::time_tables;

const USAGE: &str = "\
usage: calls_bench routing SEED TASKS
       calls_bench tables NETWORK POINTS REPEATS WAY

routing draws tasks of 2 to 6 riders and 0 to 8 passengers, and finds the least delay of each. It prints how many can
be served and the sum of their least delays, and on standard error the microseconds that all took.

  SEED      of the draws, any 64-bit number
  TASKS     how many, 0 to 100000

tables prints how many threads there are, for labels the microseconds that they took and how many hubs they have, and
then a line for each repeat: the microseconds that a table of shortest times took, and the sum of its cells modulo 2^64.

  NETWORK   a file of streets: from,to,seconds
  POINTS    how many nodes, spread evenly over the network, 0 to 12500
  REPEATS   how many times the table is made, 0 to 1000
  WAY       rows, by one search for each node, or labels

Exit status: 0 done; 2 words; 3 network or table; 4 clock or output; 5 out of memory.
";

fn main(rt: HostRuntime) -> ExitCode {
    match time_call(&rt, &rt) {
        Ok(()) => ExitCode::SUCCESS,
        Err(Fault::Words) => {
            let _ = rt.print(USAGE);
            ExitCode::from(2)
        }
        Err(Fault::Network | Fault::Table) => ExitCode::from(3),
        Err(Fault::Io) => ExitCode::from(4),
        Err(Fault::OutOfMemory) => ExitCode::from(5),
    }
}

/// Times the call that the first word names.
fn time_call(rt: &HostRuntime, threads: &(impl Threads + Sync)) -> Result<(), Fault> {
    match call_of(rt) {
        Some(Call::Routing) => time_routing(rt),
        Some(Call::Tables) => time_tables(rt, threads),
        None => Err(Fault::Words),
    }
}

#[derive(Clone, Copy)]
enum Call {
    Routing,
    Tables,
}

fn call_of(rt: &HostRuntime) -> Option<Call> {
    let mut words = env::args(rt).ok()?.skip(1);
    let word = words.next()?;
    if word.as_str() == "routing" {
        return Some(Call::Routing);
    }
    if word.as_str() == "tables" {
        return Some(Call::Tables);
    }
    None
}
