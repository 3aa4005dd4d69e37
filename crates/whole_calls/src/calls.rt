//! Runs on a street of five corners, whose sources and sink lie in memory.
use pool_base::read_number;
use pool_io::{MemorySink, MemorySource};
use request_book::Notifier;
use ridepool::{RunStatus, ridepool};
use shared_work::Gate;
use std::alloc::{AllocError, Global};
use std::sync::Wait;
use std::thread::Threads;

const NETWORK: &[u8] =
    b"from,to,seconds\n1,2,60\n2,1,60\n2,3,60\n3,2,60\n3,4,60\n4,3,60\n4,5,60\n5,4,60\n";

/// The sources and the sink of a run.
#[derive(Drop)]
struct Fakes {
    network: MemorySource,
    fleet: MemorySource,
    script: MemorySource,
    report: MemorySource,
    out: MemorySink,
}

fn fakes_of(alloc: Global, fleet: &[u8], script: &[u8]) -> Result<Fakes, AllocError> {
    let network = source(alloc, NETWORK)?;
    let fleet = source(alloc, fleet)?;
    let script = source(alloc, script)?;
    let report = source(alloc, b"")?;
    Ok(Fakes {
        network,
        fleet,
        script,
        report,
        out: MemorySink::new(alloc, 4096, Vec::new(alloc)),
    })
}

fn source(alloc: Global, text: &[u8]) -> Result<MemorySource, AllocError> {
    let bytes = Vec::from_slice(alloc, text)?;
    Ok(MemorySource::new(bytes, 4096, Vec::new(alloc)))
}

/// What stands in a report.
#[derive(Clone, Copy)]
pub struct Counts {
    /// By its last line.
    pub entries: u64,
    pub accepted: usize,
    pub closed: usize,
}

/// What stands in the report of a run of this script by this fleet; `None` where the run doesn't end well, and for want of
/// memory.
pub fn counts_of<G: Gate>(
    rt: &(impl Threads + Wait + Sync),
    alloc: Global,
    fleet: &[u8],
    script: &[u8],
    notifiers: &mut Vec<Box<dyn Notifier>>,
    gate: &G,
) -> Option<Counts> {
    let mut fakes = fakes_of(alloc, fleet, script).ok()?;
    match status_of(rt, alloc, &mut fakes, notifiers, gate) {
        Ok(RunStatus::Done) => counts_in(fakes.out.written()),
        _ => None,
    }
}

fn counts_in(report: &[u8]) -> Option<Counts> {
    Some(Counts {
        entries: last_number(report)?,
        accepted: count_in(report, b" accepted\n"),
        closed: count_in(report, b" closed\n"),
    })
}

/// The number of the report's last line.
fn last_number(report: &[u8]) -> Option<u64> {
    let line = report.strip_suffix(b"\n")?;
    let place = line.iter().rposition(|byte| *byte == b'\n')?;
    let number = line.get(place..)?.strip_prefix(b"\ndone ")?;
    read_number(number).ok()
}

/// At how many places of a text this stands.
fn count_in(text: &[u8], part: &[u8]) -> usize {
    let mut count = 0usize;
    for place in 0..text.len() {
        if text.get(place..).unwrap_or(&[]).starts_with(part) {
            count = count.saturating_add(1);
        }
    }
    count
}

fn status_of<G: Gate>(
    rt: &(impl Threads + Wait + Sync),
    alloc: Global,
    fakes: &mut Fakes,
    notifiers: &mut Vec<Box<dyn Notifier>>,
    gate: &G,
) -> Result<RunStatus, AllocError> {
    let words = words(alloc)?;
    Ok(ridepool(
        rt,
        alloc,
        &words,
        &mut fakes.network,
        &mut fakes.fleet,
        &mut fakes.script,
        &mut fakes.report,
        &mut fakes.out,
        notifiers,
        gate,
    ))
}

fn words(alloc: Global) -> Result<Vec<String>, AllocError> {
    let mut words = Vec::new(alloc);
    for word in ["run", "network=n", "fleet=f", "script=s"] {
        words.push(String::from_str(alloc, word)?)?;
    }
    Ok(words)
}
