use std::alloc::{AllocError, Global};
use strsim::osa_distance;

/// The most edits between a word and the one that was meant.
const MOST_EDITS: usize = 2;

pub(crate) const COMMANDS: [&str; 6] = ["run", "live", "resume", "drive", "load", "audit"];

const RUN: [&str; 14] = [
    "network", "fleet", "script", "notices", "wait", "delay", "trip", "penalty", "budget", "pairs",
    "workers", "proof", "dwell", "times",
];

const LOAD: [&str; 14] = [
    "seed", "side", "vehicles", "riders", "rounds", "wait", "delay", "trip", "penalty", "budget",
    "pairs", "workers", "dwell", "times",
];

const AUDIT: [&str; 5] = ["network", "fleet", "script", "report", "workers"];

const RESUME: [&str; 8] = [
    "network", "fleet", "report", "script", "workers", "times", "notices", "judge",
];

/// The keys that a command takes.
pub(crate) fn keys_of(command: &str) -> &'static [&'static str] {
    match command {
        "load" => &LOAD,
        "audit" => &AUDIT,
        "resume" => &RESUME,
        _ => &RUN,
    }
}

/// What may stand behind a key and its `=`.
pub(crate) fn range_of(key: &str) -> &'static str {
    match key {
        "wait" | "delay" => "a whole number from 0 to 7200",
        "trip" => "a whole number from 1 to 6",
        "penalty" | "seed" => "a whole number from 0 to 1000000000",
        "budget" => "a whole number from 1 to 50000",
        "pairs" => "a whole number from 1 to 2000000",
        "workers" => "a whole number from 1 to 64",
        "proof" | "judge" => "0 or 1",
        "dwell" => "a whole number from 0 to 600",
        "times" => "rows or labels",
        "side" => "a whole number from 2 to 100",
        "vehicles" => "a whole number from 1 to 500",
        "riders" => "a whole number from 1 to 1000",
        "rounds" => "a whole number from 1 to 100",
        _ => "the name of a file",
    }
}

/// The nearest of some names, where one is near.
pub(crate) fn nearest(
    alloc: Global,
    word: &str,
    names: &[&'static str],
) -> Result<Option<&'static str>, AllocError> {
    let mut best = None;
    let mut least = MOST_EDITS + 1;
    for name in names {
        let edits = osa_distance(alloc, word, name)?;
        if edits < least && edits <= name.len() / 2 {
            least = edits;
            best = Some(*name);
        }
    }
    Ok(best)
}
