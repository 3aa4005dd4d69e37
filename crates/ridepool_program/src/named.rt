//! The files that words name.

use crate::input::{Input, NamedFile};
use pool_base::OutOfMemory;
use pool_io::StdSource;
use rider_limits::value_of;
use std::fs::File;

/// The files that words name.
#[derive(Drop)]
pub(crate) struct Inputs {
    pub(crate) network: StdSource<Input>,
    pub(crate) fleet: StdSource<Input>,
    pub(crate) script: StdSource<Input>,
    pub(crate) report: StdSource<Input>,
}

impl Inputs {
    pub(crate) fn named(rt: &HostRuntime, words: &[String]) -> Result<Inputs, OutOfMemory> {
        Ok(Inputs {
            script: script_of(rt, words)?,
            network: source_of(rt, words, "network"),
            fleet: source_of(rt, words, "fleet"),
            report: source_of(rt, words, "report"),
        })
    }
}

/// The file that the words give a key, or a source whose every read fails.
pub(crate) fn source_of(rt: &HostRuntime, words: &[String], key: &str) -> StdSource<Input> {
    let Some(path) = value_of(words, key) else {
        return StdSource::missing();
    };
    match File::open(rt, path) {
        Ok(file) => StdSource::over(Input::File(file)),
        Err(_) => StdSource::missing(),
    }
}

/// The script's file, which isn't opened before its first read, or a source whose every read fails.
fn script_of(rt: &HostRuntime, words: &[String]) -> Result<StdSource<Input>, OutOfMemory> {
    match value_of(words, "script") {
        Some(path) => Ok(StdSource::over(named_file(rt, path)?)),
        None => Ok(StdSource::missing()),
    }
}

/// A file of this path, which isn't opened before its first read.
pub(crate) fn named_file(rt: &HostRuntime, path: &str) -> Result<Input, OutOfMemory> {
    let mut owned = String::new(rt.alloc());
    owned.push_str(path)?;
    Ok(Input::Named(NamedFile::of(*rt, owned)))
}
