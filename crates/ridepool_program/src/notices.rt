//! The file that riders' notices go to. The calls of `run` and of `live` open it. It names the room `hints`.

pub(crate) mod opening_sink;

use crate::notices::opening_sink::{SharedFile, is_taken};
use crate::print_line;
use pool_base::OutOfMemory;
use ridepool::LineNotifier;
use rider_limits::value_of;

/// The file for notices, where the words name one that is no input and no standard stream; else a line says so.
pub(crate) fn notices_path<'a>(rt: &HostRuntime, words: &'a [String]) -> Option<&'a str> {
    let path = value_of(words, "notices")?;
    let script = match value_of(words, "script") {
        Some(script) => script,
        None => "/dev/stdin",
    };
    let inputs = [
        value_of(words, "network"),
        value_of(words, "fleet"),
        value_of(words, "report"),
        Some(script),
    ];
    if is_taken(rt, path, &inputs) {
        print_line(
            rt,
            b"notices: the file is an input or standard output: not written",
        );
        return None;
    }
    if is_taken(rt, path, &[Some("/dev/stderr")]) {
        print_line(rt, b"notices: the file is standard error: not written");
        return None;
    }
    Some(path)
}

/// Says that notices couldn't be written, where a notifier is lost and the file could be opened; else it was said before.
pub(crate) fn tell_lost(rt: &HostRuntime, is_lost: bool, file: &SharedFile) {
    if is_lost && file.is_open() {
        print_line(rt, b"notices: write failed");
    }
}

/// A file that isn't open, with the notifier that the words ask for in a box: one that writes to it, or none.
pub(crate) fn shared_file(
    rt: &HostRuntime,
    words: &[String],
) -> Result<(SharedFile, Option<Box<LineNotifier<SharedFile>>>), OutOfMemory> {
    let file = SharedFile::new(rt.alloc())?;
    if value_of(words, "notices").is_none() {
        return Ok((file, None));
    }
    match boxed_notifier_to(rt, &file) {
        Ok(notifier) => Ok((file, Some(notifier))),
        Err(fault) => {
            drop(file);
            Err(fault)
        }
    }
}

/// A notifier that writes to this file, in a box.
fn boxed_notifier_to(
    rt: &HostRuntime,
    file: &SharedFile,
) -> Result<Box<LineNotifier<SharedFile>>, OutOfMemory> {
    let notifier = LineNotifier::over(rt.alloc(), Some(file.share()?));
    match Box::new(rt.alloc(), notifier) {
        Ok(boxed) => Ok(boxed),
        Err(_) => Err(OutOfMemory),
    }
}
