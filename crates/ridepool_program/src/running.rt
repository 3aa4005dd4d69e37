//! One call on files that are there before it begins.

use crate::named::Inputs;
use crate::notices::opening_sink::{OpeningSink, SharedFile};
use crate::notices::{notices_path, shared_file, tell_lost};
use crate::terminal_of;
use crate::watched_gate::WatchedGate;
use crate::watched_sink::WatchedSink;
use pool_base::OutOfMemory;
use pool_io::StdSink;
use request_book::Notifier;
use ridepool::{LineNotifier, RunStatus, ridepool};
use rider_limits::read_words;
use std::sync::Wait;
use std::thread::Threads;

/// Runs the words on the files that they name, with standard output as the sink. Faulty words touch no file.
pub(crate) fn run<R: Threads + Wait + Copy + Sync>(
    rt: &HostRuntime,
    threads: &R,
    words: &[String],
) -> RunStatus {
    let named = named_by(words);
    let path = notices_path(rt, named);
    let Ok(opened) = Opened::by(rt, named) else {
        return RunStatus::OutOfMemory;
    };
    let Opened {
        mut inputs,
        file,
        told,
        notifier,
    } = opened;
    let Ok(mut notifiers) = Vec::<Box<dyn Notifier>>::with_capacity(rt.alloc(), 1) else {
        return RunStatus::OutOfMemory;
    };
    if let Some(notifier) = notifier {
        notifiers.push_reserved(notifier);
    }
    let given = notifiers.len();
    let sink = OpeningSink::over(rt, StdSink::over(rt.stdout()), path, file);
    let mut sink = WatchedSink::over(rt.alloc(), sink, terminal_of(rt));
    let status = ridepool(
        threads,
        rt.alloc(),
        words,
        &mut inputs.network,
        &mut inputs.fleet,
        &mut inputs.script,
        &mut inputs.report,
        &mut sink,
        &mut notifiers,
        &WatchedGate::<R>::over(rt.alloc(), terminal_of(rt)),
    );
    sink.clear();
    drop(sink);
    drop(inputs);
    let is_lost = notifiers.len() < given;
    drop(notifiers);
    tell_lost(rt, is_lost, &told);
    status
}

/// What a call opens before it begins.
#[derive(Drop)]
struct Opened {
    inputs: Inputs,
    file: SharedFile,
    /// The same file, to ask whether it could be opened.
    told: SharedFile,
    notifier: Option<Box<LineNotifier<SharedFile>>>,
}

impl Opened {
    /// What these words name.
    fn by(rt: &HostRuntime, named: &[String]) -> Result<Opened, OutOfMemory> {
        let inputs = Inputs::named(rt, named)?;
        let (file, notifier) = shared_file(rt, named)?;
        let told = file.share()?;
        Ok(Opened {
            inputs,
            file,
            told,
            notifier,
        })
    }
}

/// The words, where they are accepted; else none.
fn named_by(words: &[String]) -> &[String] {
    if read_words(words).is_ok() {
        words
    } else {
        &[]
    }
}
