use crate::live::session::{Opened, close, rows_given};
use crate::named::source_of;
use crate::relay::{GivingUp, Relayed};
use crate::terminal_of;
use crate::watched_gate::WatchedGate;
use pool_base::OutOfMemory;
use pool_io::StdSource;
use ridepool::{RunStatus, resume};
use rider_limits::read_resume;
use std::sync::Wait;
use std::thread::Threads;

/// Goes on with a day behind what its report keeps, with rows from standard input or from the file that the words name.
/// Faulty words touch no file.
pub(crate) fn run_resume(
    rt: &HostRuntime,
    threads: &(impl Threads + Wait + Copy + Send + Sync + 'static),
    words: &[String],
) -> RunStatus {
    let named: &[String] = if read_resume(words).is_ok() {
        words
    } else {
        &[]
    };
    match rows_given(rt, threads, named) {
        Ok((script, giving)) => resume_from(rt, threads, words, named, script, giving),
        Err(OutOfMemory) => RunStatus::OutOfMemory,
    }
}

/// Runs the rows of this source behind the day.
fn resume_from<R: Threads + Wait + Copy + Send + Sync + 'static>(
    rt: &HostRuntime,
    threads: &R,
    words: &[String],
    named: &[String],
    script: StdSource<Relayed<R>>,
    giving: GivingUp<R>,
) -> RunStatus {
    let Ok(opened) = Opened::by(rt, named, &giving) else {
        return RunStatus::OutOfMemory;
    };
    let Opened {
        sink,
        told,
        notifiers,
        listener,
    } = opened;
    let given = notifiers.len();
    let ended = resume(
        threads,
        rt.alloc(),
        words,
        &mut source_of(rt, named, "network"),
        &mut source_of(rt, named, "fleet"),
        &mut source_of(rt, named, "report"),
        script,
        sink,
        notifiers,
        &WatchedGate::giving(rt.alloc(), terminal_of(rt), Some(giving)),
        listener,
    );
    close(rt, ended, given, &told)
}
