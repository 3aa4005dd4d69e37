ghost use Rattle.std.specs.Prelude.{map};
ghost use Rattle.std.specs.String.{string_bytes};
ghost use Rattle.ridepool.specs.Answers.{Answers};
ghost use Rattle.pool_io.specs.Views.{sink_seen, source_seen};
ghost use Rattle.request_book.specs.notices.Seen.{notifier_seen};

use crate::auditing::write_audit;
use crate::inputs::inputs_from;
use crate::status::RunStatus;
use crate::writing::write_report;
use pool_io::{Sink, Source};
use request_book::Notifier;
use rider_limits::{Mode, read_words};
use shared_work::Gate;
use std::alloc::Global;
use std::sync::Wait;
use std::thread::Threads;

/// Reads the words and the inputs, runs the script or drives the day, and writes the report, or of a made
/// workload its summary; or judges a printed report, and writes whether it is one of a run of the script.
///
/// The words are those behind the program's name: the command and its keys. For `run` and `drive` the inputs
/// are read from the sources and judged in the order network, fleet, script, each to its end, and only then is
/// anything written. For `load` they are made of the shape that the words give, and no source is touched.
///
/// For `drive` the script must be a day. Before each seal the stops that came due are entered, and then where each
/// vehicle is; the report is that of the script with all this, has the day's counts before its last line, and is
/// begun only where the whole day was driven.
///
/// For `audit` the report is read behind the script, and judged with the settings that its second line tells. Where it is
/// the report of a run of the script, one line says so; else the answer is `Report`, with the first fault.
///
/// The gate hears of each piece of growth and of each receipt of a lane.
///
/// A round's text is written as soon as the round was run, and then its notices are told. A notifier that fails is told no
/// more, taken out and dropped, and changes neither report nor status; one that is sure of as many calls as
/// the run has notices is kept.
///
/// `Done` says that the report of a run of the whole script is written, and that each notifier that is left
/// was told exactly the notices of that run. `Words` comes exactly where the
/// words are refused. For `run` and `drive`, `Network`, `Fleet` and `Script` come exactly where that input is
/// refused and the earlier ones pass; `TooLong` exactly where 67,108,865 bytes were taken from that source, of a report
/// 2,147,483,649;
/// `ReadFault` only where that source's count of faults rose. Sources behind the one that is named are
/// untouched, and those before it were read to their ends. For `drive` alone, `Day` comes exactly where the three
/// pass and the script is no day, and `TooLate` exactly where a second above 1,000,000,000 would be entered.
/// `WriteFault` comes only where the sink's count
/// of faults rose. Where nothing of this is so, the answer is `Done` or `OutOfMemory`. After all of these
/// but `WriteFault` nothing is written and nobody was told anything; after `WriteFault` and `OutOfMemory` a
/// beginning of the report of a run of the script's first rounds stands that isn't the whole, and the notices
/// told are those of the rounds that are written whole; without memory, of all of these or of all but the last.
/// Text goes out in pieces of whole lines, one at least for each round.
pub fn ridepool<N: Source, F: Source, S: Source, A: Source, K: Sink, G: Gate>(
    rt: &(impl Threads + Wait + Sync),
    alloc: Global,
    words: &[String],
    network: &mut N,
    fleet: &mut F,
    script: &mut S,
    report: &mut A,
    out: &mut K,
    notifiers: &mut Vec<Box<dyn Notifier>>,
    gate: &G,
) -> RunStatus
    ensures { Answers (record {
      words = map string_bytes words.now;
      sources = record {
        network = source_seen N.left N.taken N.faults network.old network.new;
        fleet = source_seen F.left F.taken F.faults fleet.old fleet.new;
        script = source_seen S.left S.taken S.faults script.old script.new;
        report = source_seen A.left A.taken A.faults report.old report.new;
      };
      out = sink_seen K.written K.faults out.old out.new;
      notifiers = record {
        before = map (λ n. notifier_seen (⟦<dyn Notifier as Notifier>⟧ n.vtable) n.value) notifiers.old.items;
        after = map (λ n. notifier_seen (⟦<dyn Notifier as Notifier>⟧ n.vtable) n.value) notifiers.new.items;
      };
    }) result }
{
    let settings = match read_words(words) {
        Ok(settings) => settings,
        Err(fault) => return RunStatus::Words(fault),
    };
    let inputs = match inputs_from(alloc, &settings, network, fleet, script) {
        Ok(inputs) => inputs,
        Err(status) => return status,
    };
    match settings.mode {
        Mode::Audit => {
            let audited = write_audit(rt, alloc, out, &settings, &inputs, report, gate);
            drop(inputs);
            match audited {
                Ok(()) => RunStatus::Done, // its line stands
                Err(status) => status,
            }
        }
        _ => {
            let written = write_report(rt, alloc, out, &settings, &inputs, notifiers, gate);
            drop(inputs);
            match written {
                Ok(()) => RunStatus::Done, // the whole text stands
                Err(status) => status,
            }
        }
    }
}
