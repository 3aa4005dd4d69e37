ghost use Rattle.std.specs.Prelude.{◌≡◌, ◌≤◌, All, IfOk, IfErr, MatchResult};
ghost use Rattle.std.specs.Io.KnownBytes.{Appends};
ghost use Rattle.request_book.specs.Consistent.{IsNode};
ghost use Rattle.ridepool.specs.Audit.{yes_text};
ghost use Rattle.ridepool.specs.work.Ended.{IsRunReport};
ghost use Rattle.pool_io.specs.Views.{source_seen};
ghost use Rattle.ridepool.specs.work.Auditing.{IsAuditFault, RefusesBytes, WritesYes};
ghost use Rattle.ridepool.specs.work.Reading.{inputs_got};
ghost use Rattle.ridepool.specs.work.Writing.{IsTextFault};

use crate::inputs::ReadInputs;
use crate::phrase::{Phrase, put_phrase};
use crate::reading::read_input;
use crate::status::RunStatus;
use pool_base::{OutOfMemory, Which, put_bytes};
use pool_io::{Sink, Source, WriteAll, write_all};
use report_audit::{AuditFault, Audited, audit};
use rider_limits::Settings;
use shared_work::Gate;
use std::alloc::Global;
use std::thread::Threads;

/// Reads a printed report and judges it, and where it is one of a run of the script, writes the line that says so.
pub(crate) fn write_audit<A: Source, K: Sink, G: Gate>(
    rt: &(impl Threads + Sync),
    alloc: Global,
    out: &mut K,
    settings: &Settings,
    inputs: &ReadInputs,
    report: &mut A,
    gate: &G,
) -> Result<(), RunStatus>
    requires { All (λ vehicle. IsNode inputs.now.network.nodes vehicle.node) inputs.now.fleet }
    ensures audited { let i = inputs_got settings.now inputs.now in
        let seen = source_seen A.left A.taken A.faults report.old report.new in
        MatchResult result
        (λ _. WritesYes i seen (K.written out.old) (K.written out.new))
        (IsAuditFault i seen (K.written out.old) (K.written out.new) (K.faults out.old) (K.faults out.new)) }
    ensures never_falls { K.faults out.old ≤ K.faults out.new }
{
    let bytes = match read_input(alloc, report, Which::Report) {
        Ok(bytes) => bytes,
        Err(status) => return Err(status),
    };
    match judge_report(rt, alloc, settings, inputs, &bytes, gate) {
        Ok(audited) => write_yes(alloc, out, &audited),
        Err(status) => Err(status),
    }
}

/// The counts of a report of a run.
fn judge_report<G: Gate>(
    rt: &(impl Threads + Sync),
    alloc: Global,
    settings: &Settings,
    inputs: &ReadInputs,
    bytes: &[u8],
    gate: &G,
) -> Result<Audited, RunStatus>
    requires { All (λ vehicle. IsNode inputs.now.network.nodes vehicle.node) inputs.now.fleet }
    ensures yes { IfOk result (IsRunReport (inputs_got settings.now inputs.now) bytes.now) }
    ensures no { IfErr result (RefusesBytes (inputs_got settings.now inputs.now) bytes.now) }
{
    let audited = audit(
        rt,
        alloc,
        bytes,
        &inputs.network,
        &inputs.fleet,
        &inputs.script,
        settings.workers,
        gate,
    );
    match audited {
        Ok(audited) => Ok(audited),
        Err(AuditFault::OutOfMemory) => Err(RunStatus::OutOfMemory),
        Err(fault) => Err(RunStatus::Report(fault)),
    }
}

/// Writes the line that says yes.
fn write_yes<K: Sink>(alloc: Global, out: &mut K, audited: &Audited) -> Result<(), RunStatus>
    ensures text { MatchResult result (λ _. Appends (K.written out.old) (K.written out.new) (yes_text audited.now))
        (IsTextFault (yes_text audited.now) (K.written out.old) (K.written out.new) (K.faults out.old) (K.faults out.new)) }
    ensures never_falls { K.faults out.old ≤ K.faults out.new }
{
    let Ok(line) = yes_line(alloc, audited) else {
        return Err(RunStatus::OutOfMemory);
    };
    match write_all(out, &line) {
        Ok(()) => Ok(()),
        Err(WriteAll::WriteFault) => Err(RunStatus::WriteFault),
        Err(WriteAll::OutOfMemory) => Err(RunStatus::OutOfMemory),
    }
}

#[tactic(auto, unfolding(crate::specs::Audit::yes_text, dispatch_report::specs::Lines::lines_text))]
fn yes_line(alloc: Global, audited: &Audited) -> Result<Vec<u8>, OutOfMemory>
    ensures { IfOk result (λ line. line.items ≡ yes_text audited.now) }
{
    let mut line = Vec::new(alloc);
    let counts = Phrase::Both(
        b"audit ok entries ",
        audited.entries,
        b" batches ",
        audited.batches,
    );
    put_phrase(&mut line, counts)?;
    put_bytes(&mut line, b"\n")?;
    Ok(line)
}
