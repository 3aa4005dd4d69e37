ghost use Rattle.std.specs.Prelude.{◌≡◌, ◌≤◌, [], false, List, length, map, MatchResult};
ghost use Rattle.std.specs.List.{All};
ghost use Rattle.dispatch_engine.specs.lanes.Run.{IsReady};
ghost use Rattle.request_book.specs.Consistent.{IsConsistent, IsNode};
ghost use Rattle.request_book.specs.notices.Seen.{notifier_seen};
ghost use Rattle.pool_io.specs.Views.{sink_seen};
ghost use Rattle.dispatch_report.specs.Written.{WritesText};
ghost use Rattle.ridepool.specs.Inputs.{Inputs};
ghost use Rattle.ridepool.specs.Report.{IsWhole};
ghost use Rattle.ridepool.specs.work.Held.{HoldsRounds};
ghost use Rattle.ridepool.specs.work.Reading.{inputs_got};
ghost use Rattle.route_drive.specs.declared.day_run.DayRound.{DayRound as RoundValue};
ghost use Rattle.ridepool.specs.work.Writing.{BeginsRounds, EndsRounds, IsWritingFault, IsReportFault, IsRoundFault, IsUnput, PutsRound, RunsAll, RunsFirst, WritesRound, IsDayFor, IsReportWhole, added_by, added_text, first_text, day_ending, late_status, status_of};

use crate::held_day::{HeldDay, write_held};
use crate::inputs::ReadInputs;
use crate::status::RunStatus;
use crate::ways::ways_by;
use dispatch_engine::{BatchSolver, opened_book, run_round};
use dispatch_report::{
    DayCounts, ReportFault, write_day_end, write_end, write_head, write_load, write_round,
    write_summary,
};
use input_rows::{Round, Script};
use plan_drafts::RelaxationDrafter;
use pool_base::OutOfMemory;
use pool_io::Sink;
use request_book::{Book, Fleet, Notifier, tell_journal};
use rider_limits::{Mode, Settings};
use road_network::Network;
use route_drive::{DayRound, DriveFault, drive_day};
use row_tables::Drafter;
use shared_work::Gate;
use std::alloc::Global;
use std::sync::Wait;
use std::thread::Threads;
use travel_times::Ways;

/// Runs the script, or drives the vehicles through its day, and writes the report, or a made workload's summary;
/// after each round's text its notices are told. Travel times come in the way that the settings
/// name.
///
/// A script is run and written round by round; a day is driven to its end before anything of it is written.
pub(crate) fn write_report<K: Sink, G: Gate>(
    rt: &(impl Threads + Wait + Sync),
    alloc: Global,
    out: &mut K,
    settings: &Settings,
    inputs: &ReadInputs,
    notifiers: &mut Vec<Box<dyn Notifier>>,
    gate: &G,
) -> Result<(), RunStatus>
    requires named { All (λ vehicle. IsNode inputs.now.network.nodes vehicle.node) inputs.now.fleet }
    requires day { IsDayFor settings.now.mode inputs.now.script }
    ensures report { let i = inputs_got settings.now inputs.now in
        let all = map (λ n. notifier_seen (⟦<dyn Notifier as Notifier>⟧ n.vtable) n.value) notifiers.old.items in
        let left = map (λ n. notifier_seen (⟦<dyn Notifier as Notifier>⟧ n.vtable) n.value) notifiers.new.items in
        MatchResult result
        (λ _. IsReportWhole i (K.written out.old) (K.written out.new) all left)
        (IsWritingFault i (K.written out.old) (K.written out.new) all left (K.faults out.old) (K.faults out.new)) }
    ensures never_falls { K.faults out.old ≤ K.faults out.new }
{
    let Ok(ways) = ways_by(alloc, &inputs.network, settings, gate) else {
        return Err(RunStatus::OutOfMemory);
    };
    let solver = BatchSolver {
        network: &inputs.network,
        ways: &ways,
        drafter: &RelaxationDrafter,
        settings,
        gate,
    };
    let written = write_by(
        rt,
        alloc,
        out,
        &inputs.fleet,
        &inputs.script,
        &solver,
        notifiers,
    );
    drop(ways);
    written
}

/// The same, with what its rounds share together.
fn write_by<K: Sink, W: Ways, D: Drafter, G: Gate>(
    rt: &(impl Threads + Wait + Sync),
    alloc: Global,
    out: &mut K,
    fleet: &Fleet,
    script: &Script,
    solver: &BatchSolver<'_, W, D, G>,
    notifiers: &mut Vec<Box<dyn Notifier>>,
) -> Result<(), RunStatus>
    requires named { All (λ vehicle. IsNode solver.now.network.now.nodes vehicle.node) fleet.now }
    requires day { IsDayFor solver.now.settings.now.mode script.now }
    ensures report { let i : Inputs = record { settings = solver.now.settings.now; roads = solver.now.network.now; vehicles = fleet.now; rounds = script.now } in
        let all = map (λ n. notifier_seen (⟦<dyn Notifier as Notifier>⟧ n.vtable) n.value) notifiers.old.items in
        let left = map (λ n. notifier_seen (⟦<dyn Notifier as Notifier>⟧ n.vtable) n.value) notifiers.new.items in
        MatchResult result
        (λ _. IsReportWhole i (K.written out.old) (K.written out.new) all left)
        (IsWritingFault i (K.written out.old) (K.written out.new) all left (K.faults out.old) (K.faults out.new)) }
    ensures never_falls { K.faults out.old ≤ K.faults out.new }
{
    fleet.keeps();
    let Ok(book) = opened_book(alloc, solver.network, fleet, solver.settings.wait) else {
        return Err(RunStatus::OutOfMemory);
    };
    match solver.settings.mode {
        Mode::Drive => {
            let told = !notifiers.is_empty();
            let mut day = HeldDay::empty(alloc, solver.settings, solver.network, told);
            let driven = drive_day(rt, alloc, book, script, solver, &mut day);
            match driven {
                Ok(run) => {
                    let written = write_day(alloc, out, fleet, &day, &run, notifiers);
                    drop(day);
                    written
                }
                Err(fault) => {
                    drop(day);
                    Err(late_status(fault))
                }
            }
        }
        _ => match write_first(alloc, out, solver.settings, solver.network, fleet) {
            Ok(()) => write_each(rt, alloc, out, book, script.rounds(), solver, notifiers),
            Err(fault) => {
                drop(book);
                Err(status_of(fault))
            }
        },
    }
}

/// Writes the report of a day that was driven.
fn write_day<K: Sink>(
    alloc: Global,
    out: &mut K,
    fleet: &Fleet,
    day: &HeldDay<'_>,
    run: &DayCounts,
    notifiers: &mut Vec<Box<dyn Notifier>>,
) -> Result<(), RunStatus>
    requires { day.now.told ≡ false → length notifiers.old.items ≡ 0 }
    ensures report { (made : List RoundValue) → HoldsRounds day.now.settings.now day.now.network.now day.now.told made day.now.rounds.items →
        let s = day.now.settings.now in let roads = day.now.network.now in
        let head = first_text s.mode s roads (length fleet.now) in
        let end = day_ending run.now made in
        let all = map (λ n. notifier_seen (⟦<dyn Notifier as Notifier>⟧ n.vtable) n.value) notifiers.old.items in
        let left = map (λ n. notifier_seen (⟦<dyn Notifier as Notifier>⟧ n.vtable) n.value) notifiers.new.items in
        MatchResult result
        (λ _. IsWhole s roads (added_by s) head (BeginsRounds made) (EndsRounds made end) (K.written out.old) (K.written out.new) all left)
        (IsReportFault s roads head (BeginsRounds made) (EndsRounds made end) (K.written out.old) (K.written out.new) all left (K.faults out.old) (K.faults out.new)) }
    ensures never_falls { K.faults out.old ≤ K.faults out.new }
{
    match write_first(alloc, out, day.settings, day.network, fleet) {
        Ok(()) => write_driven(alloc, out, day, run, notifiers),
        Err(fault) => Err(status_of(fault)),
    }
}

/// Runs each round and writes it, and then the last line.
fn write_each<K: Sink, W: Ways, D: Drafter, G: Gate>(
    rt: &(impl Threads + Wait + Sync),
    alloc: Global,
    out: &mut K,
    book: Book,
    rounds: &[Round],
    solver: &BatchSolver<'_, W, D, G>,
    notifiers: &mut Vec<Box<dyn Notifier>>,
) -> Result<(), RunStatus>
    requires ready { IsReady solver.now.settings.now solver.now.network.now book }
    requires empty { book.entries ≡ [] }
    ensures rounds { let s = solver.now.settings.now in let roads = solver.now.network.now in
        let all = map (λ n. notifier_seen (⟦<dyn Notifier as Notifier>⟧ n.vtable) n.value) notifiers.old.items in
        let left = map (λ n. notifier_seen (⟦<dyn Notifier as Notifier>⟧ n.vtable) n.value) notifiers.new.items in
        MatchResult result
        (λ _. IsWhole s roads (added_by s) [] (RunsFirst s roads book rounds.now) (RunsAll s roads book rounds.now) (K.written out.old) (K.written out.new) all left)
        (IsReportFault s roads [] (RunsFirst s roads book rounds.now) (RunsAll s roads book rounds.now) (K.written out.old) (K.written out.new) all left (K.faults out.old) (K.faults out.new)) }
    ensures never_falls { K.faults out.old ≤ K.faults out.new }
{
    let mut current = book;
    for round in rounds {
        match write_next(rt, alloc, out, current, round, solver, notifiers) {
            Ok(next) => current = next,
            Err(status) => return Err(status),
        }
    }
    let position = current.next_position();
    drop(current);
    match write_end(alloc, out, position) {
        Ok(()) => Ok(()),
        Err(fault) => Err(status_of(fault)),
    }
}

/// Runs a round, puts it out, and gives its journal up.
fn write_next<K: Sink, W: Ways, D: Drafter, G: Gate>(
    rt: &(impl Threads + Wait + Sync),
    alloc: Global,
    out: &mut K,
    book: Book,
    round: &Round,
    solver: &BatchSolver<'_, W, D, G>,
    notifiers: &mut Vec<Box<dyn Notifier>>,
) -> Result<Book, RunStatus>
    requires ready { IsReady solver.now.settings.now solver.now.network.now book }
    requires empty { book.entries ≡ [] }
    ensures round { let all = map (λ n. notifier_seen (⟦<dyn Notifier as Notifier>⟧ n.vtable) n.value) notifiers.old.items in
        let left = map (λ n. notifier_seen (⟦<dyn Notifier as Notifier>⟧ n.vtable) n.value) notifiers.new.items in
        MatchResult result
        (WritesRound solver.now.settings.now solver.now.network.now book round.now (K.written out.old) (K.written out.new) all left)
        (IsRoundFault solver.now.settings.now solver.now.network.now book round.now (K.written out.old) (K.written out.new) all left (K.faults out.old) (K.faults out.new)) }
    ensures never_falls { K.faults out.old ≤ K.faults out.new }
{
    let Ok(mut book) = run_round(rt, alloc, book, round, solver) else {
        return Err(RunStatus::OutOfMemory);
    };
    let Ok(journal) = book.take_round() else {
        drop(book);
        return Err(RunStatus::OutOfMemory);
    };
    let made = DayRound {
        number: round.number(),
        journal,
    };
    let put = put_round(
        alloc,
        out,
        &made,
        solver.settings,
        solver.network,
        notifiers,
    );
    drop(made);
    match put {
        Ok(()) => Ok(book),
        Err(status) => {
            drop(book);
            Err(status)
        }
    }
}

/// Writes the rounds of a day that was driven, and then the last lines.
fn write_driven<K: Sink>(
    alloc: Global,
    out: &mut K,
    day: &HeldDay<'_>,
    run: &DayCounts,
    notifiers: &mut Vec<Box<dyn Notifier>>,
) -> Result<(), RunStatus>
    requires { day.now.told ≡ false → length notifiers.old.items ≡ 0 }
    ensures rounds { (made : List RoundValue) → HoldsRounds day.now.settings.now day.now.network.now day.now.told made day.now.rounds.items →
        let s = day.now.settings.now in let roads = day.now.network.now in
        let end = day_ending run.now made in
        let all = map (λ n. notifier_seen (⟦<dyn Notifier as Notifier>⟧ n.vtable) n.value) notifiers.old.items in
        let left = map (λ n. notifier_seen (⟦<dyn Notifier as Notifier>⟧ n.vtable) n.value) notifiers.new.items in
        MatchResult result
        (λ _. IsWhole s roads (added_by s) [] (BeginsRounds made) (EndsRounds made end) (K.written out.old) (K.written out.new) all left)
        (IsReportFault s roads [] (BeginsRounds made) (EndsRounds made end) (K.written out.old) (K.written out.new) all left (K.faults out.old) (K.faults out.new)) }
    ensures never_falls { K.faults out.old ≤ K.faults out.new }
{
    let position = match write_held(out, day.rounds.as_slice(), notifiers) {
        Ok(position) => position,
        Err(status) => return Err(status),
    };
    match write_day_end(alloc, out, run, position) {
        Ok(()) => Ok(()),
        Err(fault) => Err(status_of(fault)),
    }
}

/// Writes what a round adds, and tells its notices.
fn put_round<K: Sink>(
    alloc: Global,
    out: &mut K,
    made: &DayRound,
    settings: &Settings,
    network: &Network,
    notifiers: &mut Vec<Box<dyn Notifier>>,
) -> Result<(), RunStatus>
    requires { IsConsistent made.now.journal.base }
    ensures round { let all = map (λ n. notifier_seen (⟦<dyn Notifier as Notifier>⟧ n.vtable) n.value) notifiers.old.items in
        let left = map (λ n. notifier_seen (⟦<dyn Notifier as Notifier>⟧ n.vtable) n.value) notifiers.new.items in
        MatchResult result
        (λ _. PutsRound settings.now network.now made.now (K.written out.old) (K.written out.new) all left)
        (IsUnput settings.now network.now made.now (K.written out.old) (K.written out.new) all left (K.faults out.old) (K.faults out.new)) }
    ensures never_falls { K.faults out.old ≤ K.faults out.new }
{
    match write_added(alloc, out, settings, made) {
        Ok(()) => match tell_journal(alloc, notifiers, &made.journal, network, settings.wait) {
            Ok(()) => Ok(()),
            Err(OutOfMemory) => Err(RunStatus::OutOfMemory),
        },
        Err(fault) => Err(status_of(fault)),
    }
}

/// Writes the first lines: the head of a report, or the shape of a made workload.
fn write_first<K: Sink>(
    alloc: Global,
    out: &mut K,
    settings: &Settings,
    network: &Network,
    fleet: &Fleet,
) -> Result<(), ReportFault>
    ensures { WritesText (sink_seen K.written K.faults out.old out.new) (first_text settings.now.mode settings.now network.now (length fleet.now)) result }
{
    match &settings.mode {
        Mode::Load(shape) => write_load(alloc, out, shape),
        _ => write_head(alloc, out, settings, network, fleet),
    }
}

/// Writes what a round adds: its whole text, or of a made workload the lines of its batches.
pub(crate) fn write_added<K: Sink>(
    alloc: Global,
    out: &mut K,
    settings: &Settings,
    made: &DayRound,
) -> Result<(), ReportFault>
    ensures { WritesText (sink_seen K.written K.faults out.old out.new) (added_text settings.now.mode settings.now.proof made.now) result }
{
    match &settings.mode {
        Mode::Load(_) => write_summary(alloc, out, &made.journal),
        _ => write_round(alloc, out, made.number, &made.journal, settings.proof),
    }
}

pub(crate) fn status_of(fault: ReportFault) -> RunStatus
    ensures { result ≡ status_of fault }
{
    match fault {
        ReportFault::WriteFault => RunStatus::WriteFault,
        ReportFault::OutOfMemory => RunStatus::OutOfMemory,
    }
}

/// The end of a call whose day isn't driven to its end.
fn late_status(fault: DriveFault) -> RunStatus
    ensures { result ≡ late_status fault }
{
    match fault {
        DriveFault::TooLate { round } => RunStatus::TooLate { round },
        DriveFault::OutOfMemory => RunStatus::OutOfMemory,
    }
}
