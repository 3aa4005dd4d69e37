ghost use Rattle.std.specs.Prelude.{◌≡◌, [], ℕ, None, Some, Err, IfErr, IfOk, length, map};
ghost use Rattle.request_book.specs.Consistent.{IsConsistent};
ghost use Rattle.route_drive.specs.declared.day_run.DriveFault.TheVariants.{OutOfMemory as NoMemory};
ghost use Rattle.dispatch_engine.specs.lanes.Run.{IsReady};
ghost use Rattle.route_drive.specs.Day.{day_fault, seal_of};
ghost use Rattle.route_drive.specs.Entering.{EntersTooLate};
ghost use Rattle.route_drive.specs.declared.entering.Stopped.TheVariants.{TooLate as Late};
ghost use Rattle.route_drive.specs.Driven.{IsDrivenRound, IsLateAnswer, IsNewBook, courses_after};
ghost use Rattle.route_drive.specs.work.Counting.{AddsServed, AreServed};
ghost use Rattle.route_drive.specs.work.Drive.{HasCome, IsCounted, IsLateAt, IsRoundOn, IsStoppedAt, IsTaken, Takes, at_rest};

use crate::counts::{Served, note_entries};
use crate::course::Course;
use crate::day_end::{counted, drive_end};
use crate::day_run::{DayRound, DriveFault};
use crate::entering::Stopped;
use crate::keeper::RoundKeeper;
use crate::plan::{courses_after, first_courses};
use crate::rounds::driven_round;
use dispatch_engine::{BatchSolver, run_round};
use dispatch_report::DayCounts;
use input_rows::{Round, Script};
use pool_base::OutOfMemory;
use request_book::{Book, Journal};
use row_tables::Drafter;
use shared_work::Gate;
use std::alloc::Global;
use std::sync::Wait;
use std::thread::Threads;
use travel_times::Ways;

/// A day under way.
#[derive(Drop)]
pub struct Drive {
    pub book: Book,
    /// What is on its way, by vehicle.
    pub courses: Vec<Course>,
    pub served: Served,
}

/// Drives a day, as `drive_day` says, but for what it keeps.
pub(crate) fn driven_day<W: Ways, D: Drafter, G: Gate, K: RoundKeeper>(
    rt: &(impl Threads + Wait + Sync),
    alloc: Global,
    book: Book,
    day: &Script,
    solver: &BatchSolver<'_, W, D, G>,
    keeper: &mut K,
) -> Result<DayCounts, DriveFault>
    requires new { IsNewBook solver.now.settings.now solver.now.network.now book }
    requires day { day_fault day.now ≡ None }
    requires fresh { K.took keeper.old keeper.old [] }
    ensures run { IfOk result (IsCounted (K.took keeper.old keeper.new) solver.now.settings.now solver.now.network.now book.state day.now) }
    ensures late { IfErr result (IsLateAnswer solver.now.settings.now solver.now.network.now (K.took keeper.old keeper.new) book.state day.now) }
{
    let rounds = day.rounds();
    let drive = match drive_rounds(rt, alloc, book, rounds, solver, keeper) {
        Ok(drive) => drive,
        Err(fault) => return Err(fault),
    };
    match drive_end(rt, alloc, drive, rounds, solver, keeper) {
        Ok(end) => counted(alloc, end, solver.network),
        Err(fault) => Err(fault),
    }
}

/// Drives the rounds of a day. The gate hears how many were driven.
fn drive_rounds<W: Ways, D: Drafter, G: Gate, K: RoundKeeper>(
    rt: &(impl Threads + Wait + Sync),
    alloc: Global,
    book: Book,
    rounds: &[Round],
    solver: &BatchSolver<'_, W, D, G>,
    keeper: &mut K,
) -> Result<Drive, DriveFault>
    requires new { IsNewBook solver.now.settings.now solver.now.network.now book }
    requires fresh { K.took keeper.old keeper.old [] }
    ensures run { IfOk result (HasCome (K.took keeper.old keeper.new) solver.now.settings.now solver.now.network.now book.state rounds.now) }
    ensures late { IfErr result (IsLateAnswer solver.now.settings.now solver.now.network.now (K.took keeper.old keeper.new) book.state rounds.now) }
{
    let mut drive = match start(alloc, book) {
        Ok(drive) => drive,
        Err(_) => return Err(DriveFault::OutOfMemory),
    };
    let mut driven = 0usize;
    for round in rounds {
        solver.gate.driven(driven, rounds.len());
        match drive_round(rt, alloc, drive, round, solver, keeper) {
            Ok(next) => drive = next,
            Err(fault) => {
                solver.gate.driven(rounds.len(), rounds.len());
                return Err(fault);
            }
        }
        driven = driven.saturating_add(1);
    }
    solver.gate.driven(rounds.len(), rounds.len());
    Ok(drive)
}

/// A day before its first round.
fn start(alloc: Global, book: Book) -> Result<Drive, OutOfMemory>
    ensures book { IfOk result (λ drive. drive.book ≡ book) }
    ensures courses { IfOk result (λ drive. drive.courses.items ≡ map (λ v. at_rest) book.state.vehicles) }
    ensures served { IfOk result (λ drive. AreServed [] drive.served) }
{
    match courses_at_rest(alloc, &book) {
        Ok(courses) => Ok(Drive {
            book,
            courses,
            served: Served::nobody(alloc),
        }),
        Err(fault) => {
            drop(book);
            Err(fault)
        }
    }
}

/// Each vehicle of a book at rest.
fn courses_at_rest(alloc: Global, book: &Book) -> Result<Vec<Course>, OutOfMemory>
    ensures { IfOk result (λ courses. courses.items ≡ map (λ v. at_rest) book.now.state.vehicles) }
{
    let state = book.state()?;
    let courses = first_courses(alloc, state.vehicles.as_slice());
    drop(state);
    courses
}

/// Drives a round.
fn drive_round<W: Ways, D: Drafter, G: Gate, K: RoundKeeper>(
    rt: &(impl Threads + Wait + Sync),
    alloc: Global,
    drive: Drive,
    round: &Round,
    solver: &BatchSolver<'_, W, D, G>,
    keeper: &mut K,
) -> Result<Drive, DriveFault>
    requires ready { IsReady solver.now.settings.now solver.now.network.now drive.book }
    requires entries { drive.book.entries ≡ [] }
    requires base { drive.book.base ≡ drive.book.state }
    requires each { length drive.courses.items ≡ length drive.book.state.vehicles }
    ensures run { IfOk result (λ next. (first : K) → IsRoundOn solver.now.settings.now solver.now.network.now round.now drive (K.took first keeper.old) (K.took first keeper.new) next) }
    ensures late { IfErr result (λ fault. (first : K) → IsLateAt round.now.number ((now : ℕ) × (seal_of round.now ≡ Some now) × EntersTooLate solver.now.network.now solver.now.settings.now.dwell now drive.book.state.vehicles drive.courses.items) (K.took first keeper.old) (K.took first keeper.new) fault) }
{
    match driven_of(rt, alloc, solver, &drive, round) {
        Ok(driven) => {
            let next = run_driven(rt, alloc, drive, round, &driven, solver, keeper);
            drop(driven);
            next
        }
        Err(stopped) => {
            drop(drive);
            Err(stopped_at(stopped, round.number()))
        }
    }
}

/// A round as it is driven from where a day has come.
fn driven_of<W: Ways, D: Drafter, G: Gate>(
    rt: &(impl Threads + Sync),
    alloc: Global,
    solver: &BatchSolver<'_, W, D, G>,
    drive: &Drive,
    round: &Round,
) -> Result<Round, Stopped>
    requires same { length drive.now.courses.items ≡ length drive.now.book.state.vehicles }
    ensures driven { IfOk result (λ driven. IsDrivenRound solver.now.settings.now solver.now.network.now drive.now.book.state drive.now.courses.items round.now (record driven { number = round.now.number })) }
    ensures late { result ≡ Err Late → (now : ℕ) × (seal_of round.now ≡ Some now) × EntersTooLate solver.now.network.now solver.now.settings.now.dwell now drive.now.book.state.vehicles drive.now.courses.items }
{
    match drive.book.state() {
        Ok(state) => {
            let driven = driven_round(rt, alloc, solver, &state, drive.courses.as_slice(), round);
            drop(state);
            driven
        }
        Err(_) => Err(Stopped::OutOfMemory),
    }
}

/// Why a day stopped at a round.
pub(crate) fn stopped_at(stopped: Stopped, round: u32) -> DriveFault
    ensures { IsStoppedAt stopped round result }
{
    match stopped {
        Stopped::TooLate => DriveFault::TooLate { round },
        Stopped::OutOfMemory => DriveFault::OutOfMemory,
    }
}

/// Runs a round as it is driven, and leaves the day with one more round.
fn run_driven<W: Ways, D: Drafter, G: Gate, K: RoundKeeper>(
    rt: &(impl Threads + Wait + Sync),
    alloc: Global,
    drive: Drive,
    round: &Round,
    driven: &Round,
    solver: &BatchSolver<'_, W, D, G>,
    keeper: &mut K,
) -> Result<Drive, DriveFault>
    requires ready { IsReady solver.now.settings.now solver.now.network.now drive.book }
    requires entries { drive.book.entries ≡ [] }
    requires base { drive.book.base ≡ drive.book.state }
    requires driven { IsDrivenRound solver.now.settings.now solver.now.network.now drive.book.state drive.courses.items round.now (record driven.now { number = round.now.number }) }
    ensures run { IfOk result (λ next. (first : K) → IsRoundOn solver.now.settings.now solver.now.network.now round.now drive (K.took first keeper.old) (K.took first keeper.new) next) }
    ensures late { IfErr result (λ fault. fault ≡ NoMemory) }
{
    let Drive {
        book,
        courses,
        served,
    } = drive;
    let number = round.number();
    match run_taken(rt, alloc, book, driven, solver) {
        Ok((book, journal)) => match next_courses(alloc, &book, round, &journal, &courses) {
            Ok(next) => {
                drop(courses);
                let drive = Drive {
                    book,
                    courses: next,
                    served,
                };
                with_round(alloc, drive, DayRound { number, journal }, keeper)
            }
            Err(_) => {
                drop(book);
                drop(courses);
                drop(served);
                drop(journal);
                Err(DriveFault::OutOfMemory)
            }
        },
        Err(_) => Err(DriveFault::OutOfMemory),
    }
}

/// Runs a round and takes its journal.
pub(crate) fn run_taken<W: Ways, D: Drafter, G: Gate>(
    rt: &(impl Threads + Wait + Sync),
    alloc: Global,
    book: Book,
    round: &Round,
    solver: &BatchSolver<'_, W, D, G>,
) -> Result<(Book, Journal), OutOfMemory>
    requires ready { IsReady solver.now.settings.now solver.now.network.now book }
    requires entries { book.entries ≡ [] }
    ensures taken { IfOk result (λ taken. IsTaken solver.now.settings.now solver.now.network.now round.now book taken.0 taken.1) }
    ensures consistent { IfOk result (λ taken. IsConsistent taken.1.base) }
{
    match run_round(rt, alloc, book, round, solver) {
        Ok(mut book) => match book.take_round() {
            Ok(journal) => Ok((book, journal)),
            Err(fault) => {
                drop(book);
                Err(fault)
            }
        },
        Err(_) => Err(OutOfMemory),
    }
}

/// What is on its way after a round.
fn next_courses(
    alloc: Global,
    book: &Book,
    round: &Round,
    journal: &Journal,
    courses: &[Course],
) -> Result<Vec<Course>, OutOfMemory>
    ensures { IfOk result (λ after. after.items ≡ courses_after book.now.state round.now journal.now.entries courses.now) }
{
    match book.state() {
        Ok(state) => {
            let after = courses_after(alloc, &state, round, journal.entries.as_slice(), courses);
            drop(state);
            after
        }
        Err(_) => Err(OutOfMemory),
    }
}

/// A day whose last round is noted and handed to the keeper.
pub(crate) fn with_round<K: RoundKeeper>(
    alloc: Global,
    drive: Drive,
    last: DayRound,
    keeper: &mut K,
) -> Result<Drive, DriveFault>
    requires { IsConsistent last.journal.base }
    ensures book { IfOk result (λ next. next.book ≡ drive.book) }
    ensures courses { IfOk result (λ next. next.courses.items ≡ drive.courses.items) }
    ensures served { IfOk result (λ next. AddsServed last.journal.entries drive.served next.served) }
    ensures kept { IfOk result (λ _. (first : K) → Takes (K.took first keeper.old) (K.took first keeper.new) last) }
    ensures late { IfErr result (λ fault. fault ≡ NoMemory) }
{
    let mut drive = drive;
    if note_entries(&mut drive.served, last.journal.entries.as_slice()).is_err() {
        drop(drive);
        drop(last);
        return Err(DriveFault::OutOfMemory);
    }
    match keeper.keep(alloc, last) {
        Ok(()) => Ok(drive),
        Err(_) => {
            drop(drive);
            Err(DriveFault::OutOfMemory)
        }
    }
}
