ghost use Rattle.std.specs.Prelude.{◌≡◌, ◌≢◌, ◌<◌, [], ℕ, All, Err, IfErr, IfOk, List, MatchOption, length};
ghost use Rattle.std.specs.List.{Any};
ghost use Rattle.pool_base.specs.TravelTime.{longest};
ghost use Rattle.request_book.specs.declared.values.journal.Entry.{Entry as EntryValue};
ghost use Rattle.route_drive.specs.declared.day_run.DriveFault.TheVariants.{OutOfMemory as NoMemory};
ghost use Rattle.input_rows.specs.script.Round.{lane_at};
ghost use Rattle.dispatch_engine.specs.lanes.Run.{IsReady};
ghost use Rattle.route_drive.specs.Counts.{AreCounts};
ghost use Rattle.route_drive.specs.Entering.{left_commands, second_of};
ghost use Rattle.route_drive.specs.declared.entering.Stopped.TheVariants.{TooLate as Late};
ghost use Rattle.route_drive.specs.Driven.{number_after};
ghost use Rattle.route_drive.specs.work.Counting.{AreServed};
ghost use Rattle.route_drive.specs.work.Drive.{HasEnded, IsInTime, IsLastOn, IsLateAt};

use crate::counts::counts_of;
use crate::day_run::{DayRound, DriveFault};
use crate::drive::{Drive, run_taken, stopped_at, with_round};
use crate::entering::Stopped;
use crate::keeper::RoundKeeper;
use crate::rounds::last_round;
use dispatch_engine::BatchSolver;
use dispatch_report::DayCounts;
use input_rows::Round;
use road_network::Network;
use row_tables::Drafter;
use shared_work::Gate;
use std::alloc::Global;
use std::sync::Wait;
use std::thread::Threads;
use travel_times::Ways;

/// Drives a day to its end, whose rounds were driven: the stops that are left, unless there was no round.
pub(crate) fn drive_end<W: Ways, D: Drafter, G: Gate, K: RoundKeeper>(
    rt: &(impl Threads + Wait + Sync),
    alloc: Global,
    drive: Drive,
    rounds: &[Round],
    solver: &BatchSolver<'_, W, D, G>,
    keeper: &mut K,
) -> Result<Drive, DriveFault>
    requires ready { IsReady solver.now.settings.now solver.now.network.now drive.book }
    requires entries { drive.book.entries ≡ [] }
    requires each { length drive.courses.items ≡ length drive.book.state.vehicles }
    ensures run { IfOk result (λ next. (first : K) → HasEnded solver.now.settings.now solver.now.network.now rounds.now drive (K.took first keeper.old) (K.took first keeper.new) next) }
    ensures late { IfErr result (λ fault. (first : K) → IsLateAt (number_after rounds.now) (Any (λ c. longest < second_of c) (left_commands drive.book.state.vehicles drive.courses.items)) (K.took first keeper.old) (K.took first keeper.new) fault) }
{
    let Some(number) = number_after(rounds) else {
        return Ok(drive);
    };
    match left_of(alloc, &drive) {
        Ok(left) => {
            let end = run_last(rt, alloc, drive, number, &left, solver, keeper);
            drop(left);
            end
        }
        Err(stopped) => {
            drop(drive);
            Err(stopped_at(stopped, number))
        }
    }
}

/// The number behind that of the last round, if there is one.
fn number_after(rounds: &[Round]) -> Option<u32>
    ensures { MatchOption result (rounds.now ≡ []) (λ number. (0 < length rounds.now) × (number ≡ number_after rounds.now)) }
{
    if rounds.is_empty() {
        return None;
    }
    Some(rounds[rounds.len() - 1].number() + 1)
}

/// The last round of a day.
fn left_of(alloc: Global, drive: &Drive) -> Result<Round, Stopped>
    requires same { length drive.now.courses.items ≡ length drive.now.book.state.vehicles }
    ensures first { IfOk result (λ round. lane_at round 0 ≡ left_commands drive.now.book.state.vehicles drive.now.courses.items) }
    ensures others { IfOk result (λ round. (lane : ℕ) → lane ≢ 0 → lane_at round lane ≡ []) }
    ensures in_time { IfOk result (λ round. All IsInTime (left_commands drive.now.book.state.vehicles drive.now.courses.items)) }
    ensures late { result ≡ Err Late → Any (λ c. longest < second_of c) (left_commands drive.now.book.state.vehicles drive.now.courses.items) }
{
    match drive.book.state() {
        Ok(state) => {
            let round = last_round(alloc, state.vehicles.as_slice(), drive.courses.as_slice());
            drop(state);
            round
        }
        Err(_) => Err(Stopped::OutOfMemory),
    }
}

/// Runs the last round.
fn run_last<W: Ways, D: Drafter, G: Gate, K: RoundKeeper>(
    rt: &(impl Threads + Wait + Sync),
    alloc: Global,
    drive: Drive,
    number: u32,
    left: &Round,
    solver: &BatchSolver<'_, W, D, G>,
    keeper: &mut K,
) -> Result<Drive, DriveFault>
    requires ready { IsReady solver.now.settings.now solver.now.network.now drive.book }
    requires entries { drive.book.entries ≡ [] }
    requires first { lane_at left.now 0 ≡ left_commands drive.book.state.vehicles drive.courses.items }
    requires others { (lane : ℕ) → lane ≢ 0 → lane_at left.now lane ≡ [] }
    requires in_time { All IsInTime (left_commands drive.book.state.vehicles drive.courses.items) }
    ensures run { IfOk result (λ next. (first : K) → IsLastOn solver.now.settings.now solver.now.network.now number drive (K.took first keeper.old) (K.took first keeper.new) next) }
    ensures late { IfErr result (λ fault. fault ≡ NoMemory) }
{
    let Drive {
        book,
        courses,
        served,
    } = drive;
    match run_taken(rt, alloc, book, left, solver) {
        Ok((book, journal)) => {
            let drive = Drive {
                book,
                courses,
                served,
            };
            with_round(alloc, drive, DayRound { number, journal }, keeper)
        }
        Err(_) => Err(DriveFault::OutOfMemory),
    }
}

/// What is counted of a day that was driven to its end.
pub(crate) fn counted(alloc: Global, end: Drive, network: &Network) -> Result<DayCounts, DriveFault>
    requires nodes { end.book.nodes ≡ network.now.nodes }
    ensures counts { IfOk result (λ run. (entries : List EntryValue) → AreServed entries end.served → AreCounts network.now end.book.state.riders entries run) }
    ensures late { IfErr result (λ fault. fault ≡ NoMemory) }
{
    match counts_of(alloc, &end.book, &end.served, network) {
        Ok(run) => {
            drop(end);
            Ok(run)
        }
        Err(_) => {
            drop(end);
            Err(DriveFault::OutOfMemory)
        }
    }
}
