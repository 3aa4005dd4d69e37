//! The rounds of the driven script, as they are run.
ghost use Rattle.std.specs.Prelude.{◌≡◌, ◌≢◌, ◌<◌, ◌++◌, ℕ, [], Err, Some, All, IfOk, OnOk, length, map};
ghost use Rattle.std.specs.List.{Any};
ghost use Rattle.pool_base.specs.TravelTime.{longest};
ghost use Rattle.route_drive.specs.Day.{seal_of};
ghost use Rattle.route_drive.specs.Driven.{IsDrivenRound};
ghost use Rattle.route_drive.specs.Entering.{EntersTooLate, left_commands, second_of, stop_command};
ghost use Rattle.route_drive.specs.declared.entering.Stopped.TheVariants.{TooLate as Late};
ghost use Rattle.route_drive.specs.work.Drive.{IsInTime};
ghost use Rattle.route_drive.specs.work.Rounds.{Adds};
ghost use Rattle.input_rows.specs.script.Round.{MayStand, lane_at};

use crate::course::Course;
use crate::day::first_seal;
use crate::entering::{Stopped, command_of, enter_all, put};
use dispatch_engine::BatchSolver;
use input_rows::Round;
use pool_base::{OutOfMemory, Second, VehicleId};
use request_book::{Command, PlannedStop, State, Vehicle};
use row_tables::Drafter;
use shared_work::Gate;
use std::alloc::Global;
use std::thread::Threads;
use travel_times::Ways;

/// A round of a day as it is driven from a state: where it has a seal, all vehicles are entered before it.
pub(crate) fn driven_round<W: Ways, D: Drafter, G: Gate>(
    rt: &(impl Threads + Sync),
    alloc: Global,
    solver: &BatchSolver<'_, W, D, G>,
    state: &State,
    courses: &[Course],
    round: &Round,
) -> Result<Round, Stopped>
    requires same { length courses.now ≡ length state.now.vehicles }
    ensures driven { IfOk result (λ driven. IsDrivenRound solver.now.settings.now solver.now.network.now state.now courses.now round.now (record driven { number = round.now.number })) }
    ensures late { result ≡ Err Late → (now : ℕ) × (seal_of round.now ≡ Some now) × EntersTooLate solver.now.network.now solver.now.settings.now.dwell now state.now.vehicles courses.now }
{
    let Ok(mut driven) = Round::new(alloc, 0) else {
        return Err(Stopped::OutOfMemory);
    };
    if let Some(now) = first_seal(round.lane(0)) {
        let vehicles = state.vehicles.as_slice();
        match enter_all(rt, alloc, &mut driven, solver, now, vehicles, courses) {
            Ok(()) => {}
            Err(stopped) => {
                drop(driven);
                return Err(stopped);
            }
        }
    }
    match copy_lanes(&mut driven, round) {
        Ok(()) => Ok(driven),
        Err(_) => {
            drop(driven);
            Err(Stopped::OutOfMemory)
        }
    }
}

/// Puts a round's commands behind those that stand, lane by lane.
fn copy_lanes(driven: &mut Round, round: &Round) -> Result<(), OutOfMemory>
    requires sixteen { length driven.old.lanes ≡ 16 }
    ensures { OnOk result ((k : ℕ) → lane_at driven.new k ≡ lane_at driven.old k ++ lane_at round.now k) }
{
    round.keeps();
    for lane in 0..16u8 {
        copy_lane(driven, lane, round.lane(lane as usize))?;
    }
    Ok(())
}

fn copy_lane(driven: &mut Round, lane: u8, commands: &[Command]) -> Result<(), OutOfMemory>
    requires sixteen { length driven.old.lanes ≡ 16 }
    requires lane { lane < 16 }
    requires stand { All (MayStand lane) commands.now }
    ensures { OnOk result (Adds lane commands.now driven.old driven.new) }
{
    for command in commands {
        put(driven, lane, command.copied())?;
    }
    Ok(())
}

/// The last round of a day, of the stops that are left.
pub(crate) fn last_round(
    alloc: Global,
    vehicles: &[Vehicle],
    courses: &[Course],
) -> Result<Round, Stopped>
    requires same { length courses.now ≡ length vehicles.now }
    ensures first { IfOk result (λ round. lane_at round 0 ≡ left_commands vehicles.now courses.now) }
    ensures others { IfOk result (λ round. (lane : ℕ) → lane ≢ 0 → lane_at round lane ≡ []) }
    ensures in_time { IfOk result (λ round. All IsInTime (left_commands vehicles.now courses.now)) }
    ensures late { result ≡ Err Late → Any (λ c. longest < second_of c) (left_commands vehicles.now courses.now) }
{
    let Ok(mut round) = Round::new(alloc, 0) else {
        return Err(Stopped::OutOfMemory);
    };
    for k in 0..vehicles.len() {
        let vehicle = &vehicles[k];
        let course = &courses[k];
        match enter_left(&mut round, vehicle.id, course.stops.as_slice()) {
            Ok(()) => {}
            Err(stopped) => {
                drop(round);
                return Err(stopped);
            }
        }
    }
    Ok(round)
}

/// Enters all stops of a vehicle.
fn enter_left(round: &mut Round, vehicle: VehicleId, stops: &[PlannedStop]) -> Result<(), Stopped>
    requires sixteen { length round.old.lanes ≡ 16 }
    ensures entered { OnOk result (Adds 0 (map (stop_command vehicle) stops.now) round.old round.new) }
    ensures in_time { OnOk result (All IsInTime (map (stop_command vehicle) stops.now)) }
    ensures late { result ≡ Err Late → Any (λ c. longest < second_of c) (map (stop_command vehicle) stops.now) }
{
    for stop in stops {
        let Some(time) = Second::new(stop.second) else {
            return Err(Stopped::TooLate);
        };
        match put(round, 0, command_of(vehicle, stop, time)) {
            Ok(()) => {}
            Err(_) => return Err(Stopped::OutOfMemory),
        }
    }
    Ok(())
}
