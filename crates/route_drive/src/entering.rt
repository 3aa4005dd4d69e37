//! What is entered before a seal.
ghost use Rattle.std.specs.Prelude.{◌≡◌, ◌<◌, ◌≤◌, ◌++◌, ◌∷◌, [], List, Err, All, OnOk, length, map};
ghost use Rattle.std.specs.List.{Any};
ghost use Rattle.pool_base.specs.TravelTime.{longest};
ghost use Rattle.request_book.specs.declared.values.command.Command.{Command};
ghost use Rattle.route_drive.specs.Entering.{AreEntered, EntersTooLate, due, stop_command};
ghost use Rattle.route_drive.specs.declared.entering.Stopped.TheVariants.{TooLate as Late};
ghost use Rattle.route_drive.specs.work.Drive.{IsInTime};
ghost use Rattle.route_drive.specs.work.Places.{told_by, told_of};
ghost use Rattle.route_drive.specs.work.Rounds.{Adds};
ghost use Rattle.input_rows.specs.script.Round.{MayStand};

use crate::course::{Course, NodeAt};
use crate::places::places_at;
use dispatch_engine::BatchSolver;
use input_rows::Round;
use pool_base::{NodeId, OutOfMemory, Second, VehicleId};
use request_book::{Command, PlannedStop, Vehicle};
use row_tables::Drafter;
use shared_work::Gate;
use std::alloc::Global;
use std::thread::Threads;
use travel_times::Ways;

/// Why entering stopped.
#[derive(Drop)]
pub enum Stopped {
    /// A second is above 1,000,000,000.
    TooLate,
    OutOfMemory,
}

/// Puts a command at the end of lane 0.
pub(crate) fn put(round: &mut Round, lane: u8, command: Command) -> Result<(), OutOfMemory>
    requires lane { lane < 16 }
    requires stands { MayStand lane command }
    requires sixteen { length round.old.lanes ≡ 16 }
    ensures { OnOk result (Adds lane (command ∷ []) round.old round.new) }
{
    match round.add(lane, command) {
        Ok(()) => Ok(()),
        Err(_) => Err(OutOfMemory),
    }
}

/// Enters the stops that are due.
fn enter_due(
    round: &mut Round,
    vehicle: VehicleId,
    now: Second,
    stops: &[PlannedStop],
) -> Result<(), OutOfMemory>
    requires sixteen { length round.old.lanes ≡ 16 }
    ensures entered { OnOk result (Adds 0 (map (stop_command vehicle) (due now stops.now)) round.old round.new) }
    ensures in_time { now ≤ longest }
{
    let latest = now.get() as u64;
    for stop in stops {
        if stop.second <= latest {
            let time = Second::new(stop.second).unwrap();
            put(round, 0, command_of(vehicle, stop, time))?;
        }
    }
    Ok(())
}

/// A stop as a command.
pub(crate) fn command_of(vehicle: VehicleId, stop: &PlannedStop, time: Second) -> Command
    requires { time ≡ stop.now.second }
    ensures value { result ≡ stop_command vehicle stop.now }
    ensures stands { MayStand 0 result }
{
    let rider = stop.rider;
    if stop.pick {
        Command::Pickup {
            vehicle,
            rider,
            time,
        }
    } else {
        Command::Dropoff {
            vehicle,
            rider,
            time,
        }
    }
}

/// Enters the stops of a vehicle that are due, and where it is then.
fn enter_vehicle(
    round: &mut Round,
    now: Second,
    vehicle: VehicleId,
    course: &Course,
    there: NodeAt,
) -> Result<(), Stopped>
    requires sixteen { length round.old.lanes ≡ 16 }
    ensures entered { OnOk result (Adds 0 (told_of now vehicle course.now there) round.old round.new) }
    ensures in_time { OnOk result (All IsInTime (told_of now vehicle course.now there)) }
    ensures late { result ≡ Err Late → longest < there.second }
{
    let Some(time) = Second::new(there.second) else {
        return Err(Stopped::TooLate);
    };
    match enter_commands(
        round,
        vehicle,
        now,
        course.stops.as_slice(),
        there.node,
        time,
    ) {
        Ok(()) => Ok(()),
        Err(_) => Err(Stopped::OutOfMemory),
    }
}

/// Enters the stops that are due, and that the vehicle is at a node.
fn enter_commands(
    round: &mut Round,
    vehicle: VehicleId,
    now: Second,
    stops: &[PlannedStop],
    node: NodeId,
    time: Second,
) -> Result<(), OutOfMemory>
    requires sixteen { length round.old.lanes ≡ 16 }
    ensures entered { OnOk result (Adds 0 (map (stop_command vehicle) (due now stops.now) ++ Command.Report vehicle node time ∷ []) round.old round.new) }
    ensures in_time { now ≤ longest }
{
    enter_due(round, vehicle, now, stops)?;
    let report = Command::Report {
        vehicle,
        node,
        time,
    };
    put(round, 0, report)
}

/// Enters what is due of all vehicles, and where they are then.
fn enter_places(
    round: &mut Round,
    now: Second,
    vehicles: &[Vehicle],
    courses: &[Course],
    places: &[NodeAt],
) -> Result<(), Stopped>
    requires sixteen { length round.old.lanes ≡ 16 }
    requires same { length courses.now ≡ length vehicles.now }
    requires each { length places.now ≡ length vehicles.now }
    ensures entered { OnOk result (Adds 0 (told_by now vehicles.now courses.now places.now) round.old round.new) }
    ensures in_time { OnOk result (All IsInTime (told_by now vehicles.now courses.now places.now)) }
    ensures late { result ≡ Err Late → Any (λ there. longest < there.second) places.now }
{
    for k in 0..vehicles.len() {
        let vehicle = &vehicles[k];
        let course = &courses[k];
        let there = places[k];
        match enter_vehicle(round, now, vehicle.id, course, there) {
            Ok(()) => {}
            Err(stopped) => return Err(stopped),
        }
    }
    Ok(())
}

/// The same, where the workers find out where the vehicles are.
pub(crate) fn enter_all<W: Ways, D: Drafter, G: Gate>(
    rt: &(impl Threads + Sync),
    alloc: Global,
    round: &mut Round,
    solver: &BatchSolver<'_, W, D, G>,
    now: Second,
    vehicles: &[Vehicle],
    courses: &[Course],
) -> Result<(), Stopped>
    requires sixteen { length round.old.lanes ≡ 16 }
    requires same { length courses.now ≡ length vehicles.now }
    ensures entered { OnOk result ((entered : List Command) × AreEntered solver.now.network.now solver.now.settings.now.dwell now vehicles.now courses.now entered × All IsInTime entered × Adds 0 entered round.old round.new) }
    ensures late { result ≡ Err Late → EntersTooLate solver.now.network.now solver.now.settings.now.dwell now vehicles.now courses.now }
{
    let network = solver.network;
    let settings = solver.settings;
    match places_at(rt, alloc, network, settings, now, vehicles, courses) {
        Ok(places) => enter_places(round, now, vehicles, courses, &places),
        Err(_) => Err(Stopped::OutOfMemory),
    }
}
