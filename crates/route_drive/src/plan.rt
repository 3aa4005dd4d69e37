//! What is on its way after a round.
ghost use Rattle.std.specs.Prelude.{◌≡◌, ◌==◌, [], None, Some, IfNone, IfOk, IfSome, find, map, option_and_then, option_map};
ghost use Rattle.std.specs.Option.{option_map_or};
ghost use Rattle.request_book.specs.values.Command.{closed_outcome};
ghost use Rattle.route_drive.specs.Driven.{courses_after, left_course, plan_in, planned_course, planned_in};
ghost use Rattle.route_drive.specs.work.Drive.{at_rest};
ghost use Rattle.route_drive.specs.Entering.{to_come};

use crate::course::Course;
use crate::day::first_seal;
use arrayvec::ArrayVec;
use input_rows::Round;
use pool_base::{NodeId, OutOfMemory, RiderId, Second, VehicleId};
use request_book::{
    Answer, BookRider, Command, Entry, Planned, PlannedStop, Reply, State, Vehicle,
};
use std::alloc::Global;

/// At first nothing is on its way.
pub(crate) fn first_courses(alloc: Global, vehicles: &[Vehicle]) -> Result<Vec<Course>, OutOfMemory>
    ensures { IfOk result (λ courses. courses.items ≡ map (λ v. at_rest) vehicles.now) }
{
    let mut courses = Vec::with_capacity(alloc, vehicles.len())?;
    for _vehicle in vehicles {
        courses.push(Course {
            stops: ArrayVec::new(),
            target: None,
        })?;
    }
    Ok(courses)
}

/// What is on its way after a round that leaves this state: what the plan has, or else what the seal left.
pub(crate) fn courses_after(
    alloc: Global,
    state: &State,
    round: &Round,
    entries: &[Entry],
    courses: &[Course],
) -> Result<Vec<Course>, OutOfMemory>
    ensures { IfOk result (λ after. after.items ≡ courses_after state.now round.now entries.now courses.now) }
{
    let seal = first_seal(round.lane(0));
    match plan_in(entries) {
        Some(planned) => planned_courses(alloc, state, planned),
        None => left_courses(alloc, &seal, courses),
    }
}

/// The first plan among entries.
fn plan_in(entries: &[Entry]) -> Option<&Planned>
    ensures some { IfSome result (λ planned. plan_in entries.now ≡ Some planned.now) }
    ensures none { IfNone result (plan_in entries.now ≡ None) }
{
    for entry in entries {
        let planned = plan_of(entry);
        if planned.is_some() {
            return planned;
        }
    }
    None
}

/// The plan with which an entry ended a batch.
fn plan_of(entry: &Entry) -> Option<&Planned>
    ensures some { IfSome result (λ planned. option_and_then (λ closed. planned_in closed.1.answer) (closed_outcome entry.now.command entry.now.reply) ≡ Some planned.now) }
    ensures none { IfNone result (option_and_then (λ closed. planned_in closed.1.answer) (closed_outcome entry.now.command entry.now.reply) ≡ None) }
{
    if !matches!(entry.reply, Reply::Closed) {
        return None;
    }
    match &entry.command {
        Command::Close { outcome, .. } => match &outcome.answer {
            Answer::Planned(planned) => Some(planned),
            Answer::Overflow => None,
        },
        _ => None,
    }
}

fn planned_courses(
    alloc: Global,
    state: &State,
    planned: &Planned,
) -> Result<Vec<Course>, OutOfMemory>
    ensures { IfOk result (λ courses. courses.items ≡ map (planned_course state.now.riders planned.now) state.now.vehicles) }
{
    let mut courses = Vec::with_capacity(alloc, state.vehicles.len())?;
    for vehicle in state.vehicles.as_slice() {
        courses.push(planned_course(state.riders.as_slice(), planned, vehicle))?;
    }
    Ok(courses)
}

/// The stops of a vehicle's chosen trip, and the origin of the rider whom its move names.
fn planned_course(riders: &[BookRider], planned: &Planned, vehicle: &Vehicle) -> Course
    ensures { result ≡ planned_course riders.now planned.now vehicle.now }
{
    Course {
        stops: planned_stops(planned, vehicle.id),
        target: planned_target(riders, planned, vehicle.id),
    }
}

fn planned_stops(planned: &Planned, vehicle: VehicleId) -> ArrayVec<PlannedStop, 22>
    ensures { result ≡ option_map_or (λ trip. trip.stops) (find (λ trip. trip.vehicle == vehicle) planned.now.chosen) (record { items = [] }) }
{
    for trip in planned.chosen.as_slice() {
        if trip.vehicle == vehicle {
            return copied_stops(&trip.stops);
        }
    }
    ArrayVec::new()
}

fn planned_target(riders: &[BookRider], planned: &Planned, vehicle: VehicleId) -> Option<NodeId>
    ensures { result ≡ option_and_then (λ move. option_map (λ r. r.origin) (find (λ r. r.id == move.rider) riders.now)) (find (λ move. move.vehicle == vehicle) planned.now.moves) }
{
    for line in planned.moves.as_slice() {
        if line.vehicle == vehicle {
            return origin_of(riders, line.rider);
        }
    }
    None
}

/// The origin of a rider.
fn origin_of(riders: &[BookRider], rider: RiderId) -> Option<NodeId>
    ensures { result ≡ option_map (λ r. r.origin) (find (λ r. r.id == rider) riders.now) }
{
    for found in riders {
        if found.id == rider {
            return Some(found.origin);
        }
    }
    None
}

fn copied_stops(stops: &ArrayVec<PlannedStop, 22>) -> ArrayVec<PlannedStop, 22>
    ensures { result ≡ stops.now }
{
    let mut copy = ArrayVec::new();
    for stop in stops.as_slice() {
        copy.push(*stop);
    }
    copy
}

/// What a seal leaves on its way, or what was on its way without one.
fn left_courses(
    alloc: Global,
    seal: &Option<Second>,
    courses: &[Course],
) -> Result<Vec<Course>, OutOfMemory>
    ensures { IfOk result (λ left. left.items ≡ map (left_course seal.now) courses.now) }
{
    let mut left = Vec::with_capacity(alloc, courses.len())?;
    for course in courses {
        left.push(left_course(seal, course))?;
    }
    Ok(left)
}

fn left_course(seal: &Option<Second>, course: &Course) -> Course
    ensures { result ≡ left_course seal.now course.now }
{
    match seal {
        None => Course {
            stops: copied_stops(&course.stops),
            target: course.target,
        },
        Some(now) => Course {
            stops: stops_to_come(*now, &course.stops),
            target: course.target,
        },
    }
}

fn stops_to_come(now: Second, stops: &ArrayVec<PlannedStop, 22>) -> ArrayVec<PlannedStop, 22>
    ensures { result.items ≡ to_come now stops.now.items }
{
    let now = now.get() as u64;
    let mut left = ArrayVec::new();
    for stop in stops.as_slice() {
        if now < stop.second {
            left.push(*stop);
        }
    }
    left
}
