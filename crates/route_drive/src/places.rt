//! Where vehicles are at a seal.
ghost use Rattle.std.specs.Prelude.{◌≡◌, ◌+◌, ◌≤◌, Contains, IfOk, MatchOption, length, nat_lt};
ghost use Rattle.std.specs.List.{AllZip, list_any};
ghost use Rattle.pool_base.specs.TravelTime.{longest};
ghost use Rattle.road_network.specs.Roads.{index_in};
ghost use Rattle.road_network.specs.Walk.{HasNoWalk};
ghost use Rattle.route_drive.specs.Entering.{IsReported, due, goal_of, reached_by, standing_after, to_come};
ghost use Rattle.route_drive.specs.work.Drive.{reported_place};
ghost use Rattle.route_drive.specs.work.Places.{ArePlaced, IsPlaced, heading_of, headings_of};
ghost use Rattle.route_drive.specs.Walk.{IsShortestWalk};

use crate::course::{Course, Heading, NodeAt, Stay};
use crate::walk::{WalkStep, shortest_walk_with};
use pool_base::{NodeId, OutOfMemory, Second};
use rayon::prelude::*;
use request_book::{PlannedStop, Vehicle};
use rider_limits::Settings;
use road_network::Network;
use std::alloc::Global;
use std::thread::Threads;
use travel_times::{Arcs, Search};

/// Where all vehicles are at a seal. The workers share the walks, each of which is a function of the network alone.
pub(crate) fn places_at(
    rt: &(impl Threads + Sync),
    alloc: Global,
    network: &Network,
    settings: &Settings,
    now: Second,
    vehicles: &[Vehicle],
    courses: &[Course],
) -> Result<Vec<NodeAt>, OutOfMemory>
    requires same { length courses.now ≡ length vehicles.now }
    ensures { IfOk result (λ places. ArePlaced network.now settings.now.dwell now vehicles.now courses.now places.items) }
{
    let headings = headings_of(alloc, settings.dwell, now, vehicles, courses)?;
    let arcs = Arcs::of(alloc, network)?;
    walked(rt, alloc, &arcs, now, &headings, settings.workers)
}

/// Where each vehicle stands when its due stops are done, and where it goes from there.
fn headings_of(
    alloc: Global,
    dwell: u16,
    now: Second,
    vehicles: &[Vehicle],
    courses: &[Course],
) -> Result<Vec<Heading>, OutOfMemory>
    requires same { length courses.now ≡ length vehicles.now }
    ensures { IfOk result (λ headings. headings.items ≡ headings_of dwell now vehicles.now courses.now) }
{
    let mut headings = Vec::with_capacity(alloc, vehicles.len())?;
    for k in 0..vehicles.len() {
        let vehicle = &vehicles[k];
        let course = &courses[k];
        headings.push(heading_of(dwell, now, vehicle, course))?;
    }
    Ok(headings)
}

fn heading_of(dwell: u16, now: Second, vehicle: &Vehicle, course: &Course) -> Heading
    ensures { result ≡ heading_of dwell now vehicle.now course.now }
{
    Heading {
        from: standing(dwell, now, vehicle, course.stops.as_slice()),
        goal: next_goal(now, course),
    }
}

/// Where each vehicle is that heads so. No more threads than workers walk at a time, each with one room for its searches.
fn walked(
    rt: &(impl Threads + Sync),
    alloc: Global,
    arcs: &Arcs<'_>,
    now: Second,
    headings: &[Heading],
    workers: u8,
) -> Result<Vec<NodeAt>, OutOfMemory>
    requires some { 1 ≤ workers }
    ensures { IfOk result (λ places. AllZip (IsPlaced arcs.now.network.now now) headings.now places.items) }
{
    let least = headings.len() / workers as usize;
    let places = headings
        .par_iter()
        .with_min_len(least)
        .map_init(
            || Search::new(alloc).ok(),
            |search: &mut Option<Search>, heading: &Heading| -> Result<NodeAt, OutOfMemory>
                ensures { IfOk result (λ there. IsPlaced arcs.entry.now.network.now now heading.entry.now there) }
            { place_of(search, arcs, now, heading) },
        )
        .collect::<Result<Vec<NodeAt>, OutOfMemory>>(rt, alloc);
    match places {
        Ok(places) => places,
        Err(_) => Err(OutOfMemory),
    }
}

/// Where a vehicle is that heads so, if there is room for a search.
fn place_of(
    search: &mut Option<Search>,
    arcs: &Arcs<'_>,
    now: Second,
    heading: &Heading,
) -> Result<NodeAt, OutOfMemory>
    ensures { IfOk result (λ there. IsPlaced arcs.now.network.now now heading.now there) }
{
    match search {
        Some(search) => reported(search, arcs, now, heading.from, heading.goal),
        None => Err(OutOfMemory),
    }
}

/// Where a vehicle is after the stops that are due.
fn standing(dwell: u16, now: Second, vehicle: &Vehicle, stops: &[PlannedStop]) -> Stay
    ensures after { result ≡ standing_after dwell (reported_place vehicle.now) (due now stops.now) }
    ensures short { result.free ≤ longest + dwell }
{
    let time = vehicle.time.get() as u64;
    let mut at = Stay {
        node: vehicle.node,
        second: time,
        free: time,
    };
    let now = now.get() as u64;
    for stop in stops {
        if stop.second <= now {
            at = Stay {
                node: stop.node,
                second: stop.second,
                free: stop.second + dwell as u64,
            };
        }
    }
    at
}

/// Where a vehicle goes: to its next stop, or else where its move leads.
fn next_goal(now: Second, course: &Course) -> Option<NodeId>
    ensures { result ≡ goal_of course.now.target (to_come now course.now.stops.items) }
{
    let now = now.get() as u64;
    for stop in course.stops.as_slice() {
        if now < stop.second {
            return Some(stop.node);
        }
    }
    course.target
}

/// A shortest walk, where both are nodes of the network.
fn walk_between(
    search: &mut Search,
    arcs: &Arcs<'_>,
    from: NodeId,
    to: NodeId,
) -> Result<Option<Vec<WalkStep>>, OutOfMemory>
    ensures { IfOk result (λ walk. MatchOption walk
        (Contains arcs.now.network.now.nodes from → Contains arcs.now.network.now.nodes to → HasNoWalk arcs.now.network.now.arcs (index_in arcs.now.network.now.nodes from) (index_in arcs.now.network.now.nodes to))
        (λ steps. IsShortestWalk arcs.now.network.now from to steps.items)) }
{
    if arcs.network.has_node(from) && arcs.network.has_node(to) {
        shortest_walk_with(search, arcs, from, to)
    } else {
        Ok(None)
    }
}

/// Where a vehicle is reported.
fn reported(
    search: &mut Search,
    arcs: &Arcs<'_>,
    now: Second,
    at: Stay,
    goal: Option<NodeId>,
) -> Result<NodeAt, OutOfMemory>
    ensures { IfOk result (IsReported arcs.now.network.now now at goal) }
{
    let now = now.get() as u64;
    let rest = NodeAt {
        node: at.node,
        second: now.max(at.free),
    };
    if now < at.free {
        return Ok(rest);
    }
    let Some(to) = goal else {
        return Ok(rest);
    };
    let Some(steps) = walk_between(search, arcs, at.node, to)? else {
        return Ok(rest);
    };
    Ok(reached_by(now, at, &steps))
}

/// Where a vehicle is that leaves here on these steps.
fn reached_by(now: u64, at: Stay, steps: &[WalkStep]) -> NodeAt
    requires free { at.free ≤ now }
    requires now { now ≤ longest }
    ensures { result ≡ reached_by now at.free at.node steps.now }
{
    let is_under_way = has_later(now, at.free, steps);
    let mut node = at.node;
    for step in steps {
        let second = at.free + step.seconds as u64;
        if is_under_way && now <= second {
            return NodeAt {
                node: step.node,
                second,
            };
        }
        node = step.node;
    }
    NodeAt { node, second: now }
}

/// Whether some step is reached later than now.
fn has_later(now: u64, free: u64, steps: &[WalkStep]) -> bool
    requires free { free ≤ now }
    requires now { now ≤ longest }
    ensures { result ≡ list_any (λ step. nat_lt now (free + step.seconds)) steps.now }
{
    for step in steps {
        if now < free + step.seconds as u64 {
            return true;
        }
    }
    false
}
