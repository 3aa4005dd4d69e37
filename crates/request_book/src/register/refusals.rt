//! The refusals of the book, one function each, as the step table tells them.

ghost use Rattle.std.specs.Prelude.{◌≡◌, ◌+◌, ◌<◌, ◌≤◌, ◌*◌, Option, Some, None, nat_le, length, sum_by, IfNone, if◌then◌else◌};
ghost use Rattle.request_book.specs.values.Vehicle.{persons_aboard};
ghost use Rattle.request_book.specs.lemmas.register.Refusals.{first_of, duplicate_rider, unknown_node, same_place, aboard_refusal, ended_refusal, promise_refusal, seat_refusal, time_back, vehicle_full, batch_open, clock_back, not_this_batch};

use crate::values::passenger::Passenger;
use crate::values::reply::BookRefusal;
use crate::values::rider::{BookRider, Status};
use crate::values::snapshot::Snapshot;
use crate::values::vehicle::Vehicle;
use pool_base::{NodeId, Numbering, Party, Second, VehicleId};

/// How many riders may wait or have a promise.
pub(crate) const POOL: usize = 1_000;

/// How many riders a book may have.
pub(crate) const RIDERS: usize = 100_000;

/// The first refusal of those that hold.
pub(crate) fn first_of(refusals: &[Option<BookRefusal>]) -> Option<BookRefusal>
    ensures { result ≡ first_of refusals.now }
{
    for refusal in refusals {
        if refusal.is_some() {
            return *refusal;
        }
    }
    None
}

pub(crate) fn duplicate_rider(found: Option<BookRider>) -> Option<BookRefusal>
    ensures { result ≡ duplicate_rider found }
{
    match found {
        Some(_) => Some(BookRefusal::DuplicateRider),
        None => None,
    }
}

pub(crate) fn unknown_node(nodes: &Numbering, node: NodeId) -> Option<BookRefusal>
    ensures { result ≡ unknown_node nodes.now.names node }
{
    if nodes.number_of(node.get()).is_some() {
        None
    } else {
        Some(BookRefusal::UnknownNode)
    }
}

pub(crate) fn same_place(origin: NodeId, destination: NodeId) -> Option<BookRefusal>
    ensures { result ≡ same_place origin destination }
{
    if origin == destination {
        Some(BookRefusal::SamePlace)
    } else {
        None
    }
}

pub(crate) fn pool_full(pool: usize) -> Option<BookRefusal>
    ensures { result ≡ (if nat_le 1000 pool then Some BookRefusal.PoolFull else None) }
{
    if pool >= POOL {
        Some(BookRefusal::PoolFull)
    } else {
        None
    }
}

pub(crate) fn book_full(riders: usize) -> Option<BookRefusal>
    ensures { result ≡ (if nat_le 100000 riders then Some BookRefusal.BookFull else None) }
{
    if riders >= RIDERS {
        Some(BookRefusal::BookFull)
    } else {
        None
    }
}

pub(crate) fn is_aboard(status: Status) -> Option<BookRefusal>
    ensures { result ≡ aboard_refusal status }
{
    match status {
        Status::Aboard(vehicle) => Some(BookRefusal::IsAboard { vehicle }),
        _ => None,
    }
}

pub(crate) fn has_ended(status: Status) -> Option<BookRefusal>
    ensures { result ≡ ended_refusal status }
{
    match status {
        Status::Cancelled | Status::Delivered | Status::Expired => {
            Some(BookRefusal::Ended { status })
        }
        Status::Waiting | Status::Promised(_) | Status::Aboard(_) => None,
    }
}

pub(crate) fn not_promised(status: Status, vehicle: VehicleId) -> Option<BookRefusal>
    ensures { result ≡ promise_refusal vehicle status }
{
    match status {
        Status::Waiting => Some(BookRefusal::NotPromised { holder: None }),
        Status::Promised(promise) => {
            if promise.vehicle == vehicle {
                None
            } else {
                Some(BookRefusal::NotPromised {
                    holder: Some(promise.vehicle),
                })
            }
        }
        _ => None,
    }
}

pub(crate) fn not_aboard(status: Status, vehicle: VehicleId) -> Option<BookRefusal>
    ensures { result ≡ seat_refusal vehicle status }
{
    match status {
        Status::Aboard(holder) => {
            if holder == vehicle {
                None
            } else {
                Some(BookRefusal::NotAboard)
            }
        }
        _ => Some(BookRefusal::NotAboard),
    }
}

pub(crate) fn time_back(vehicle: &Vehicle, time: Second) -> Option<BookRefusal>
    ensures { result ≡ time_back (Some vehicle.now) time }
{
    if time < vehicle.time {
        Some(BookRefusal::TimeBack { last: vehicle.time })
    } else {
        None
    }
}

pub(crate) fn vehicle_full(vehicle: &Vehicle, party: Party) -> Option<BookRefusal>
    ensures seats { result ≡ (if nat_le (persons_aboard vehicle.now + party) vehicle.now.seats then None else Some BookRefusal.VehicleFull) }
    ensures room { IfNone result (length vehicle.now.aboard.items < vehicle.now.seats) }
{
    let persons = persons(vehicle.aboard.as_slice());
    if persons + u64::from(party.get()) <= u64::from(vehicle.seats) {
        None
    } else {
        Some(BookRefusal::VehicleFull)
    }
}

fn persons(aboard: &[Passenger]) -> u64
    requires { length aboard.now ≤ 10 }
    ensures sum { result ≡ sum_by (λ p. p.party) aboard.now }
    ensures each { length aboard.now ≤ result }
    ensures most { result ≤ 60 }
{
    let mut persons = 0;
    for passenger in aboard {
        persons += u64::from(passenger.party.get());
    }
    persons
}

pub(crate) fn batch_open(sealed: &Option<Snapshot>) -> Option<BookRefusal>
    ensures { result ≡ batch_open sealed.now }
{
    match sealed {
        Some(snapshot) => Some(BookRefusal::BatchOpen {
            batch: snapshot.batch,
        }),
        None => None,
    }
}

pub(crate) fn clock_back(last: Option<Second>, now: Second) -> Option<BookRefusal>
    ensures { result ≡ clock_back last now }
{
    match last {
        Some(last) => {
            if now < last {
                Some(BookRefusal::ClockBack { last })
            } else {
                None
            }
        }
        None => None,
    }
}

pub(crate) fn not_this_batch(sealed: &Option<Snapshot>, batch: u64) -> Option<BookRefusal>
    ensures { result ≡ not_this_batch sealed.now batch }
{
    match sealed {
        Some(snapshot) => {
            if snapshot.batch == batch {
                None
            } else {
                Some(BookRefusal::NotThisBatch {
                    current: Some(snapshot.batch),
                })
            }
        }
        None => Some(BookRefusal::NotThisBatch { current: None }),
    }
}
