//! Closes: the riders of the sealed batch who still wait get what the plan gives them.

ghost use Rattle.std.specs.Prelude.{◌≡◌, ◌+◌, ◌&&◌, ℕ, map, vec_len, vec_capacity, if◌then◌else◌};
ghost use Rattle.request_book.specs.values.Keyed.{changed_at, KeysDiffer, KeysRise};
ghost use Rattle.request_book.specs.work.values.Keyed.{changed_in_turn};
ghost use Rattle.request_book.specs.work.register.Register.{state_of, IsIndexed, HasRoom};
ghost use Rattle.request_book.specs.values.Rider.{with_status};
ghost use Rattle.request_book.specs.register.Closing.{picks};
ghost use Rattle.request_book.specs.lemmas.register.Closing.{trip_picks, after_answer};
ghost use Rattle.request_book.specs.lemmas.register.Named.{in_batch};
ghost use Rattle.request_book.specs.work.register.Closing.{is_waiting, waits_again, takes_promise, promised_in_turn};
ghost use Rattle.request_book.specs.lemmas.register.Table.{close_step};

use crate::register::Register;
use crate::register::refusals::not_this_batch;
use crate::values::batch_rider::Rider;
use crate::values::outcome::{Answer, ChosenTrip, PlannedStop};
use crate::values::promise::Promise;
use crate::values::reply::Reply;
use crate::values::rider::{BookRider, Status};
use pool_base::{Numbering, RiderId, VehicleId};

impl Register {
    /// Closes the sealed batch.
    pub(crate) fn close(&mut self, batch: u64, answer: &Answer) -> Reply
        requires { IsIndexed self.old }
        ensures stepped { (state_of self.new, result) ≡ close_step (state_of self.old) batch answer.now }
        ensures indexed { IsIndexed self.new }
        ensures room { (n : ℕ) → HasRoom (n + 1) self.old → HasRoom n self.new }
    {
        if let Some(refusal) = not_this_batch(&self.sealed, batch) {
            return Reply::Refused(refusal);
        }
        if let Some(snapshot) = self.sealed.take() {
            let batch = snapshot.riders.as_slice();
            settle(&mut self.riders, &self.ids, batch, answer);
        }
        Reply::Closed
    }
}

/// Gives the riders of a batch what an answer gives them.
fn settle(riders: &mut Vec<BookRider>, ids: &Numbering, batch: &[Rider], answer: &Answer)
    requires ids { ids.now.names ≡ map (λ r. r.id) riders.old.items }
    requires differ { KeysDiffer (λ r. r.id) riders.old.items }
    requires rise { KeysRise (λ r. r.id) batch.now }
    ensures settled { riders.new.items ≡ after_answer batch.now answer.now riders.old.items }
    ensures len { vec_len riders.new ≡ vec_len riders.old }
    ensures capacity { vec_capacity riders.new ≡ vec_capacity riders.old }
{
    if let Answer::Planned(plan) = answer {
        release(riders, ids, batch);
        promise_all(riders, ids, batch, plan.chosen.as_slice());
    }
}

/// Lets the riders of a batch who are still in the pool wait again.
fn release(riders: &mut Vec<BookRider>, ids: &Numbering, batch: &[Rider])
    requires ids { ids.now.names ≡ map (λ r. r.id) riders.old.items }
    requires differ { KeysDiffer (λ r. r.id) riders.old.items }
    ensures changed { riders.new.items ≡ changed_in_turn (λ r. r.id) waits_again (map (λ r. r.id) batch.now) riders.old.items }
    ensures ids { ids.now.names ≡ map (λ r. r.id) riders.new.items }
    ensures differ { KeysDiffer (λ r. r.id) riders.new.items }
    ensures len { vec_len riders.new ≡ vec_len riders.old }
    ensures capacity { vec_capacity riders.new ≡ vec_capacity riders.old }
{
    for rider in batch {
        let_wait(riders, ids, rider.id);
    }
}

fn let_wait(riders: &mut Vec<BookRider>, ids: &Numbering, rider: RiderId)
    requires ids { ids.now.names ≡ map (λ r. r.id) riders.old.items }
    requires differ { KeysDiffer (λ r. r.id) riders.old.items }
    ensures changed { riders.new.items ≡ changed_at (λ r. r.id) rider waits_again riders.old.items }
    ensures len { vec_len riders.new ≡ vec_len riders.old }
    ensures capacity { vec_capacity riders.new ≡ vec_capacity riders.old }
{
    if let Some(at) = ids.number_of(rider.get()) {
        wait_again(&mut riders[at]);
    }
}

fn wait_again(rider: &mut BookRider)
    ensures { rider.new ≡ waits_again rider.old }
{
    match rider.status {
        Status::Waiting | Status::Promised(_) => rider.status = Status::Waiting,
        _ => {}
    }
}

/// Promises what the pick stops of the chosen trips say; a rider's first one counts.
fn promise_all(riders: &mut Vec<BookRider>, ids: &Numbering, batch: &[Rider], chosen: &[ChosenTrip])
    requires ids { ids.now.names ≡ map (λ r. r.id) riders.old.items }
    requires differ { KeysDiffer (λ r. r.id) riders.old.items }
    requires rise { KeysRise (λ r. r.id) batch.now }
    ensures promised { riders.new.items ≡ promised_in_turn batch.now (picks chosen.now) riders.old.items }
    ensures len { vec_len riders.new ≡ vec_len riders.old }
    ensures capacity { vec_capacity riders.new ≡ vec_capacity riders.old }
{
    for trip in chosen {
        promise_trip(riders, ids, batch, trip.vehicle, trip.stops.as_slice());
    }
}

fn promise_trip(
    riders: &mut Vec<BookRider>,
    ids: &Numbering,
    batch: &[Rider],
    vehicle: VehicleId,
    stops: &[PlannedStop],
)
    requires ids { ids.now.names ≡ map (λ r. r.id) riders.old.items }
    requires differ { KeysDiffer (λ r. r.id) riders.old.items }
    requires rise { KeysRise (λ r. r.id) batch.now }
    ensures promised { riders.new.items ≡ promised_in_turn batch.now (trip_picks vehicle stops.now) riders.old.items }
    ensures ids { ids.now.names ≡ map (λ r. r.id) riders.new.items }
    ensures differ { KeysDiffer (λ r. r.id) riders.new.items }
    ensures len { vec_len riders.new ≡ vec_len riders.old }
    ensures capacity { vec_capacity riders.new ≡ vec_capacity riders.old }
{
    for stop in stops {
        if stop.pick {
            let promise = Promise {
                vehicle,
                pickup: stop.second,
            };
            promise_one(riders, ids, batch, stop.rider, promise);
        }
    }
}

fn promise_one(
    riders: &mut Vec<BookRider>,
    ids: &Numbering,
    batch: &[Rider],
    rider: RiderId,
    promise: Promise,
)
    requires ids { ids.now.names ≡ map (λ r. r.id) riders.old.items }
    requires differ { KeysDiffer (λ r. r.id) riders.old.items }
    requires rise { KeysRise (λ r. r.id) batch.now }
    ensures changed { riders.new.items ≡ changed_at (λ r. r.id) rider (takes_promise batch.now (record { rider = rider; promise = promise })) riders.old.items }
    ensures len { vec_len riders.new ≡ vec_len riders.old }
    ensures capacity { vec_capacity riders.new ≡ vec_capacity riders.old }
{
    let listed = in_batch(batch, rider);
    if let Some(at) = ids.number_of(rider.get()) {
        take_promise(&mut riders[at], listed, promise);
    }
}

fn take_promise(rider: &mut BookRider, listed: bool, promise: Promise)
    ensures { rider.new ≡ (if listed && is_waiting rider.old.status then with_status (Status.Promised promise) rider.old else rider.old) }
{
    if listed {
        match rider.status {
            Status::Waiting => rider.status = Status::Promised(promise),
            _ => {}
        }
    }
}

/// Whether a rider is one of the batch's.
fn in_batch(batch: &[Rider], rider: RiderId) -> bool
    requires { KeysRise (λ r. r.id) batch.now }
    ensures { result ≡ in_batch batch.now rider }
{
    batch
        .binary_search_by_key(&rider, |listed| listed.id)
        .is_ok()
}
