//! Seals: whose wait is over expires, and the others go into the batch's snapshot.

ghost use Rattle.std.specs.Prelude.{◌≡◌, ◌+◌, ◌-◌, ◌<◌, ℕ, [], ◌++◌, option_and_then, IfOk, OnOk, OnErr};
ghost use Rattle.std.specs.List.{filter_map};
ghost use Rattle.std.specs.Option.{option_to_list};
ghost use Rattle.request_book.specs.work.values.Keyed.{changed_in_turn};
ghost use Rattle.request_book.specs.work.register.Register.{state_of, IsIndexed, HasRoom};
ghost use Rattle.request_book.specs.values.Rider.{with_status, pool_promise};
ghost use Rattle.request_book.specs.values.State.{find_rider};
ghost use Rattle.request_book.specs.Consistent.{IsConsistent};
ghost use Rattle.request_book.specs.register.Sealing.{is_over, after_seal, batch_of};
ghost use Rattle.request_book.specs.lemmas.register.Named.{asking};
ghost use Rattle.request_book.specs.work.register.Named.{over_id};
ghost use Rattle.pool_io.specs.Faults.{one_more};
ghost use Rattle.request_book.specs.lemmas.register.Table.{seal_refusal, seal_step};

use crate::register::Register;
use crate::register::refusals::{batch_open, clock_back, first_of};
use crate::values::batch_rider::Rider;
use crate::values::promise::Promise;
use crate::values::reply::{BookRefusal, Reply};
use crate::values::rider::{BookRider, Status, is_active};
use crate::values::snapshot::{Snapshot, copied_vehicles};
use pool_base::{OutOfMemory, RiderId, Second, Sequence};
use std::alloc::Global;

impl Register {
    /// Why a seal at this second is refused.
    pub(crate) fn seal_refusal(&self, second: Second) -> Option<BookRefusal>
        ensures { result ≡ seal_refusal (state_of self.now) second }
    {
        let refusals = [batch_open(&self.sealed), clock_back(self.last_seal, second)];
        first_of(&refusals)
    }

    /// The snapshot that a seal at this second makes.
    pub(crate) fn snapshot(
        &self,
        alloc: Global,
        wait: u32,
        second: Second,
    ) -> Result<Snapshot, OutOfMemory>
        requires indexed { IsIndexed self.now }
        requires consistent { IsConsistent (state_of self.now) }
        ensures { IfOk result (λ s. s ≡ batch_of wait (state_of self.now) second) }
    {
        let mut expired = Vec::new(alloc);
        let mut riders = Vec::new(alloc);
        self.part(&mut expired, &mut riders, wait, second)?;
        let vehicles = copied_vehicles(alloc, &self.vehicles)?;
        Ok(Snapshot {
            batch: one_more(self.batches),
            now: second,
            vehicles: Sequence::of(vehicles),
            riders: Sequence::of(riders),
            expired: Sequence::of(expired),
        })
    }

    /// Lists whose wait is over, and who stays in the pool and asked by this second, as the snapshot shows them.
    fn part(
        &self,
        expired: &mut Vec<RiderId>,
        shown: &mut Vec<Rider>,
        wait: u32,
        second: Second,
    ) -> Result<(), OutOfMemory>
        requires indexed { IsIndexed self.now }
        requires no_expired { expired.old.items ≡ [] }
        requires no_shown { shown.old.items ≡ [] }
        ensures over { OnOk result (expired.new.items ≡ filter_map (λ id. option_and_then (over_id wait second) (find_rider id self.now.riders.items)) self.now.pool.items) }
        ensures asking { OnOk result (shown.new.items ≡ filter_map (λ id. option_and_then (λ r. asking second (after_seal wait second r)) (find_rider id self.now.riders.items)) self.now.pool.items) }
    {
        for id in &self.pool {
            let rider = self.rider(*id);
            push_some(expired, if_over(&rider, wait, second))?;
            push_some(shown, if_asking(&rider, wait, second))?;
        }
        Ok(())
    }

    /// Seals a batch. After an error nothing has changed.
    pub(crate) fn seal(
        &mut self,
        alloc: Global,
        wait: u32,
        second: Second,
    ) -> Result<Reply, OutOfMemory>
        requires indexed { IsIndexed self.old }
        requires consistent { IsConsistent (state_of self.old) }
        ensures ok { IfOk result (λ reply. (state_of self.new, reply) ≡ seal_step wait (state_of self.old) second) }
        ensures err { OnErr result (state_of self.new ≡ state_of self.old) }
        ensures indexed { IsIndexed self.new }
        ensures room { (n : ℕ) → HasRoom n self.old → HasRoom n self.new }
    {
        if let Some(refusal) = self.seal_refusal(second) {
            return Ok(Reply::Refused(refusal));
        }
        let snapshot = self.snapshot(alloc, wait, second)?;
        let batch = snapshot.batch;
        self.expire(snapshot.expired.as_slice());
        self.last_seal = Some(second);
        self.batches = batch;
        self.sealed = Some(snapshot);
        Ok(Reply::Sealed { batch })
    }

    /// Lets riders expire.
    fn expire(&mut self, expired: &[RiderId])
        requires { IsIndexed self.old }
        ensures state { state_of self.new ≡ record (state_of self.old) { riders = changed_in_turn (λ r. r.id) (with_status Status.Expired) expired.now self.old.riders.items } }
        ensures indexed { IsIndexed self.new }
        ensures room { (n : ℕ) → HasRoom n self.old → HasRoom n self.new }
    {
        for rider in expired {
            self.retire(*rider, Status::Expired);
        }
    }
}

/// One more, at most the greatest `u64`.
fn one_more(n: u64) -> u64
    ensures { result ≡ one_more n }
{
    n.saturating_add(1)
}

fn is_over(rider: &BookRider, wait: u32, second: Second) -> bool
    ensures { result ≡ is_over wait second rider.now }
{
    let end = u64::from(rider.time.get()) + u64::from(wait);
    is_active(rider.status) && end < u64::from(second.get())
}

fn if_over(rider: &Option<BookRider>, wait: u32, second: Second) -> Option<RiderId>
    ensures { result ≡ option_and_then (over_id wait second) rider.now }
{
    match rider {
        Some(rider) if is_over(rider, wait, second) => Some(rider.id),
        _ => None,
    }
}

/// A rider of the batch, as the snapshot shows them.
fn if_asking(rider: &Option<BookRider>, wait: u32, second: Second) -> Option<Rider>
    ensures { result ≡ option_and_then (λ r. asking second (after_seal wait second r)) rider.now }
{
    let rider = rider.as_ref()?;
    if rider.time > second || is_over(rider, wait, second) {
        return None;
    }
    let promise = pool_promise(&rider.status)?;
    Some(Rider {
        id: rider.id,
        origin: rider.origin,
        destination: rider.destination,
        time: rider.time,
        party: rider.party,
        promise,
    })
}

fn push_some<T: Copy>(list: &mut Vec<T>, item: Option<T>) -> Result<(), OutOfMemory>
    ensures { OnOk result (list.new.items ≡ list.old.items ++ option_to_list item) }
{
    if let Some(item) = item {
        list.push(item)?;
    }
    Ok(())
}

fn pool_promise(status: &Status) -> Option<Option<Promise>>
    ensures { result ≡ pool_promise status.now }
{
    match status {
        Status::Waiting => Some(None),
        Status::Promised(promise) => Some(Some(*promise)),
        _ => None,
    }
}
