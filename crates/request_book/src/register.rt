//! The riders and vehicles of a book, and what each command changes of them. `book` calls it, and so does the
//! room `notices`. It names the room `values`.

mod closing;
mod refusals;
mod riding;
mod running;
mod sealing;

ghost use Rattle.std.specs.Prelude.{◌≡◌, ◌==◌, ℕ, ◌+◌, ◌++◌, ◌∷◌, [], ◌<◌, ◌≤◌, Some, None, false, slice_index_or, MatchOption, length, vec_len, vec_capacity, map, IsTrue, if◌then◌else◌};
ghost use Rattle.std.specs.List.{list_any};
ghost use Rattle.request_book.specs.values.Keyed.{look_up, changed_at, placed, KeysDiffer, KeysRise};
ghost use Rattle.request_book.specs.lemmas.values.Keyed.{without};
ghost use Rattle.request_book.specs.values.Rider.{is_active, with_status};
ghost use Rattle.request_book.specs.values.State.{find_rider, find_vehicle};

use crate::values::rider::{BookRider, Status, is_active};
use crate::values::snapshot::Snapshot;
use crate::values::vehicle::Vehicle;
use pool_base::{Numbering, RiderId, Second, VehicleId};

/// The riders and vehicles of a book, with the numbers by which they are found.
#[derive(Drop)]
pub(crate) struct Register {
    pub riders: Vec<BookRider>,
    /// The riders' ids, in the order of the riders.
    pub ids: Numbering,
    /// The ids of the riders who wait or have a promise, by rising id, with room for all that may.
    pub pool: Vec<RiderId>,
    pub vehicles: Vec<Vehicle>,
    /// The vehicles' ids, in the order of the vehicles.
    pub vehicle_ids: Numbering,
    pub last_seal: Option<Second>,
    pub sealed: Option<Snapshot>,
    pub batches: u64,
}

impl Register {
    ghost use Rattle.request_book.specs.work.register.Register.{state_of, IsIndexed, HasRoom};
    ghost use Rattle.request_book.specs.lemmas.register.Named.{pool_count};

    /// Where a rider stands among the riders.
    pub(crate) fn rider_at(&self, rider: RiderId) -> Option<usize>
        requires { IsIndexed self.now }
        ensures { MatchOption result (find_rider rider self.now.riders.items ≡ None) (λ at. (at < length self.now.riders.items) × ((d : BookRider) → find_rider rider self.now.riders.items ≡ Some (slice_index_or self.now.riders.items at d))) }
    {
        self.ids.number_of(rider.get())
    }

    /// The rider of this id.
    pub(crate) fn rider(&self, rider: RiderId) -> Option<BookRider>
        requires { IsIndexed self.now }
        ensures { result ≡ find_rider rider self.now.riders.items }
    {
        match self.rider_at(rider) {
            Some(at) => Some(self.riders[at]),
            None => None,
        }
    }

    /// Where a vehicle stands among the vehicles.
    pub(crate) fn vehicle_at(&self, vehicle: VehicleId) -> Option<usize>
        requires { IsIndexed self.now }
        ensures { MatchOption result (find_vehicle vehicle self.now.vehicles.items ≡ None) (λ at. (at < length self.now.vehicles.items) × ((d : Vehicle) → find_vehicle vehicle self.now.vehicles.items ≡ Some (slice_index_or self.now.vehicles.items at d))) }
    {
        self.vehicle_ids.number_of(vehicle.get())
    }

    /// Adds a rider of a new id, last. There is room for one more.
    pub(crate) fn place(&mut self, new: &BookRider)
        requires indexed { IsIndexed self.old }
        requires new { find_rider new.now.id self.old.riders.items ≡ None }
        requires room { HasRoom 1 self.old }
        requires pool_room { IsTrue (is_active new.now.status) → pool_count self.old.riders.items < 1000 }
        ensures state { state_of self.new ≡ record (state_of self.old) { riders = self.old.riders.items ++ new.now ∷ [] } }
        ensures indexed { IsIndexed self.new }
        ensures room { (n : ℕ) → HasRoom (n + 1) self.old → HasRoom n self.new }
    {
        add(&mut self.riders, new);
        number(&mut self.ids, new.id);
        join_if_active(&mut self.pool, new);
    }

    /// Gives a rider a status with which they aren't in the pool, and takes them out of it.
    pub(crate) fn retire(&mut self, rider: RiderId, status: Status)
        requires indexed { IsIndexed self.old }
        requires inactive { is_active status ≡ false }
        ensures state { state_of self.new ≡ record (state_of self.old) { riders = changed_at (λ r. r.id) rider (with_status status) self.old.riders.items } }
        ensures indexed { IsIndexed self.new }
        ensures room { (n : ℕ) → HasRoom n self.old → HasRoom n self.new }
    {
        change_status(&mut self.riders, &self.ids, rider, status);
        leave(&mut self.pool, rider);
    }
}

/// Puts a rider last. There is room for one more.
fn add(riders: &mut Vec<BookRider>, new: &BookRider)
    requires room { vec_len riders.old < vec_capacity riders.old }
    ensures items { riders.new.items ≡ riders.old.items ++ new.now ∷ [] }
    ensures len { vec_len riders.new ≡ vec_len riders.old + 1 }
    ensures capacity { vec_capacity riders.old ≤ vec_capacity riders.new }
{
    riders.push_reserved(BookRider {
        id: new.id,
        origin: new.origin,
        destination: new.destination,
        time: new.time,
        party: new.party,
        status: new.status,
    });
}

/// Gives a rider the next number.
fn number(ids: &mut Numbering, rider: RiderId)
    requires new { list_any (λ id. id == rider) ids.old.names ≡ false }
    requires room { 0 < ids.old.spare }
    ensures names { ids.new.names ≡ ids.old.names ++ rider ∷ [] }
    ensures room { ids.old.spare ≤ ids.new.spare + 1 }
{
    let _ = ids.number(rider.get());
}

/// Puts the id of a rider who waits or has a promise into the pool, in its place.
fn join_if_active(pool: &mut Vec<RiderId>, rider: &BookRider)
    requires rise { KeysRise (λ id. id) pool.old.items }
    requires new { look_up (λ id. id) rider.now.id pool.old.items ≡ None }
    requires room { IsTrue (is_active rider.now.status) → vec_len pool.old < vec_capacity pool.old }
    ensures items { pool.new.items ≡ (if is_active rider.now.status then placed (λ id. id) rider.now.id pool.old.items else pool.old.items) }
    ensures room { vec_capacity pool.old ≤ vec_capacity pool.new }
{
    if is_active(rider.status) {
        join(pool, rider.id);
    }
}

/// Puts an id into the pool, in its place.
fn join(pool: &mut Vec<RiderId>, rider: RiderId)
    requires rise { KeysRise (λ id. id) pool.old.items }
    requires new { look_up (λ id. id) rider pool.old.items ≡ None }
    requires room { vec_len pool.old < vec_capacity pool.old }
    ensures items { pool.new.items ≡ placed (λ id. id) rider pool.old.items }
    ensures room { vec_capacity pool.old ≤ vec_capacity pool.new }
{
    let place = match pool.binary_search(&rider) {
        Ok(place) => place,
        Err(place) => place,
    };
    let _ = pool.insert(place, rider);
}

/// Takes an id out of the pool.
fn leave(pool: &mut Vec<RiderId>, rider: RiderId)
    requires { KeysRise (λ id. id) pool.old.items }
    ensures items { pool.new.items ≡ without (λ id. id) rider pool.old.items }
    ensures room { vec_capacity pool.new ≡ vec_capacity pool.old }
{
    if let Ok(place) = pool.binary_search(&rider) {
        pool.remove(place);
    }
}

/// Gives a rider another status. Nothing changes where there is no such rider.
fn change_status(riders: &mut Vec<BookRider>, ids: &Numbering, rider: RiderId, status: Status)
    requires ids { ids.now.names ≡ map (λ r. r.id) riders.old.items }
    requires differ { KeysDiffer (λ r. r.id) riders.old.items }
    ensures changed { riders.new.items ≡ changed_at (λ r. r.id) rider (with_status status) riders.old.items }
    ensures len { vec_len riders.new ≡ vec_len riders.old }
    ensures capacity { vec_capacity riders.new ≡ vec_capacity riders.old }
{
    if let Some(at) = ids.number_of(rider.get()) {
        riders[at].status = status;
    }
}
