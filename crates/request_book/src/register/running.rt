//! The register at work: how it begins, and one command of any kind.

ghost use Rattle.std.specs.Prelude.{◌≡◌, ◌+◌, ◌≤◌, [], ℕ, None, map, IfOk, OnOk, OnErr, IsOk, IsTrue};
ghost use Rattle.request_book.specs.Book.{opening, is_light};
ghost use Rattle.request_book.specs.Consistent.{IsConsistent};
ghost use Rattle.request_book.specs.values.Keyed.{KeysRise, KeysDiffer};
ghost use Rattle.request_book.specs.lemmas.register.Named.{pool_count};
ghost use Rattle.request_book.specs.work.register.Register.{state_of, IsIndexed, HasRoom};
ghost use Rattle.request_book.specs.register.Step.{step};

use crate::register::Register;
use crate::register::refusals::POOL;
use crate::values::command::Command;
use crate::values::reply::Reply;
use crate::values::rider::{BookRider, Status};
use crate::values::snapshot::{Snapshot, copied_vehicles};
use crate::values::state::State;
use crate::values::vehicle::Vehicle;
use pool_base::{Numbering, OutOfMemory, Sequence};
use std::alloc::Global;

impl Register {
    /// The register of these vehicles, without a rider.
    pub(crate) fn of(alloc: Global, vehicles: Vec<Vehicle>) -> Result<Register, OutOfMemory>
        requires { KeysRise (λ v. v.id) vehicles.items }
        ensures state { IfOk result (λ register. state_of register ≡ opening vehicles.items) }
        ensures indexed { IfOk result IsIndexed }
    {
        let mut register = unnumbered(alloc, vehicles);
        match register.number() {
            Ok(()) => Ok(register),
            Err(fault) => {
                drop(register);
                Err(fault)
            }
        }
    }

    /// Numbers the vehicles of a register without riders, and makes room for the pool.
    fn number(&mut self) -> Result<(), OutOfMemory>
        requires rise { KeysRise (λ v. v.id) self.old.vehicles.items }
        requires riders { self.old.riders.items ≡ [] }
        requires ids { self.old.ids.names ≡ [] }
        requires vehicle_ids { self.old.vehicle_ids.names ≡ [] }
        requires pool { self.old.pool.items ≡ [] }
        ensures state { OnOk result (state_of self.new ≡ state_of self.old) }
        ensures indexed { OnOk result (IsIndexed self.new) }
    {
        self.pool.reserve(POOL)?;
        number_vehicles(&mut self.vehicle_ids, &self.vehicles)?;
        Ok(())
    }

    /// The register of a state of a book.
    pub(crate) fn holding(alloc: Global, state: &State) -> Result<Register, OutOfMemory>
        requires { IsConsistent state.now }
        ensures state { IfOk result (λ register. state_of register ≡ state.now) }
        ensures indexed { IfOk result IsIndexed }
    {
        let vehicles = copied_vehicles(alloc, state.vehicles.as_slice())?;
        let mut register = Register::of(alloc, vehicles)?;
        match register.hold(alloc, state) {
            Ok(()) => Ok(register),
            Err(fault) => {
                drop(register);
                Err(fault)
            }
        }
    }

    /// Takes over a state whose vehicles the register has, with no rider yet.
    fn hold(&mut self, alloc: Global, state: &State) -> Result<(), OutOfMemory>
        requires indexed { IsIndexed self.old }
        requires riders { self.old.riders.items ≡ [] }
        requires consistent { IsConsistent state.now }
        requires vehicles { self.old.vehicles.items ≡ state.now.vehicles }
        ensures state { OnOk result (state_of self.new ≡ state.now) }
        ensures indexed { OnOk result (IsIndexed self.new) }
    {
        self.place_all(state.riders.as_slice())?;
        self.sealed = copied_snapshot(alloc, &state.sealed)?;
        self.last_seal = state.last_seal;
        self.batches = state.batches;
        Ok(())
    }

    /// Adds riders to a register that has none.
    fn place_all(&mut self, riders: &[BookRider]) -> Result<(), OutOfMemory>
        requires indexed { IsIndexed self.old }
        requires none { self.old.riders.items ≡ [] }
        requires differ { KeysDiffer (λ r. r.id) riders.now }
        requires pool { pool_count riders.now ≤ 1000 }
        ensures state { OnOk result (state_of self.new ≡ record (state_of self.old) { riders = riders.now }) }
        ensures indexed { OnOk result (IsIndexed self.new) }
    {
        self.reserve(riders.len())?;
        for rider in riders {
            self.place(rider);
        }
        Ok(())
    }

    /// One command of any kind. Only a seal takes memory where there is room for one more rider; after an
    /// error nothing has changed.
    pub(crate) fn run(
        &mut self,
        alloc: Global,
        nodes: &Numbering,
        wait: u32,
        command: &Command,
    ) -> Result<Reply, OutOfMemory>
        requires indexed { IsIndexed self.old }
        requires consistent { IsConsistent (state_of self.old) }
        requires room { HasRoom 1 self.old }
        ensures ok { IfOk result (λ reply. (state_of self.new, reply) ≡ step nodes.now.names wait (state_of self.old) command.now) }
        ensures err { OnErr result (state_of self.new ≡ state_of self.old) }
        ensures light { IsTrue (is_light command.now) → IsOk result }
        ensures indexed { IsIndexed self.new }
        ensures room { (n : ℕ) → HasRoom (n + 1) self.old → HasRoom n self.new }
        ensures kept { OnErr result ((n : ℕ) → HasRoom n self.old → HasRoom n self.new) }
    {
        match command {
            Command::Submit {
                rider,
                origin,
                destination,
                time,
                party,
            } => {
                let new = BookRider {
                    id: *rider,
                    origin: *origin,
                    destination: *destination,
                    time: *time,
                    party: *party,
                    status: Status::Waiting,
                };
                Ok(self.submit(nodes, &new))
            }
            Command::Cancel { rider } => Ok(self.cancel(*rider)),
            Command::Report {
                vehicle,
                node,
                time,
            } => Ok(self.report(nodes, *vehicle, *node, *time)),
            Command::Pickup {
                vehicle,
                rider,
                time,
            } => Ok(self.pickup(*vehicle, *rider, *time)),
            Command::Dropoff {
                vehicle,
                rider,
                time,
            } => Ok(self.dropoff(*vehicle, *rider, *time)),
            Command::Seal { now } => self.seal(alloc, wait, *now),
            Command::Close { batch, outcome } => Ok(self.close(*batch, &outcome.answer)),
        }
    }

    /// The state, as a value of its own.
    pub(crate) fn state(&self, alloc: Global) -> Result<State, OutOfMemory>
        ensures { IfOk result (λ state. state ≡ state_of self.now) }
    {
        let riders = Vec::from_slice(alloc, &self.riders)?;
        let vehicles = copied_vehicles(alloc, &self.vehicles)?;
        let sealed = copied_snapshot(alloc, &self.sealed)?;
        Ok(State {
            riders: Sequence::of(riders),
            vehicles: Sequence::of(vehicles),
            last_seal: self.last_seal,
            sealed,
            batches: self.batches,
        })
    }

    /// Makes room for so many more riders. Nothing else changes.
    pub(crate) fn reserve(&mut self, additional: usize) -> Result<(), OutOfMemory>
        requires { IsIndexed self.old }
        ensures state { state_of self.new ≡ state_of self.old }
        ensures indexed { IsIndexed self.new }
        ensures ok { OnOk result (HasRoom additional self.new) }
        ensures room { (n : ℕ) → HasRoom n self.old → HasRoom n self.new }
    {
        self.riders.reserve(additional)?;
        self.ids.reserve(additional)?;
        Ok(())
    }
}

/// The register of these vehicles, without a rider and without the numbers by which they are found.
fn unnumbered(alloc: Global, vehicles: Vec<Vehicle>) -> Register
    ensures state { state_of result ≡ opening vehicles.items }
    ensures ids { result.ids.names ≡ [] }
    ensures vehicle_ids { result.vehicle_ids.names ≡ [] }
    ensures pool { result.pool.items ≡ [] }
{
    Register {
        riders: Vec::new(alloc),
        ids: Numbering::new(alloc),
        pool: Vec::new(alloc),
        vehicles,
        vehicle_ids: Numbering::new(alloc),
        last_seal: None,
        sealed: None,
        batches: 0,
    }
}

/// Numbers the vehicles' ids, in their order.
fn number_vehicles(ids: &mut Numbering, vehicles: &[Vehicle]) -> Result<(), OutOfMemory>
    requires differ { KeysDiffer (λ v. v.id) vehicles.now }
    requires none { ids.old.names ≡ [] }
    ensures { OnOk result (ids.new.names ≡ map (λ v. v.id) vehicles.now) }
{
    ids.reserve(vehicles.len())?;
    for vehicle in vehicles {
        ids.number(vehicle.id.get())?;
    }
    Ok(())
}

fn copied_snapshot(
    alloc: Global,
    snapshot: &Option<Snapshot>,
) -> Result<Option<Snapshot>, OutOfMemory>
    ensures { IfOk result (λ copy. copy ≡ snapshot.now) }
{
    match snapshot {
        Some(snapshot) => {
            let copy = snapshot.copy(alloc)?;
            Ok(Some(copy))
        }
        None => Ok(None),
    }
}
