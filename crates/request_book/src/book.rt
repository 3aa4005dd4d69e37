ghost use Rattle.std.specs.Prelude.{◌≡◌, ◌==◌, ◌+◌, ◌<◌, ◌≤◌, ◌++◌, ◌∷◌, [], All, option_map, IfOk, OnOk, OnErr, IsFalse, IsOk, IsTrue, vec_len, vec_capacity};
ghost use Rattle.request_book.specs.Book.{opening, next_position, would_seal, IsApplied, IsBook, IsSameBook, is_light};
ghost use Rattle.request_book.specs.Consistent.{IsConsistent, IsNode};
ghost use Rattle.request_book.specs.values.State.{find_rider};

use crate::register::Register;
use crate::values::command::Command;
use crate::values::fleet::Fleet;
use crate::values::journal::{Entry, Journal};
use crate::values::reply::Reply;
use crate::values::rider::{BookRider, Status};
use crate::values::snapshot::{Snapshot, copied_vehicles};
use crate::values::state::State;
use crate::values::vehicle::Vehicle;
use pool_base::{Numbering, OutOfMemory, RiderId, Second, Sequence};
use road_network::Network;
use std::alloc::Global;
use std::marker::Model;
use std::mem;

/// The riders and vehicles of a dispatcher, and the journal of what was asked and answered.
///
/// The state is the step table run over the journal's entries from the state before them, and each reply
/// is the table's. A command takes a time that doesn't grow with the number of riders but for a look-up;
/// a seal takes a time that grows with the riders who wait or have a promise.
#[derive(Drop)]
pub struct Book {
    alloc: Global,
    nodes: Numbering,
    wait: u32,
    first: u64,
    base: State,
    entries: Vec<Entry>,
    pub(crate) register: Register,
    /// How many commands other than a seal are sure to need no memory.
    reserved: u64,
}

impl Model for Book {
    ghost use Rattle.std.specs.Prelude.{vec_len, vec_capacity};
    ghost use Rattle.request_book.specs.Book.{BookView};
    ghost use Rattle.request_book.specs.work.register.Register.{state_of};
    ghost use Rattle.request_book.specs.work.Stored.{IsStored};

    ghost Value = { BookView };

    ghost view = { λ b. record { nodes = b.nodes.names; wait = b.wait; first = b.first; base = b.base; entries = b.entries.items; state = state_of b.register; spare = b.reserved } };

    ghost invariant = { λ b. IsStored (record { nodes = b.nodes.names; wait = b.wait; first = b.first; base = b.base; entries = b.entries.items; state = state_of b.register; spare = b.reserved }) (vec_len b.entries) (vec_capacity b.entries) b.register };
}

impl Book {
    /// The book of a fleet on a road network, where a rider waits for `wait` seconds at most.
    pub fn new(
        alloc: Global,
        network: &Network,
        fleet: Fleet,
        wait: u32,
    ) -> Result<Book, OutOfMemory>
        requires { All (λ v. IsNode network.now.nodes v.node) fleet }
        ensures { IfOk result (λ book. book ≡ record { nodes = network.now.nodes; wait = wait; first = 0; base = opening fleet; entries = []; state = opening fleet; spare = 0 }) }
    {
        let mut nodes = Numbering::new(alloc);
        number_nodes(&mut nodes, network)?;
        Book::over(alloc, nodes, fleet, wait)
    }

    /// The book of a fleet over these nodes.
    pub(crate) fn over(
        alloc: Global,
        nodes: Numbering,
        fleet: Fleet,
        wait: u32,
    ) -> Result<Book, OutOfMemory>
        requires { All (λ v. IsNode nodes.names v.node) fleet }
        ensures { IfOk result (λ book. book ≡ record { nodes = nodes.names; wait = wait; first = 0; base = opening fleet; entries = []; state = opening fleet; spare = 0 }) }
    {
        let vehicles = fleet.into_vehicles();
        match copied_vehicles(alloc, &vehicles) {
            Ok(copy) => match Register::of(alloc, vehicles) {
                Ok(register) => Ok(Book {
                    alloc,
                    nodes,
                    wait,
                    first: 0,
                    base: opening(alloc, copy),
                    entries: Vec::new(alloc),
                    register,
                    reserved: 0,
                }),
                Err(fault) => {
                    drop(nodes);
                    drop(copy);
                    Err(fault)
                }
            },
            Err(fault) => {
                drop(nodes);
                drop(vehicles);
                Err(fault)
            }
        }
    }

    /// Makes room, so that at least `n` commands other than a seal need no memory.
    pub fn reserve(&mut self, n: u64) -> Result<(), OutOfMemory>
        ensures room { OnOk result (n ≤ self.new.spare) }
        ensures same { IsSameBook self.old self.new }
        ensures kept { self.old.spare ≤ self.new.spare }
    {
        if n > self.reserved {
            let additional = n as usize;
            self.entries.reserve(additional)?;
            self.register.reserve(additional)?;
            self.reserved = n;
        }
        Ok(())
    }

    /// The same, with room for so many seals beside: these then move no list to make room.
    pub fn reserve_with_seals(&mut self, n: u64, seals: u64) -> Result<(), OutOfMemory>
        ensures room { OnOk result (n ≤ self.new.spare) }
        ensures same { IsSameBook self.old self.new }
        ensures kept { self.old.spare ≤ self.new.spare }
    {
        let additional = n.saturating_add(seals) as usize;
        self.entries.reserve(additional)?;
        self.register.reserve(additional)?;
        self.reserve(n)
    }

    /// Room for one command: a seal leaves as much as there was.
    fn make_room(&mut self, command: &Command) -> Result<(), OutOfMemory>
        ensures room { OnOk result (0 < self.new.spare) }
        ensures same { IsSameBook self.old self.new }
        ensures kept { self.old.spare ≤ self.new.spare }
        ensures light { IsTrue (is_light command.now) → 0 < self.old.spare → IsOk result }
        ensures heavy { OnOk result (IsFalse (is_light command.now) → self.old.spare < self.new.spare) }
    {
        match command {
            Command::Seal { .. } => match self.reserved.checked_add(1) {
                Some(room) => self.reserve(room),
                None => Err(OutOfMemory),
            },
            _ => {
                if self.reserved == 0 {
                    self.reserve(1)
                } else {
                    Ok(())
                }
            }
        }
    }

    /// Answers a command of a lane by the step table. A refusal is a reply, and an entry.
    ///
    /// It fails only for want of memory, and has then changed nothing. A seal leaves the room that there
    /// was; any other command takes one of it.
    pub fn apply(&mut self, lane: u8, command: Command) -> Result<Reply, OutOfMemory>
        ensures applied { IfOk result (λ reply. IsApplied self.old lane command reply self.new) }
        ensures unchanged { OnErr result (IsSameBook self.old self.new) }
        ensures sure { IsTrue (is_light command) → 0 < self.old.spare → IsOk result }
        ensures room { self.old.spare ≤ self.new.spare + 1 }
        ensures heavy { IsFalse (is_light command) → self.old.spare ≤ self.new.spare }
        ensures kept { OnErr result (self.old.spare ≤ self.new.spare) }
    {
        match self.make_room(&command) {
            Ok(()) => {}
            Err(fault) => {
                drop(command);
                return Err(fault);
            }
        }
        match self
            .register
            .run(self.alloc, &self.nodes, self.wait, &command)
        {
            Ok(reply) => {
                self.reserved -= 1;
                append(&mut self.entries, lane, command, &reply);
                Ok(reply)
            }
            Err(fault) => {
                drop(command);
                Err(fault)
            }
        }
    }

    /// The rider of this id.
    pub fn rider(&self, rider: RiderId) -> Option<BookRider>
        ensures { result ≡ find_rider rider self.now.state.riders }
    {
        self.register.rider(rider)
    }

    /// A rider's status.
    pub fn status_of(&self, rider: RiderId) -> Option<Status>
        ensures { result ≡ option_map (λ r. r.status) (find_rider rider self.now.state.riders) }
    {
        match self.register.rider(rider) {
            Some(found) => Some(found.status),
            None => None,
        }
    }

    /// All riders and vehicles, as a value of its own.
    pub fn state(&self) -> Result<State, OutOfMemory>
        ensures { IfOk result (λ state. state ≡ self.now.state) }
    {
        self.register.state(self.alloc)
    }

    /// A law: what every book keeps.
    pub fn keeps(&self)
        ensures { IsBook self.now }
    {
        let _ = &self.entries;
    }

    /// The entries since the last `take_round`.
    pub fn entries(&self) -> &[Entry]
        ensures entries { result.now ≡ self.now.entries }
        ensures kept { IsBook self.now }
    {
        self.entries.as_slice()
    }

    /// The position that the next entry gets, counted from 0 over all rounds; it stands still at the
    /// greatest `u64`.
    pub fn next_position(&self) -> u64
        ensures { result ≡ next_position self.now.first self.now.entries }
    {
        self.first.saturating_add(self.entries.len() as u64)
    }

    /// The batch that a seal at this second would put up; `None` exactly where it would be refused.
    pub fn would_seal(&self, second: Second) -> Result<Option<Snapshot>, OutOfMemory>
        ensures { IfOk result (λ batch. batch ≡ would_seal self.now.wait self.now.state second) }
    {
        if self.register.seal_refusal(second).is_some() {
            return Ok(None);
        }
        let batch = self.register.snapshot(self.alloc, self.wait, second)?;
        Ok(Some(batch))
    }

    /// Gives the journal up and begins a new one, at the next position and the state as it is. No room
    /// is left. The journal's base is a state that a book had. After an error nothing has changed.
    pub fn take_round(&mut self) -> Result<Journal, OutOfMemory>
        ensures journal { IfOk result (λ journal. journal ≡ record { first = self.old.first; base = self.old.base; entries = self.old.entries }) }
        ensures consistent { IfOk result (λ journal. IsConsistent journal.base) }
        ensures next { OnOk result (self.new ≡ record { nodes = self.old.nodes; wait = self.old.wait; first = next_position self.old.first self.old.entries; base = self.old.state; entries = []; state = self.old.state; spare = 0 }) }
        ensures unchanged { OnErr result (IsSameBook self.old self.new) }
        ensures kept { OnErr result (self.old.spare ≤ self.new.spare) }
    {
        let state = self.state()?;
        let next = self.next_position();
        let first = mem::replace(&mut self.first, next);
        let base = mem::replace(&mut self.base, state);
        let entries = mem::replace(&mut self.entries, Vec::new(self.alloc));
        self.reserved = 0;
        Ok(Journal {
            first,
            base,
            entries: Sequence::of(entries),
        })
    }
}

/// Puts an entry last. There is room for it.
fn append(entries: &mut Vec<Entry>, lane: u8, command: Command, reply: &Reply)
    requires room { vec_len entries.old < vec_capacity entries.old }
    ensures items { entries.new.items ≡ entries.old.items ++ (record { lane = lane; command = command; reply = reply.now }) ∷ [] }
    ensures len { vec_len entries.new ≡ vec_len entries.old + 1 }
    ensures capacity { vec_capacity entries.new ≡ vec_capacity entries.old }
{
    entries.push_reserved(Entry {
        lane,
        command,
        reply: *reply,
    });
}

/// The state with which a run begins.
fn opening(alloc: Global, vehicles: Vec<Vehicle>) -> State
    ensures { result ≡ opening vehicles.items }
{
    State {
        riders: Sequence::empty(alloc),
        vehicles: Sequence::of(vehicles),
        last_seal: None,
        sealed: None,
        batches: 0,
    }
}

/// Numbers the network's nodes, in its order.
pub(crate) fn number_nodes(nodes: &mut Numbering, network: &Network) -> Result<(), OutOfMemory>
    requires { nodes.old.names ≡ [] }
    ensures { OnOk result (nodes.new.names ≡ network.now.nodes) }
{
    let count = network.node_count();
    nodes.reserve(count)?;
    for index in 0..count {
        nodes.number(network.node_at(index).get())?;
    }
    Ok(())
}
