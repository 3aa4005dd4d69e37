//! The book of a dispatcher: who asked, who has a promise, who is aboard of which vehicle, and the one
//! journal of commands and replies.
//!
//! `Book::apply` answers each command by the step table, whose definition is one function over plain
//! lists; the book keeps that its state is that step run over its journal. A refused command is an entry
//! of the journal and changes nothing else.
//!
//! A caller:
//!
//! ```
//! // The reply in lane 0; none for want of memory.
//! fn replied(book: &mut Book, command: Command) -> Option<Reply> {
//!     match book.apply(0, command) {
//!         Ok(reply) => Some(reply),
//!         Err(_) => None,
//!     }
//! }
//! ```
//!
//! A batch works on a snapshot: vehicles with their passengers, and the riders who ask, at one moment. It keeps its lists
//! by rising id, its sizes within the limits, and each rider in one place only. `Points` are the distinct nodes that it
//! names, by rising name; the layers above work with their places in that list.
//!
//! ```
//! /// Whether a copy tells the same, and each node that is named stands once.
//! fn copied(alloc: Global, snapshot: &Snapshot) -> Result<(bool, bool), OutOfMemory> {
//!     let copy = snapshot.copy(alloc)?;
//!     let points = snapshot.points(alloc)?;
//!     let once = points.nodes() == [node(7), node(9)].as_slice();
//!     Ok((copy.same(snapshot), once))
//! }
//! ```
//!
//! Notices tell riders who is promised which vehicle and when, and who is in no trip. Those of a journal
//! are read off as its commands are run again, those of a close off the book before it. The caller lends notifiers, of one
//! type or in boxes; each is told the notices in order, and one that fails is dropped while the others go
//! on.
//!
//! Main clauses: `Book::apply`: `applied`, `unchanged`, `sure`, `room`; `Book::take_round`: `journal`,
//! `next`, `unchanged`; `notices_of`; `notices_of_close`; `tell_journal`; `tell_all`: `heard`, `dropped`;
//! `Notifier::tell`: `told`, `fault`, `sure`; `Snapshot::points`: `points`, `most`; `Snapshot::copy`: `copy`, `kept`.
#![tactic(auto)]

// Rooms, each names only those above it: values, register, notices.

mod book;
mod laws;
mod notices;
mod points;
mod register;
mod values;

pub use book::Book;
pub use laws::{
    passengers_are_who_is_aboard, positions_count_entries, refused_commands_change_nothing,
    riders_have_one_status, rounds_join, seats_always_suffice, states_are_consistent,
};
pub use notices::memory_notifier::MemoryNotifier;
pub use notices::notice::Notice;
pub use notices::notifier::Notifier;
pub use notices::noting::{notices_of, notices_of_close};
pub use notices::telling::{Told, tell_all, tell_journal};
pub use points::Points;
pub use values::batch_rider::Rider;
pub use values::command::Command;
pub use values::fleet::Fleet;
pub use values::journal::{Entry, Journal};
pub use values::outcome::{
    Answer, ChosenTrip, LateVehicle, MoveLine, Outcome, Planned, PlannedStop, TripRowLine,
};
pub use values::passenger::Passenger;
pub use values::promise::Promise;
pub use values::reply::{BookRefusal, Reply};
pub use values::rider::{BookRider, Status};
pub use values::snapshot::{Snapshot, copied_vehicles};
pub use values::state::State;
pub use values::vehicle::Vehicle;
