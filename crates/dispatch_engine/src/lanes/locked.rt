//! A book as the lock plays it.
ghost use Rattle.std.specs.Prelude.{◌≡◌, ◌^◌, ◌<◌, IfOk, IsOk, IsTrue, length};
ghost use Rattle.request_book.specs.Book.{IsBook, is_light};
ghost use Rattle.dispatch_engine.specs.lanes.Locked.{snapshot_before};

use pool_base::{NodeId, OutOfMemory, Sequence};
use request_book::{Book, Command, Entry, Reply, Snapshot, State};
use seat_lock::Logged;
use std::alloc::Global;
use std::marker::Model;

/// A book whose calls the lock plays. Contracts see it as the book, and know what every book keeps.
#[derive(Drop)]
pub struct LockedBook {
    pub(crate) book: Book,
}

impl Model for LockedBook {
    ghost use Rattle.request_book.specs.Book.{BookView, IsBook};

    ghost Value = { BookView };

    ghost view = { λ b. b.book };

    ghost invariant = { λ b. IsBook b.book };
}

/// A reply, and the batch that was sealed where the reply says so.
#[derive(Drop)]
pub struct LockedReply {
    pub reply: Reply,
    pub snapshot: Option<Snapshot>,
}

/// What no command changes of a book. Contracts alone speak of it.
pub struct BookRoot {
    pub nodes: Sequence<NodeId>,
    pub wait: u32,
    pub first: u64,
    pub base: State,
}

impl Logged for LockedBook {
    ghost use Rattle.request_book.specs.Book.{is_light};
    ghost use Rattle.dispatch_engine.specs.lanes.Locked.{log_of, root_of, Fits};

    type Call = Command;

    type Reply = LockedReply;

    type Root = BookRoot;

    ghost root = { root_of };

    ghost log = { log_of };

    ghost spare = { λ b. b.spare };

    ghost light = { is_light };

    ghost fits = { λ root command reply. Fits root.nodes command reply };

    fn play(&mut self, alloc: Global, lane: u8, call: Command) -> Result<LockedReply, OutOfMemory> {
        let snapshot = match sealed_by_command(&self.book, &call) {
            Ok(snapshot) => snapshot,
            Err(fault) => {
                drop(call);
                return Err(fault);
            }
        };
        let reply = match self.book.apply(lane, call) {
            Ok(reply) => reply,
            Err(fault) => {
                drop(snapshot);
                return Err(fault);
            }
        };
        let _count = count_entries(self.book.entries());
        Ok(LockedReply { reply, snapshot })
    }
}

impl LockedBook {
    pub(crate) fn of(book: Book) -> LockedBook
        ensures { result ≡ book }
    {
        book.keeps();
        LockedBook { book }
    }

    pub(crate) fn into_book(self) -> Book
        ensures book { result ≡ self }
        ensures kept { IsBook self }
    {
        let LockedBook { book } = self;
        book
    }
}

/// The batch that a command would seal now, if it is a seal.
pub fn sealed_by_command(book: &Book, command: &Command) -> Result<Option<Snapshot>, OutOfMemory>
    ensures snapshot { IfOk result (λ snapshot. snapshot ≡ snapshot_before book.now.wait book.now.state command.now) }
    ensures light { IsTrue (is_light command.now) → IsOk result }
{
    match command {
        Command::Seal { now } => book.would_seal(*now),
        _ => Ok(None),
    }
}

// How many entries there are: fewer than half of what a word can tell, as each takes memory.
fn count_entries(entries: &[Entry]) -> usize
    ensures len { result ≡ length entries.now }
    ensures short { result < 2 ^ 63 }
{
    entries.len()
}
