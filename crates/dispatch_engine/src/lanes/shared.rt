//! The book that lanes share.
ghost use Rattle.std.specs.Prelude.{◌≡◌, ◌≤◌, All, IfOk, IfErr, IsOk, IsTrue, OnErr};
ghost use Rattle.request_book.specs.Book.{IsBook, is_light};
ghost use Rattle.request_book.specs.declared.values.command.Command.TheVariants.{Seal};
ghost use Rattle.seat_lock.specs.Values.{AreAllPasses, IsNew, IsPassOf};
ghost use Rattle.dispatch_engine.specs.lanes.Shared.{with_snapshot, HasCalled, HasCalledSome, IsFinished, IsSamePass};

use crate::lanes::locked::{LockedBook, LockedReply};
use pool_base::{OutOfMemory, Second};
use request_book::{Book, Command, Reply, Snapshot, rounds_join};
use seat_lock::{Played, Refused, SeatLock};
use std::alloc::Global;
use std::marker::Model;
use std::sync::Wait;

/// The pass of a lane to a shared book. Its calls are commands, each with its reply and the batch that it
/// sealed.
pub type Pass = seat_lock::Pass<LockedBook>;

/// A book under a lock. Contracts see its table, the book that it was started with, and how many lanes
/// it has.
#[derive(Drop)]
pub struct SharedBook {
    lock: SeatLock<LockedBook>,
}

impl Model for SharedBook {
    ghost use Rattle.request_book.specs.Book.{BookView, IsBook};
    ghost use Rattle.seat_lock.specs.Values.{LockValue};

    ghost Value = { LockValue BookView };

    ghost view = { λ s. s.lock };

    ghost invariant = { λ s. IsBook s.lock.start };
}

/// An answer to a command: its position among the entries since the start, and the reply.
#[derive(Drop)]
pub struct Receipt {
    pub position: u64,
    pub reply: Reply,
}

/// An answer to a seal. The snapshot is there exactly where the reply is that a batch is sealed.
#[derive(Drop)]
pub struct SealReceipt {
    pub receipt: Receipt,
    pub snapshot: Option<Snapshot>,
}

/// There was no memory to finish a shared book. All comes back untouched. `finish` takes no memory today,
/// and says so: it never gives this answer.
#[derive(Drop)]
pub struct UnfinishedBook {
    pub lock: SharedBook,
    pub passes: Vec<Pass>,
}

impl SharedBook {
    /// Shares a book among 1 to 16 lanes, with a pass for each lane, by rising lane. For want of memory the
    /// book comes back.
    pub fn start(
        alloc: Global,
        book: Book,
        lanes: u8,
    ) -> Result<(SharedBook, Vec<Pass>), Refused<Book>>
        requires { (1 ≤ lanes) × (lanes ≤ 16) }
        ensures book { IfOk result (λ r. (r.0.start ≡ book) × (r.0.lanes ≡ lanes)) }
        ensures passes { IfOk result (λ r. AreAllPasses r.0 r.1.items × All IsNew r.1.items) }
        ensures refused { IfErr result (λ e. e.value ≡ book) }
    {
        match SeatLock::start(alloc, LockedBook::of(book), lanes) {
            Ok((lock, passes)) => Ok((SharedBook { lock }, passes)),
            Err(refused) => Err(Refused {
                value: refused.value.into_book(),
            }),
        }
    }

    /// Waits for the lane's turn, and lets the book answer a command. After `OutOfMemory` the command is
    /// given up, and the book is as it was at that turn.
    pub fn call<R: Wait>(
        &self,
        rt: &R,
        alloc: Global,
        pass: &mut Pass,
        command: Command,
    ) -> Result<Receipt, OutOfMemory>
        requires { IsPassOf self.now pass.old }
        ensures pass { IsPassOf self.now pass.new × (pass.new.lane ≡ pass.old.lane) }
        ensures call { IfOk result (λ r. HasCalledSome self.now.start.nodes pass.old command r pass.new) }
        ensures refused { OnErr result (IsSamePass pass.old pass.new) }

        // Where the book has room, others have used it up.
        ensures light { OnErr result (IsTrue (is_light command) → self.now.start.spare ≤ pass.new.seen) }
    {
        let Played { position, reply } = self.lock.with_turn(rt, alloc, pass, command)?;
        let LockedReply { reply, snapshot: _ } = reply;
        Ok(Receipt { position, reply })
    }

    /// Waits for the lane's turn, and seals a batch. The snapshot is the one that then stands sealed in the
    /// book. After `OutOfMemory` the seal is given up, and the book is as it was at that turn.
    pub fn seal<R: Wait>(
        &self,
        rt: &R,
        alloc: Global,
        pass: &mut Pass,
        now: Second,
    ) -> Result<SealReceipt, OutOfMemory>
        requires { IsPassOf self.now pass.old }
        ensures pass { IsPassOf self.now pass.new × (pass.new.lane ≡ pass.old.lane) }
        ensures call { IfOk result (λ r. HasCalled self.now.start.nodes pass.old (Seal now) r.receipt.position (with_snapshot r.receipt.reply r.snapshot) pass.new) }
        ensures refused { OnErr result (IsSamePass pass.old pass.new) }
    {
        let seal = Command::Seal { now };
        let Played { position, reply } = self.lock.with_turn(rt, alloc, pass, seal)?;
        let LockedReply { reply, snapshot } = reply;
        let receipt = Receipt { position, reply };
        Ok(SealReceipt { receipt, snapshot })
    }

    /// The book, once all passes are back. Its entries since the start are just the calls of the passes.
    pub fn finish(self, passes: Vec<Pass>) -> Result<Book, UnfinishedBook>
        requires { AreAllPasses self passes.items }
        ensures finished { IsOk result }
        ensures calls { IfOk result (λ book. IsFinished self.start passes.items book) }
        ensures kept { IfOk result IsBook }
    {
        rounds_join();
        match self.lock.finish(passes) {
            Ok(locked) => Ok(locked.into_book()),
            Err(unfinished) => Err(UnfinishedBook {
                lock: SharedBook {
                    lock: unfinished.lock,
                },
                passes: unfinished.passes,
            }),
        }
    }
}
