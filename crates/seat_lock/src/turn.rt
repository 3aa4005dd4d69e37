//! A lane's turn at the lock.
ghost use Rattle.std.specs.Prelude.{◌≡◌, ◌+◌, ◌≤◌, [], ◌∷◌, ◌++◌, IsTrue, IfOk, OnErr};
ghost use Rattle.seat_lock.specs.Values.{IsPassOf, entry};

use crate::lock::SeatLock;
use crate::logged::Logged;
use crate::pass::Pass;
use crate::steps::{draw, note, put_back, serve, take_out, wait_turn};
use pool_base::OutOfMemory;
use std::alloc::Global;
use std::sync::Wait;

/// A call that was played: its position in the log, counted from the start of the lock, and its reply.
#[derive(Drop)]
pub struct Played<R> {
    pub position: u64,
    pub reply: R,
}

impl<B: Logged> SeatLock<B> {
    /// Waits for the lane's turn, and plays a call. The position is no less than what the pass had seen.
    /// After `OutOfMemory` the call is given up, and the log is as it was at that turn.
    pub fn with_turn<R: Wait>(
        &self,
        rt: &R,
        alloc: Global,
        pass: &mut Pass<B>,
        call: B::Call,
    ) -> Result<Played<B::Reply>, OutOfMemory>
        requires { IsPassOf self.now pass.old }
        ensures pass { IsPassOf self.now pass.new × (pass.new.lane ≡ pass.old.lane) }
        ensures calls { IfOk result (λ p. pass.new.calls ≡ pass.old.calls ++ (p.position, entry pass.old.lane call p.reply) ∷ []) }
        ensures position { IfOk result (λ p. pass.old.seen ≤ p.position) }
        ensures seen { IfOk result (λ p. pass.new.seen ≡ p.position + 1) }
        ensures fits { IfOk result (λ p. B.fits (B.root self.now.start) call p.reply) }
        ensures refused { OnErr result ((pass.new.calls ≡ pass.old.calls) × (pass.old.seen ≤ pass.new.seen)) }

        // Where spare room is enough for the call, others have used it up.
        ensures light { OnErr result (IsTrue (B.light call) → B.spare self.now.start ≤ pass.new.seen) }
    {
        let lane = pass.lane;
        let place = &mut pass.seat;
        let ticket = draw(&self.queue, place);
        wait_turn(rt, &self.queue, &self.bells, place, ticket);
        let mut value = take_out(&self.queue, place);
        let played = value.play(alloc, lane, call);
        put_back(&self.queue, place, value);
        let Ok(reply) = played else {
            serve(&self.queue, place);
            self.bells.ring(ticket.wrapping_add(1));
            return Err(OutOfMemory);
        };
        let position = note(&self.queue, place);
        serve(&self.queue, place);
        self.bells.ring(ticket.wrapping_add(1));
        Ok(Played { position, reply })
    }
}
