//! What a seat at the lock's table knows.
use crate::logged::LoggedCall;
use std::collections::LinkedList;

/// Where a seat stands in the queue.
pub enum Stage<C, R> {
    Idle,
    /// It has this ticket.
    Waiting(u64),
    /// Its ticket's turn has come, and these are all entries so far.
    InTurn(u64, LinkedList<LoggedCall<C, R>>),
}

/// A lane, and the calls that it made, each at its position.
pub struct Claim<C, R> {
    pub lane: u8,
    pub calls: LinkedList<(u64, LoggedCall<C, R>)>,
}

/// What a seat knows. No value of it is made.
pub struct View<B, C, R> {
    /// The value that the lock was started with. A spent view has none.
    pub start: Option<B>,
    pub claims: LinkedList<Claim<C, R>>,
    /// How many entries it has seen.
    pub seen: u64,
    pub stage: Stage<C, R>,
}
