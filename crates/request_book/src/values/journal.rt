use crate::values::command::Command;
use crate::values::reply::Reply;
use crate::values::state::State;
use pool_base::Sequence;

/// A command of a lane, with its reply.
#[derive(Drop)]
pub struct Entry {
    pub lane: u8,
    pub command: Command,
    pub reply: Reply,
}

/// The entries of a round, with the state before them and the position of the first.
#[derive(Drop)]
pub struct Journal {
    pub first: u64,
    pub base: State,
    pub entries: Sequence<Entry>,
}
