//! A counter that keeps its calls: the smallest value with a log, as an example and for tests.
ghost use Rattle.std.specs.Prelude.{◌≡◌, ◌<◌, [], IfOk, vec_capacity};

use crate::logged::Logged;
use pool_base::OutOfMemory;
use std::alloc::Global;

/// One call of a counter: its lane, what it added, and the count after it.
#[derive(Clone, Copy)]
pub struct Addition {
    pub lane: u8,
    pub amount: u64,
    pub count: u64,
}

/// A counter that goes round at its limit, and remembers what was added. It has room for a fixed number of
/// calls.
#[derive(Drop)]
pub struct Counter {
    pub limit: u32,
    pub count: u64,
    pub additions: Vec<Addition>,
    ghost some_limit: { 0 < limit },
    ghost below: { count < limit },
}

impl Counter {
    /// A counter at 0, with room for so many calls.
    pub fn new(alloc: Global, limit: u32, room: usize) -> Result<Counter, OutOfMemory>
        requires { 0 < limit }
        ensures { IfOk result (λ c. (c.limit ≡ limit) × (c.count ≡ 0) × (c.additions.items ≡ []) × (vec_capacity c.additions ≡ room)) }
    {
        let additions = Vec::with_capacity(alloc, room)?;
        Ok(Counter {
            limit,
            count: 0,
            additions,
        })
    }
}

impl Logged for Counter {
    ghost use Rattle.std.specs.Prelude.{ℕ, ◌-◌, ◌<◌, true, map, vec_len, vec_capacity};
    ghost use Rattle.seat_lock.specs.Counted.{counted_entry};

    type Call = u64;

    type Reply = u64;

    type Root = u32;

    ghost root = { λ c. c.limit };

    ghost log = { λ c. map counted_entry c.additions.items };

    ghost spare = { λ c. vec_capacity c.additions - vec_len c.additions };

    ghost light = { λ _. true };

    ghost fits = { λ limit _ reply. reply < limit };

    fn play(&mut self, _alloc: Global, lane: u8, call: u64) -> Result<u64, OutOfMemory> {
        if self.additions.len() == self.additions.capacity() {
            return Err(OutOfMemory);
        }
        let limit = u64::from(self.limit);
        let count = (self.count + call % limit) % limit;
        self.additions.push_reserved(Addition {
            lane,
            amount: call,
            count,
        });
        self.count = count;
        Ok(count)
    }
}
