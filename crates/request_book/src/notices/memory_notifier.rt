ghost use Rattle.std.specs.Prelude.{◌≡◌, ℕ, ◌+◌, ◌-◌, ◌<◌, ◌≤◌, ◌==◌, ◌⊎◌, ◌↔◌, [], List, Some, false, IsTrue, IsOk, IsErr, OnOk, OnErr, Contains};
ghost use Rattle.std.specs.List.{list_any};
ghost use Rattle.pool_io.specs.Faults.{Rose, one_more};
ghost use Rattle.request_book.specs.notices.Told.{Hears};
ghost use Rattle.request_book.specs.notices.Steady.{steady_of, calls_before};

use crate::notices::notice::Notice;
use crate::notices::notifier::Notifier;
use pool_base::OutOfMemory;
use pool_io::Failed;
use std::alloc::Global;
use std::marker::Model;

/// A notifier in memory that fails as it is told.
#[derive(Drop)]
pub struct MemoryNotifier {
    told: Vec<Notice>,
    /// How many more notices are sure to find room.
    room: u64,
    fail: Vec<u64>,
    calls: u64,
    faults: u64,
}

impl Model for MemoryNotifier {
    ghost use Rattle.std.specs.Prelude.{◌+◌, ◌≤◌, vec_len, vec_capacity};
    ghost use Rattle.request_book.specs.notices.Steady.{Inbox};

    ghost Value = { Inbox };

    ghost view = { λ n. record {
      told = n.told.items;
      room = n.room;
      fail = n.fail.items;
      calls = n.calls;
      faults = n.faults;
    } };

    ghost invariant = { λ n. vec_len n.told + n.room ≤ vec_capacity n.told };
}

impl MemoryNotifier {
    /// A notifier without room, where the calls whose number, from 0, stands in `fail` fail. It keeps the
    /// allocator.
    pub fn new(alloc: Global, fail: Vec<u64>) -> MemoryNotifier
        ensures { result ≡ record { told = []; room = 0; fail = fail.items; calls = 0; faults = 0 } }
    {
        MemoryNotifier {
            told: Vec::new(alloc),
            room: 0,
            fail,
            calls: 0,
            faults: 0,
        }
    }

    /// Makes room for at least `n` more notices. After an error nothing has changed.
    pub fn reserve(&mut self, n: u64) -> Result<(), OutOfMemory>
        ensures room { OnOk result (n ≤ self.new.room) }
        ensures kept { self.old.room ≤ self.new.room }
        ensures same { self.new ≡ record self.old { room = self.new.room } }
        ensures unchanged { OnErr result (self.new ≡ self.old) }
    {
        if n > self.room {
            self.told.reserve(n as usize)?;
            self.room = n;
        }
        Ok(())
    }

    /// The notices told so far.
    pub fn told(&self) -> &[Notice]
        ensures { result.now ≡ self.now.told }
    {
        self.told.as_slice()
    }

    /// Whether the next call fails: it is to fail, or no room is left.
    fn is_to_fail(&self) -> bool
        ensures planned { IsTrue result ↔ (Contains self.now.fail self.now.calls ⊎ (self.now.room ≡ 0)) }
        ensures stopped { IsTrue result → steady_of self.now ≡ 0 }
        ensures going { (result ≡ false) → (next : ℕ) → self.now.calls ≤ next → next ≤ self.now.calls + 1
            → steady_of self.now ≤ calls_before (self.now.room - 1) self.now.fail next + 1 }
    {
        self.room == 0 || is_among(&self.fail, self.calls)
    }
}

impl Notifier for MemoryNotifier {
    ghost told = { λ n. Some n.told };

    ghost faults = { λ n. n.faults };

    ghost steady = { λ n. steady_of n };

    fn tell(&mut self, notice: &Notice) -> Result<(), Failed>
        ensures told { Hears (Some self.old.told) (Some self.new.told) result notice.now }
        ensures faultless { OnOk result (self.new.faults ≡ self.old.faults) }
        ensures fault { OnErr result (Rose self.old.faults self.new.faults) }
        ensures never_falls { self.old.faults ≤ self.new.faults }
        ensures sure { 0 < steady_of self.old → IsOk result }
        ensures steady { steady_of self.old ≤ steady_of self.new + 1 }
        ensures planned { IsErr result ↔ (Contains self.old.fail self.old.calls ⊎ (self.old.room ≡ 0)) }
        ensures heard { OnOk result (self.old.room ≡ self.new.room + 1) }
        ensures same { self.new.fail ≡ self.old.fail }
        ensures counted { self.new.calls ≡ one_more self.old.calls }
    {
        let fails = self.is_to_fail();
        self.calls = self.calls.saturating_add(1);
        if fails {
            self.faults = self.faults.saturating_add(1);
            return Err(Failed);
        }
        self.room -= 1;
        self.told.push_reserved(*notice);
        Ok(())
    }
}

fn is_among(calls: &[u64], call: u64) -> bool
    ensures any { result ≡ list_any (λ c. c == call) calls.now }
    ensures among { IsTrue result ↔ Contains calls.now call }
{
    calls.contains(&call)
}
