//! A value that keeps a log.
ghost use Rattle.std.specs.Prelude.{◌≡◌, ℕ, ◌+◌, ◌^◌, ◌<◌, ◌≤◌, Bool, List, [], ◌∷◌, ◌++◌, length, IsTrue, IsFalse, IsOk, IfOk, OnOk, OnErr};

use pool_base::OutOfMemory;
use std::alloc::Global;

/// One entry of a log: a call of a lane, with the reply that it got. Contracts alone speak of it.
pub struct LoggedCall<C, R> {
    pub lane: u8,
    pub call: C,
    pub reply: R,
}

/// A value with calls and replies, whose log gains one entry with each call.
pub trait Logged {
    ghost use Rattle.std.specs.Prelude.{ℕ, Bool, List};
    ghost use Rattle.seat_lock.specs.declared.logged.LoggedCall.{LoggedCall};

    type Call;

    type Reply;

    /// Of what no call changes. Contracts alone speak of it.
    type Root;

    /// What no call changes.
    ghost root: { Self → Self.Root };

    /// The calls so far, each with its lane and its reply.
    ghost log: { Self → List (LoggedCall Self.Call Self.Reply) };

    /// How many light calls certainly find memory.
    ghost spare: { Self → ℕ };

    /// Whether spare room is enough for the call.
    ghost light: { Self.Call → Bool };

    /// Whether a reply goes with the root and the call.
    ghost fits: { Self.Root → Self.Call → Self.Reply → Type 0 };

    /// Plays a call of a lane. After `OutOfMemory` the log is as it was.
    fn play(
        &mut self,
        alloc: Global,
        lane: u8,
        call: Self::Call,
    ) -> Result<Self::Reply, OutOfMemory>
        ensures entry { IfOk result (λ r. log self.new ≡ log self.old ++ record { lane = lane; call = call; reply = r } ∷ []) }
        ensures fits { IfOk result (λ r. fits (root self.old) call r) }
        ensures root { root self.new ≡ root self.old }
        ensures refused { OnErr result (log self.new ≡ log self.old) }

        // A log in a `Vec` is never longer.
        ensures short { OnOk result (length (log self.new) < 2 ^ 63) }

        ensures light { IsTrue (light call) → 0 < spare self.old → IsOk result }
        ensures spends { OnOk result (IsTrue (light call) → spare self.old ≤ spare self.new + 1) }
        ensures keeps { OnErr result (spare self.old ≤ spare self.new) }
        ensures heavy { IsFalse (light call) → spare self.old ≤ spare self.new };
}
