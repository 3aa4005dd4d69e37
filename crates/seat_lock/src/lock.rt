//! The lock.
ghost use Rattle.std.specs.Prelude.{◌≡◌, ℕ, ◌<◌, ◌≤◌, [], ◌∷◌, All, IfOk, IfErr, IsOk};
ghost use Rattle.seat_lock.specs.Values.{AreAllPasses, IsNew, GainsCalls};

use crate::bells::Bells;
use crate::hand_out::{close, hand_out, join_all};
use crate::logged::Logged;
use crate::moves::{Key, Queue};
use crate::pass::Pass;
use atomic_table::Table;
use std::alloc::Global;
use std::marker::Model;
use std::snapshot::Snapshot;

/// A lock round a value with a log. Contracts see its table, the value that it was started with, and how
/// many lanes it has.
#[derive(Drop)]
pub struct SeatLock<B: Logged> {
    pub(crate) queue: Queue<B>,
    pub(crate) bells: Bells,
}

impl<B: Logged> Model for SeatLock<B> {
    ghost use Rattle.std.specs.Prelude.{◌≡◌, ◌<◌};
    ghost use Rattle.seat_lock.specs.Values.{LockValue};

    ghost Value = { LockValue B };

    ghost view = { λ s. record { table = s.queue.shared.table_id; start = s.queue.shared.key.opening.value; lanes = s.queue.shared.key.lanes } };

    ghost invariant = { λ s. (s.queue.shared.table_id.words ≡ 3) × (s.queue.shared.table_id.slots ≡ 1) × (0 < s.queue.shared.key.lanes) };
}

/// There was no memory to start a lock. The value comes back.
#[derive(Drop)]
pub struct Refused<B> {
    pub value: B,
}

/// There was no memory to finish a lock. All comes back untouched. `finish` takes no memory today, and
/// says so: it never gives this answer.
#[derive(Drop)]
pub struct Unfinished<B: Logged> {
    pub lock: SeatLock<B>,
    pub passes: Vec<Pass<B>>,
}

impl<B: Logged> SeatLock<B> {
    /// A lock round the value, with 1 to 16 lanes, and a pass for each lane, by rising lane.
    pub fn start(
        alloc: Global,
        value: B,
        lanes: u8,
    ) -> Result<(SeatLock<B>, Vec<Pass<B>>), Refused<B>>
        requires { (1 ≤ lanes) × (lanes ≤ 16) }
        ensures lock { IfOk result (λ r. (r.0.start ≡ value) × (r.0.lanes ≡ lanes)) }
        ensures passes { IfOk result (λ r. AreAllPasses r.0 r.1.items × All IsNew r.1.items) }
        ensures refused { IfErr result (λ e. e.value ≡ value) }
    {
        let Ok(mut passes) = Vec::with_capacity(alloc, usize::from(lanes)) else {
            return Err(Refused { value });
        };
        let Ok(mut slots) = Vec::with_capacity(alloc, 1) else {
            return Err(Refused { value });
        };
        let about = Key {
            opening: Snapshot::of(&value),
            lanes,
        };
        slots.push_reserved(Some(value));
        match Table::new(alloc, &[0, 0, 0], slots, &about) {
            Ok((queue, first)) => {
                hand_out(&queue, first, lanes, &mut passes);
                Ok((
                    SeatLock {
                        queue,
                        bells: Bells::new(),
                    },
                    passes,
                ))
            }
            Err(refused) => Err(Refused {
                value: only(refused.slots),
            }),
        }
    }

    /// The value, once all passes are back: its log has gained just their calls, and its root is as it was.
    pub fn finish(self, passes: Vec<Pass<B>>) -> Result<B, Unfinished<B>>
        requires { AreAllPasses self passes.items }
        ensures finished { IsOk result }
        ensures log { IfOk result (λ b. GainsCalls (B.log self.start) (B.log b) passes.items) }
        ensures root { IfOk result (λ b. B.root b ≡ B.root self.start) }
    {
        let SeatLock { queue, bells: _ } = self;
        let all = join_all(&queue, passes);
        Ok(close(queue, all))
    }
}

fn only<B>(mut slots: Vec<Option<B>>) -> B
    requires { (b : B) × (slots.items ≡ Some b ∷ []) }
    ensures { slots.items ≡ Some result ∷ [] }
{
    let Some(Some(value)) = slots.pop() else {
        unreachable!()
    };
    slots.destroy_empty();
    value
}
