//! How seats are given to passes at the start and taken back at the end.
ghost use Rattle.std.specs.Prelude.{◌≡◌, ℕ, ◌<◌, ◌≤◌, [], ◌∷◌, length, vec_len, vec_capacity, All, Some, slice_index_or};
ghost use Rattle.seat_lock.specs.declared.view.Stage.TheVariants.{Idle};
ghost use Rattle.seat_lock.specs.Values.{GainsCalls};
ghost use Rattle.seat_lock.specs.work.Views.{first_view};
ghost use Rattle.seat_lock.specs.work.Passes.{new_pass, AreReturned, HasAll, IsClosed};

use crate::logged::Logged;
use crate::moves::{Lanes, Place, Queue};
use crate::pass::Pass;

// Makes a pass for each lane, of the seat that claims all lanes.
pub(crate) fn hand_out<B: Logged>(
    queue: &Queue<B>,
    mut first: Place<B>,
    lanes: u8,
    passes: &mut Vec<Pass<B>>,
)
    requires own { (first.table_id ≡ queue.now.shared.table_id) × (queue.now.shared.table_id.words ≡ 3) }
    requires claims { first.me ≡ (first_view queue.now.shared.key.opening.value lanes, []) }
    requires room { (passes.old.items ≡ []) × (vec_capacity passes.old ≡ lanes) }
    ensures len { length passes.new.items ≡ lanes }
    ensures each { (k : ℕ) (d : _) → k < lanes → slice_index_or passes.new.items k d ≡ new_pass queue.now.shared.table_id queue.now.shared.key.opening.value k }
{
    for lane in 0..lanes {
        let seat = queue.shared.split_seat::<Lanes>(&mut first);
        passes.push_reserved(Pass { seat, lane });
    }
}

// One seat that claims all lanes, of all passes.
pub(crate) fn join_all<B: Logged>(queue: &Queue<B>, mut passes: Vec<Pass<B>>) -> Place<B>
    requires own { queue.now.shared.table_id.words ≡ 3 }
    requires passes { AreReturned queue.now.shared.table_id passes.items }
    requires some_pass { 0 < vec_len passes }
    ensures own { result.table_id ≡ queue.now.shared.table_id }
    ensures all { HasAll passes.items result.me }
{
    let Some(last) = passes.pop() else {
        unreachable!()
    };
    let mut all = last.into_place();
    while let Some(pass) = passes.pop() {
        queue.shared.join_seat::<Lanes>(&mut all, pass.into_place());
    }
    all
}

// The value of a lock whose lanes are all claimed by one seat.
pub(crate) fn close<B: Logged>(queue: Queue<B>, all: Place<B>) -> B
    requires own { (all.table_id ≡ queue.shared.table_id) × (queue.shared.table_id.slots ≡ 1) }
    requires claims { (all.me.0.stage ≡ Idle) × (length all.me.0.claims ≡ queue.shared.key.lanes) }
    ensures { IsClosed B.root B.log queue.shared.key.opening.value queue.shared.key.lanes all.me.0.claims result }
{
    let mut closed = queue.close_with(all);
    let value = closed.take(0);
    closed.free();
    match value {
        Some(value) => value,
        None => unreachable!(),
    }
}
