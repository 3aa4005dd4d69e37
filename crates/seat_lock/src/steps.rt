//! The steps of one turn, each a move at the lock's table.
ghost use Rattle.std.specs.Prelude.{◌≡◌, ◌≢◌, ℕ, ◌+◌, ◌%◌, ◌^◌, ◌<◌, length, [], ◌∷◌, Some, None};
ghost use Rattle.atomic_table.specs.Table.{rest};
ghost use Rattle.seat_lock.specs.declared.view.Stage.TheVariants.{Idle, Waiting, InTurn};
ghost use Rattle.seat_lock.specs.work.Views.{with_stage};
ghost use Rattle.seat_lock.specs.work.Moves.{TakesTurn, NotesAt, held};
ghost use Rattle.seat_lock.specs.work.Turns.{IsSameSeat, CanDraw, CanNote, CanServe};

use crate::bells::Bells;
use crate::logged::Logged;
use crate::moves::{Draw, Look, Note, Place, Queue, Serve};
use std::sync::Wait;

const TICKETS: usize = 0;

const SERVED: usize = 1;

const ENTRIES: usize = 2;

// Draws a ticket.
pub(crate) fn draw<B: Logged>(queue: &Queue<B>, place: &mut Place<B>) -> u64
    requires own { (place.old.table_id ≡ queue.now.shared.table_id) × (queue.now.shared.table_id.words ≡ 3) }
    requires rests { CanDraw place.old.me }
    ensures own { IsSameSeat place.old place.new }
    ensures ticket { (x : ℕ) × (x % 2 ^ 64 ≡ result) × (place.new.me ≡ (with_stage (Waiting x) place.old.me.0, place.old.me.1)) }
{
    queue.shared.fetch_add::<Draw>(place, TICKETS, 1)
}

// Looks at the served number until it is the ticket's, which takes the slot. It sleeps between looks. Whoever
// serves the ticket rings its bell after that, so a ring between the look and the sleep ends the sleep.
pub(crate) fn wait_turn<B: Logged, R: Wait>(
    rt: &R,
    queue: &Queue<B>,
    bells: &Bells,
    place: &mut Place<B>,
    ticket: u64,
)
    requires own { (place.old.table_id ≡ queue.now.shared.table_id) × (queue.now.shared.table_id.words ≡ 3) }
    requires waits { (x : ℕ) × (x % 2 ^ 64 ≡ ticket) × (place.old.me.0.stage ≡ Waiting x) }
    requires claims { 0 < length place.old.me.0.claims }
    requires empty_handed { place.old.me.1 ≡ [] }
    ensures own { IsSameSeat place.old place.new }
    ensures turn { (x : ℕ) × TakesTurn B.root B.log B.spare place.old.me.0 x place.new.me }
{
    for _ in rt.forever() {
        let heard = bells.listen(ticket);
        if queue.shared.load::<Look<B>>(place, SERVED) == ticket {
            bells.leave(ticket);
            return;
        }
        bells.sleep(rt, ticket, heard);
        bells.leave(ticket);
    }
    unreachable!()
}

// Takes the value out of the slot.
pub(crate) fn take_out<B: Logged>(queue: &Queue<B>, place: &mut Place<B>) -> B
    requires own { place.old.table_id ≡ queue.now.shared.table_id }
    requires holds { (b : B) × (place.old.me.1 ≡ (0, Some b) ∷ []) }
    ensures own { IsSameSeat place.old place.new }
    ensures value { place.old.me.1 ≡ (0, Some result) ∷ [] }
    ensures left { place.new.me ≡ (place.old.me.0, (0, None) ∷ []) }
{
    match queue.shared.exchange(place, 0, None) {
        Some(value) => value,
        None => unreachable!(),
    }
}

// Puts the value back into the slot, which is still out with this seat.
pub(crate) fn put_back<B: Logged>(queue: &Queue<B>, place: &mut Place<B>, value: B)
    requires own { place.old.table_id ≡ queue.now.shared.table_id }
    requires holds { place.old.me.1 ≡ (0, None) ∷ [] }
    ensures own { IsSameSeat place.old place.new }
    ensures value { place.new.me ≡ (place.old.me.0, (0, Some value) ∷ []) }
{
    match queue.shared.exchange(place, 0, Some(value)) {
        None => {}
        Some(_) => unreachable!(),
    }
}

// Notes the last entry of the value in the slot, and gives its position.
pub(crate) fn note<B: Logged>(queue: &Queue<B>, place: &mut Place<B>) -> u64
    requires own { (place.old.table_id ≡ queue.now.shared.table_id) × (queue.now.shared.table_id.words ≡ 3) }
    requires notes { CanNote B.log place.old.me }
    ensures own { IsSameSeat place.old place.new }
    ensures noted { NotesAt B.log place.old.me.0.start (held place.old.me.1) place.old.me.0.claims place.old.me.0.stage result place.new.me }
{
    queue.shared.fetch_add::<Note<B>>(place, ENTRIES, 1)
}

// Serves the next ticket, which gives the slot back.
pub(crate) fn serve<B: Logged>(queue: &Queue<B>, place: &mut Place<B>)
    requires own { (place.old.table_id ≡ queue.now.shared.table_id) × (queue.now.shared.table_id.words ≡ 3) }
    requires serves { CanServe B.root B.log B.spare place.old.me }
    ensures own { IsSameSeat place.old place.new }
    ensures rests { place.new.me ≡ (with_stage Idle place.old.me.0, rest place.old.me.1) }
{
    queue.shared.fetch_add::<Serve>(place, SERVED, 1);
}
