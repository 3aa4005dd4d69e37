//! The claim word, from which workers draw the numbers of pieces.
ghost use Rattle.std.specs.Prelude.{◌≡◌, ℕ, ◌+◌, ◌<◌, ◌≤◌, [], ◌∷◌, ◌++◌, length, sum_by};
ghost use Rattle.shared_work.specs.work.Claims.{draws, past};

use atomic_table::{Join, Play, Seat, Split, Table, TableRule};
use std::alloc::Global;
use std::collections::LinkedList;

/// What the claim word is told once: how many pieces there are, and how many workers.
#[derive(Drop)]
pub(crate) struct Quota {
    pub(crate) pieces: u32,
    pub(crate) workers: u8,
}

/// What a seat at the claim word knows: for how many workers it stands, and which numbers it drew. No
/// value of it is made.
pub struct Drawn {
    pub parts: u64,
    pub numbers: LinkedList<u64>,
}

pub(crate) struct EachOnce;

impl TableRule<(), Drawn, Quota> for EachOnce {
    ghost use Rattle.std.specs.Prelude.{[]};
    ghost use Rattle.shared_work.specs.work.Claims.{Kept, draws};

    ghost holds = { λ quota. Kept quota.pieces quota.workers };

    ghost first = { λ quota. draws quota.workers [] };
}

pub(crate) type Claims = Table<(), Drawn, Quota, EachOnce, Global>;

pub(crate) type Hand = Seat<(), Drawn>;

pub(crate) struct Claiming;

impl Play<(), Drawn> for Claiming {
    ghost use Rattle.shared_work.specs.work.Claims.{drew};

    ghost then = { drew };
}

pub(crate) struct Parts;

impl Split<Drawn> for Parts {
    ghost use Rattle.shared_work.specs.work.Claims.{others_kept, one_given};

    ghost left = { others_kept };

    ghost right = { one_given };
}

impl Join<Drawn> for Parts {
    ghost use Rattle.std.specs.Prelude.{[]};
    ghost use Rattle.shared_work.specs.work.Claims.{draws, joined};

    ghost both = { joined };

    ghost spent = { draws 0 [] };
}

// Draws the next number. A hand that drew one past the pieces draws no more.
pub(crate) fn draw(claims: &Claims, hand: &mut Hand) -> u64
    requires own { (hand.old.table_id ≡ claims.now.shared.table_id) × (claims.now.shared.table_id.words ≡ 1) }
    requires part { 0 < hand.old.me.0.parts }
    requires none_past { sum_by (past claims.now.shared.key.pieces) hand.old.me.0.numbers ≡ 0 }
    ensures own { (hand.new.table_id ≡ hand.old.table_id) × (hand.new.id ≡ hand.old.id) }
    ensures number { hand.new.me ≡ (draws hand.old.me.0.parts (hand.old.me.0.numbers ++ result ∷ []), hand.old.me.1) }
    ensures rises { length hand.old.me.0.numbers ≤ result }
{
    claims.shared.fetch_add::<Claiming>(hand, 0, 1)
}
