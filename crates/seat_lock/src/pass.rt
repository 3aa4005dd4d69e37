//! The pass of a lane.
ghost use Rattle.std.specs.Prelude.{◌≡◌, [], ◌∷◌};
ghost use Rattle.seat_lock.specs.declared.view.Stage.TheVariants.{Idle};
ghost use Rattle.seat_lock.specs.work.Views.{claim};

use crate::logged::Logged;
use crate::moves::Place;
use std::marker::Model;

/// The pass of one lane. Contracts see its lock's table and opening value, its lane, the calls that it
/// made with their replies and positions, and how much of the log it has seen.
pub struct Pass<B: Logged> {
    pub(crate) seat: Place<B>,
    pub(crate) lane: u8,
}

impl<B: Logged> Model for Pass<B> {
    ghost use Rattle.std.specs.Prelude.{◌≡◌};
    ghost use Rattle.seat_lock.specs.Values.{PassValue};
    ghost use Rattle.seat_lock.specs.work.Views.{pass_value, IsPass};

    ghost Value = { PassValue B B.Call B.Reply };

    ghost view = { λ s. pass_value s.seat s.lane };

    ghost invariant = { λ s. IsPass s.seat s.lane };
}

impl<B: Logged> Pass<B> {
    /// The lane of the pass.
    pub fn lane(&self) -> u8
        ensures { result ≡ self.now.lane }
    {
        self.lane
    }

    // The seat of the pass.
    pub(crate) fn into_place(self) -> Place<B>
        ensures own { (result.table_id ≡ self.table) × (result.me.0.start ≡ self.start) }
        ensures rests { (result.me.0.stage ≡ Idle) × (result.me.1 ≡ []) }
        ensures claims { result.me.0.claims ≡ claim self.lane self.calls ∷ [] }
    {
        let Pass { seat, lane: _ } = self;
        seat
    }
}

impl<B: Logged> Drop for Pass<B> {
    fn drop(self) {
        let Pass { seat: _, lane: _ } = self;
    }
}
