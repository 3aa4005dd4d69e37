//! A desk as the lock plays it.
ghost use Rattle.std.specs.Prelude.{◌≡◌};
ghost use Rattle.live_dispatch.specs.Desk.{pass_of};

use crate::desk::{Desk, DeskRoot, LaneCommand, Opening};
use dispatch_engine::LockedReply;
use pool_base::OutOfMemory;
use pool_io::Sink;
use request_book::Notifier;
use seat_lock::Logged;
use std::alloc::Global;

// Which pass plays the commands of a lane.
fn pass_of(lane: u8) -> u8
    ensures { result ≡ pass_of lane }
{
    if lane == 0 { 0 } else { 1 }
}

impl<K: Sink, N: Notifier, J: Opening> Logged for Desk<K, N, J> {
    ghost use Rattle.std.specs.Prelude.{true};
    ghost use Rattle.dispatch_engine.specs.lanes.Locked.{Fits};
    ghost use Rattle.live_dispatch.specs.Desk.{desk_log, desk_root};

    type Call = LaneCommand;

    type Reply = LockedReply;

    type Root = DeskRoot;

    ghost root = { desk_root };

    ghost log = { desk_log };

    ghost spare = { λ _. 0 };

    ghost light = { λ _. true };

    ghost fits = { λ root call reply. Fits root.nodes call.command reply };

    fn play(
        &mut self,
        alloc: Global,
        lane: u8,
        call: LaneCommand,
    ) -> Result<LockedReply, OutOfMemory> {
        let LaneCommand { lane: of, command } = call;
        if lane != pass_of(of) {
            drop(command);
            return Err(OutOfMemory);
        }
        self.enter(alloc, of, command)
    }
}
