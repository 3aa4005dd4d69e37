//! The lanes of a round, as entries come.
ghost use Rattle.std.specs.Prelude.{◌≡◌, ◌↔◌, ◌<◌, ◌++◌, ◌∷◌, [], None, Some, ℕ, List, IfOk, IsTrue, MatchOption, length, replicate, slice_get, slice_set};
ghost use Rattle.dispatch_engine.specs.lanes.Progress.{AreDone, HaveCome, IsNext, IsRest, at_start, progress_after, progress_at};
ghost use Rattle.request_book.specs.declared.values.command.Command.{Command as OneCommand};
ghost use Rattle.request_book.specs.declared.values.journal.Entry.{Entry as OneEntry};
ghost use Rattle.input_rows.specs.script.Round.{NumberedLanes, lane_at};
ghost use Rattle.dispatch_engine.specs.lanes.Locked.{sealed_by};

use crate::lanes::lane_progress::LaneProgress;
use input_rows::Round;
use pool_base::OutOfMemory;
use request_book::{Command, Reply};
use std::alloc::Global;
use std::marker::Model;

/// How far the sixteen lanes of a round have come.
#[derive(Drop)]
pub struct Progress {
    lanes: Vec<LaneProgress>,
}

impl Model for Progress {
    ghost use Rattle.std.specs.Prelude.{◌≡◌, List, length};
    ghost use Rattle.dispatch_engine.specs.declared.lanes.lane_progress.LaneProgress.{LaneProgress as OneProgress};

    ghost Value = { List OneProgress };

    ghost view = { λ p. p.lanes.items };

    ghost invariant = { λ p. length p.lanes.items ≡ 16 };
}

impl Progress {
    /// No lane has begun.
    pub fn at_start(alloc: Global) -> Result<Progress, OutOfMemory>
        ensures come { IfOk result (λ lanes. (round : NumberedLanes) → HaveCome round lanes []) }
        ensures stands { IfOk result (λ lanes. lanes ≡ replicate 16 at_start) }
    {
        let lanes = vec![in alloc; LaneProgress {
            taken: 0,
            pending: None
        }; 16]?;
        Ok(Progress { lanes })
    }

    /// How far a lane has come.
    pub fn progress_of(&self, lane: usize) -> LaneProgress
        requires { lane < 16 }
        ensures { result ≡ progress_at self.now lane }
    {
        self.lanes[lane]
    }

    /// The command of a lane that is to be taken next, where no batch waits for its close.
    pub fn command<'a>(&self, round: &'a Round, lane: usize) -> Option<&'a Command>
        requires { lane < 16 }
        ensures { MatchOption result (slice_get (lane_at round.entry.now lane) (progress_at self.entry.now lane).taken ≡ None)
            (λ command. slice_get (lane_at round.entry.now lane) (progress_at self.entry.now lane).taken ≡ Some command.now) }
    {
        round.lane(lane).get(self.lanes[lane].taken)
    }

    /// Notes an entry of this lane with this reply. Its command is the one with which the lane goes on.
    pub fn take(&mut self, round: &Round, lane: usize, reply: Reply)
        requires { lane < 16 }
        ensures come { (entries : List OneEntry) (command : OneCommand) → HaveCome round.now self.old entries → IsNext (lane_at round.now lane) (progress_at self.old lane) command
            → HaveCome round.now self.new (entries ++ record { lane = lane; command = command; reply = reply } ∷ []) }
        ensures stands { (command : OneCommand) → IsNext (lane_at round.now lane) (progress_at self.old lane) command
            → self.new ≡ slice_set self.old lane (progress_after (progress_at self.old lane) reply) }
        ensures sixteen { length self.old ≡ 16 }
    {
        let progress = self.lanes[lane];
        self.lanes[lane] = behind(progress, round.lane(lane), reply);
    }

    /// Whether each lane is at its end.
    pub fn are_done(&self, round: &Round) -> bool
        ensures { IsTrue result ↔ AreDone round.now self.now }
    {
        are_done(&self.lanes, round)
    }
}

/// How far a lane has come with one more entry.
fn behind(progress: LaneProgress, commands: &[Command], reply: Reply) -> LaneProgress
    ensures { (command : OneCommand) → IsNext commands.now progress command → result ≡ progress_after progress reply }
{
    match progress.pending {
        None => {
            if progress.taken >= commands.len() {
                return progress;
            }
            LaneProgress {
                taken: progress.taken + 1,
                pending: sealed_by(reply),
            }
        }
        Some(_batch) => LaneProgress {
            taken: progress.taken,
            pending: None,
        },
    }
}

fn are_done(lanes: &[LaneProgress], round: &Round) -> bool
    requires { length lanes.now ≡ 16 }
    ensures { IsTrue result ↔ AreDone round.now lanes.now }
{
    round.keeps();
    for lane in 0..16 {
        if !is_done(lanes[lane], round.lane(lane)) {
            return false;
        }
    }
    true
}

/// Whether all commands were taken and no batch waits for its close.
fn is_done(progress: LaneProgress, commands: &[Command]) -> bool
    ensures { IsTrue result ↔ IsRest commands.now progress [] }
{
    match progress.pending {
        Some(_batch) => false,
        None => progress.taken >= commands.len(),
    }
}

/// The batch that a seal put up, by its reply.
fn sealed_by(reply: Reply) -> Option<u64>
    ensures { result ≡ sealed_by reply }
{
    match reply {
        Reply::Sealed { batch } => Some(batch),
        _ => None,
    }
}
