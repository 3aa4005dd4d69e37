//! A driven day keeps its promises.
ghost use Rattle.std.specs.Prelude.{◌≡◌, [], List, None, IfErr, IfOk};
ghost use Rattle.route_drive.specs.Day.{day_fault};
ghost use Rattle.route_drive.specs.Driven.{IsLateAnswer, IsNewBook};
ghost use Rattle.route_drive.specs.Promises.{IsRunOfDay};
ghost use Rattle.route_drive.specs.declared.day_run.DayRound.{DayRound};

use crate::day_run::DriveFault;
use crate::drive::driven_day;
use crate::keeper::RoundKeeper;
use dispatch_engine::BatchSolver;
use dispatch_report::DayCounts;
use input_rows::Script;
use request_book::Book;
use row_tables::Drafter;
use shared_work::Gate;
use std::alloc::Global;
use std::sync::Wait;
use std::thread::Threads;
use travel_times::Ways;

/// Drives a day: runs its rounds, and before each seal enters what the vehicles did since, which is the stops of
/// their last plan at their printed seconds, and then where each vehicle is. A last round has the stops that are
/// left; of an empty day there is none.
///
/// A vehicle runs the stops of its chosen trip over shortest walks, with a dwell after each; an idle one goes to
/// the rider whom its move names. The journals are a run of the script with all that is entered, and each is handed to
/// the keeper as soon as it stands.
///
/// The day keeps its promises: no vehicle is late and no promise lapses in any batch, no vehicle is above its seats,
/// and whoever is picked up is picked up within the wait and by the first pickup that was promised, and dropped within
/// the delay. So the worst wait and the worst delay are within the settings.
///
/// `TooLate` comes where a second above 1,000,000,000 would be entered; the keeper then has the rounds before. After
/// either error the book is given up.
pub fn drive_day<W: Ways, D: Drafter, G: Gate, K: RoundKeeper>(
    rt: &(impl Threads + Wait + Sync),
    alloc: Global,
    book: Book,
    day: &Script,
    solver: &BatchSolver<'_, W, D, G>,
    keeper: &mut K,
) -> Result<DayCounts, DriveFault>
    requires new { IsNewBook solver.now.settings.now solver.now.network.now book }
    requires day { day_fault day.now ≡ None }
    requires fresh { K.took keeper.old keeper.old [] }
    ensures run { IfOk result (λ run. (made : List DayRound) × K.took keeper.old keeper.new made × IsRunOfDay solver.now.settings.now solver.now.network.now book.state day.now made run) }
    ensures late { IfErr result (IsLateAnswer solver.now.settings.now solver.now.network.now (K.took keeper.old keeper.new) book.state day.now) }
{
    book.keeps();
    day.keeps();
    solver.network.keeps();
    driven_day(rt, alloc, book, day, solver, keeper)
}
