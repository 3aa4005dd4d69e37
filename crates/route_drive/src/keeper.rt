//! Who takes the rounds of a day.
ghost use Rattle.std.specs.Prelude.{◌≡◌, ◌++◌, ◌∷◌, [], List, OnOk};
ghost use Rattle.request_book.specs.Consistent.{IsConsistent};
ghost use Rattle.route_drive.specs.declared.day_run.DayRound.{DayRound as RoundValue};

use crate::day_run::DayRound;
use pool_base::OutOfMemory;
use std::alloc::Global;

/// Takes the rounds of a day as they are driven, one after the other. What it keeps of them is up to the keeper, so that
/// a day takes no more memory than its keeper wants.
pub trait RoundKeeper {
    ghost use Rattle.std.specs.Prelude.{List};
    ghost use Rattle.route_drive.specs.declared.day_run.DayRound.{DayRound};

    /// Whether a keeper, as it was first and as it is now, has taken these rounds.
    ghost took: { Self → Self → List DayRound → Type 0 };

    /// Takes the next round, whose journal begins with a state that a book had. It fails for want of memory alone.
    fn keep(&mut self, alloc: Global, round: DayRound) -> Result<(), OutOfMemory>
        requires { IsConsistent round.journal.base }
        ensures { OnOk result ((first : Self) (made : List RoundValue) → took first self.old made → took first self.new (made ++ round ∷ [])) };
}

/// Has the rounds as they are.
impl RoundKeeper for Vec<DayRound> {
    ghost use Rattle.std.specs.Prelude.{◌≡◌, ◌++◌};

    ghost took = { λ first now made. now.items ≡ first.items ++ made };

    fn keep(&mut self, _alloc: Global, round: DayRound) -> Result<(), OutOfMemory> {
        self.push(round)?;
        Ok(())
    }
}
