ghost use Rattle.std.specs.Prelude.{◌≡◌, ◌==◌, ◌<◌, ◌≤◌, ℕ, MatchOption};
ghost use Rattle.pool_base.specs.TravelTime.{never, longest, IsTable};

use crate::times_check::check;

/// A square table of shortest seconds between places, row by row, flat.
///
/// The type keeps that the diagonal is zero, that no detour is shorter, and that no number is above
/// 1,000,000,000; "cannot be reached" counts as greater than every number.
#[derive(Drop)]
pub struct Times {
    points: usize,
    cells: Vec<u32>,
    pub ghost table: { IsTable points cells.items },
}

/// Why cells are no table of shortest times.
#[derive(Clone, Copy)]
pub enum TimesFault {
    /// There isn't one cell for each pair of places.
    Size,
    /// This cell is above 1,000,000,000.
    TooLong { a: u64, b: u64 },
    /// The cell from this place to itself isn't 0.
    Diagonal { a: u64 },
    /// The cell from `a` to `c` exceeds the sum of those from `a` to `b` and from `b` to `c`.
    Triangle { a: u64, b: u64, c: u64 },
}

impl Times {
    ghost use Rattle.std.specs.Prelude.{◌↔◌, IsOk, IfOk};
    ghost use Rattle.std.specs.Result.{IsErrOf};
    ghost use Rattle.pool_base.specs.Times.{point_count, travel_time};
    ghost use Rattle.pool_base.specs.declared.times.TimesFault.{TimesFault};
    ghost use Rattle.pool_base.specs.TimesFault.{IsFirstFault};

    /// The cell that stands for "cannot be reached".
    pub const NEVER: u32 = u32::MAX;

    /// A table of these cells, row by row.
    pub fn of(points: usize, cells: Vec<u32>) -> Times
        requires { IsTable points cells.items }
        ensures points { point_count result ≡ points }
        ensures cells { result.cells ≡ cells }
    {
        Times { points, cells }
    }

    /// A table of these cells, row by row, or the first thing that is wrong with them. It looks at
    /// every three places.
    pub fn checked(points: usize, cells: Vec<u32>) -> Result<Times, TimesFault>
        ensures accepts { IsOk result ↔ IsTable points cells.items }
        ensures kept { IfOk result (λ t. (point_count t ≡ points) × (t.cells ≡ cells)) }
        ensures refused { (fault : TimesFault) → IsErrOf result fault ↔ IsFirstFault points cells.items fault }
    {
        match check(points, &cells) {
            Ok(()) => Ok(Times { points, cells }),
            Err(fault) => Err(fault),
        }
    }

    /// How many places there are.
    pub fn len(&self) -> usize
        ensures { result ≡ point_count self.now }
    {
        self.points
    }

    /// Whether there is no place.
    pub fn is_empty(&self) -> bool
        ensures { result ≡ (point_count self.now == 0) }
    {
        self.points == 0
    }

    /// The seconds from one place to another, `NEVER` where there is no way.
    pub fn seconds(&self, a: usize, b: usize) -> u32
        requires from { a < point_count self.now }
        requires to { b < point_count self.now }
        ensures { result ≡ travel_time self.now a b }
    {
        self.cells[a * self.points + b]
    }

    /// The seconds from one place to another; `None` where there is no way.
    pub fn get(&self, a: usize, b: usize) -> Option<u32>
        requires from { a < point_count self.now }
        requires to { b < point_count self.now }
        ensures { MatchOption result (travel_time self.now a b ≡ never) (λ s. (s ≡ travel_time self.now a b) × (s ≤ longest)) }
    {
        let seconds = self.seconds(a, b);
        if seconds == Times::NEVER {
            None
        } else {
            Some(seconds)
        }
    }
}
