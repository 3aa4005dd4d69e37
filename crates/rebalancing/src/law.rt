ghost use Rattle.std.specs.Prelude.{◌≡◌, ℕ, ◌<◌, ◌≤◌, length};
ghost use Rattle.pool_base.specs.Times.{travel_time};
ghost use Rattle.rebalancing.specs.Matching.{IsBestMatching, IsMatching};
ghost use Rattle.rebalancing.specs.Potentials.{ArePotentials};

use pool_base::Times;

/// Potentials show that a matching of at most 500 vehicles is best.
///
/// The sum of the pairs' worths less their seconds is the sum of all prices, the negated potentials; of any other
/// matching it is at most that, since its pairs are covered by prices of different places.
pub fn potentials_show_best(
    pairs: &[(usize, usize)],
    from: &[i64],
    to: &[i64],
    idle: &[usize],
    wanted: &[usize],
    times: &Times,
)
    requires few_idle { length idle.now ≤ 500 }
    requires matching { IsMatching (travel_time times.now) idle.now wanted.now pairs.now }
    requires potentials { ArePotentials (travel_time times.now) idle.now wanted.now pairs.now from.now to.now }
    ensures { IsBestMatching (travel_time times.now) idle.now wanted.now pairs.now }
{}
