//! Laws of the first-fit multipliers: each is a call with no code, whose clause is the law.
ghost use Rattle.std.specs.Prelude.{◌≡◌, ◌*◌, ℕ, ℤ, pos, ◌+ℤ◌, ◌*ℤ◌, ◌≤ℤ◌};
ghost use Rattle.plan_rules.specs.Sums.{int_sum_below};
ghost use Rattle.plan_rules.specs.Graph.{Graph};
ghost use Rattle.plan_rules.specs.GoodGraph.{IsGoodGraph};
ghost use Rattle.plan_rules.specs.Multipliers.{Usable, multiplier_at, first_fit_value};
ghost use Rattle.plan_rules.specs.Terms.{least_cost, first_fit};

/// A first-fit multiplier is never negative, and at most the penalty.
pub fn first_fit_is_between_zero_and_the_penalty()
    ensures low { (g : Graph) (usable : Usable) (r : ℕ) → IsGoodGraph g → pos 0 ≤ℤ multiplier_at (first_fit g usable) r }
    ensures high { (g : Graph) (usable : Usable) (r : ℕ) → IsGoodGraph g → multiplier_at (first_fit g usable) r ≤ℤ pos (1024 * g.penalty) }
{}

/// The leaf value of the first-fit multipliers is that of the vehicles' cheapest usable rows, in 1/1024
/// second, and of the multipliers, all added up.
pub fn first_fit_value_is_a_sum()
    ensures { (g : Graph) (usable : Usable) → IsGoodGraph g → first_fit_value g usable ≡ pos 1024 *ℤ int_sum_below g.vehicles (least_cost g usable) +ℤ int_sum_below g.riders (multiplier_at (first_fit g usable)) }
{}
