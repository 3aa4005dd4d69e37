//! Laws of plans, multipliers and trees: each is a call with no code, whose clause is the law.
ghost use Rattle.std.specs.Prelude.{◌≡◌, ◌*◌, ℕ, ℤ, pos, ◌≤ℤ◌, IsTrue, List, Option, count_by};
ghost use Rattle.plan_rules.specs.Graph.{Graph};
ghost use Rattle.plan_rules.specs.GoodGraph.{IsGoodGraph};
ghost use Rattle.plan_rules.specs.Plan.{IsPlan, IsLawful, IsBound, cost_of};
ghost use Rattle.plan_rules.specs.Multipliers.{Usable, leaf_value};
ghost use Rattle.plan_rules.specs.Tree.{SearchTree, every_row, IsSoundTree, places_within, tree_value, is_within, belongs_to_end, belongs_to_dead_end};

/// Weak duality: whatever the multipliers, a leaf value is at most the cost, in 1/1024 second, of every
/// lawful plan of usable rows.
pub fn leaf_value_is_below_every_cost()
    ensures { (g : Graph) (usable : Usable) (ms : List ℤ) (chosen : List (Option ℕ)) → IsGoodGraph g → IsLawful g chosen
        → IsTrue (is_within g usable chosen) → leaf_value g usable ms ≤ℤ pos (1024 * cost_of g chosen) }
{}

/// The leaves and dead ends of a sound tree part the plans: each plan belongs to exactly one of them.
pub fn ends_part_the_plans()
    ensures { (g : Graph) (tree : SearchTree) (chosen : List (Option ℕ)) → IsGoodGraph g → IsSoundTree g every_row tree → IsPlan g chosen
        → count_by (belongs_to_end g chosen) (places_within g every_row tree) ≡ 1 }
{}

/// No lawful plan belongs to a dead end.
pub fn dead_ends_hold_no_lawful_plan()
    ensures { (g : Graph) (tree : SearchTree) (chosen : List (Option ℕ)) → IsGoodGraph g → IsSoundTree g every_row tree → IsLawful g chosen
        → count_by (belongs_to_dead_end g chosen) (places_within g every_row tree) ≡ 0 }
{}

/// No lawful plan costs less than the value of a sound tree.
pub fn tree_value_is_a_bound()
    ensures { (g : Graph) (tree : SearchTree) → IsGoodGraph g → IsSoundTree g every_row tree → IsBound g (tree_value g tree) }
{}
