ghost use Rattle.std.specs.Prelude.{◌≡◌, ◌*◌, ◌<◌, ◌≤◌};
ghost use Rattle.input_rows.specs.made.Part.{draw};
ghost use Rattle.input_rows.specs.lemmas.made.Parts.{draws_of};
ghost use Rattle.input_rows.specs.made.Texts.{drawn_node};

use rand_core::Rng;
use rand_xoshiro::SplitMix64;

/// A number below n: the remainder of the generator's next 64-bit output.
#[tactic(auto, unfolding(crate::specs::made::Part::draw))]
pub(crate) fn draw(rng: &mut SplitMix64, n: u64) -> u64
    requires { 0 < n }
    ensures drawn { (result, draws_of rng.new) ≡ draw n (draws_of rng.old) }
    ensures below { result < n }
{
    rng.next_u64() % n
}

/// A node of a square of at most 100 nodes a side.
#[tactic(auto, unfolding(crate::specs::made::Texts::drawn_node))]
pub(crate) fn draw_node(rng: &mut SplitMix64, side: u64) -> u64
    requires some { 2 ≤ side }
    requires most { side ≤ 100 }
    ensures drawn { (result, draws_of rng.new) ≡ drawn_node side (draws_of rng.old) }
    ensures within { result ≤ side * side }
{
    1 + draw(rng, side * side)
}
