ghost use Rattle.std.specs.Prelude.{◌≡◌, ◌≤◌, ◌+◌, ◌<◌, ℕ, All, length};
ghost use Rattle.road_hierarchy.specs.work.sweeps.Sweep.{AreInTurn, IsWithin, SweepsTo, far};
ghost use Rattle.road_hierarchy.specs.work.sweeps.Lanes.{LowersBlock, lane};

use road_network::Arc;

/// How many rows lie side by side.
pub(crate) const LANES: usize = 16;

/// The cells of a node, one in each lane.
pub(crate) type Block = [u32; 16];

/// Lowers each cell of sixteen rows to what a walk along these arcs gives from another cell of its row, in one pass
/// (Delling, Goldberg, Nowatzyk and Werneck 2011).
pub(crate) fn sweep(arcs: &[Arc], rows: &mut [Block])
    requires turn { AreInTurn arcs.now }
    requires within { All (IsWithin (length rows.old)) arcs.now }
    requires low { All (λ block. All (λ cell. cell ≤ far) block) rows.old }
    ensures sweeps { (k : ℕ) → k < 16 → SweepsTo arcs.now (lane k rows.old) (lane k rows.new) }
    ensures low { All (λ block. All (λ cell. cell ≤ far) block) rows.new }
    ensures same_length { length rows.new ≡ length rows.old }
{
    for arc in arcs {
        let from = rows[arc.from as usize];
        lower(&from, arc.seconds, &mut rows[arc.to as usize]);
    }
}

/// Lowers each cell of a block to what an arc gives from the other. There is no branch, so that vectors do it.
#[inline]
fn lower(from: &Block, seconds: u32, to: &mut Block)
    requires seconds { seconds ≤ far }
    requires from_low { All (λ cell. cell ≤ far) from.now }
    requires to_low { All (λ cell. cell ≤ far) to.old }
    ensures lowers { LowersBlock 16 from.now seconds to.old to.new }
    ensures low { All (λ cell. cell ≤ far) to.new }
{
    for k in 0..LANES {
        to[k] = to[k].min(from[k] + seconds);
    }
}
