//! What two labels have in common.
ghost use Rattle.std.specs.Prelude.{◌≡◌, ℕ, ◌<◌, length, slice_index};
ghost use Rattle.travel_times.specs.work.labels.Common.{IsLeastInCommon, IsRising};

use crate::labels::hub::ShortHub;
use pool_base::Times;

/// The least sum of seconds over the hubs that two labels have in common, and `NEVER` where they have none: a merge of
/// the two by rank.
pub(crate) fn least_in_common(rank: &[u32], forward: &[ShortHub], backward: &[ShortHub]) -> u32
    requires apart { (a b : ℕ) → a < length rank.now → b < length rank.now → slice_index rank.now a ≡ slice_index rank.now b → a ≡ b }
    requires forward { IsRising rank.now forward.now }
    requires backward { IsRising rank.now backward.now }
    ensures { IsLeastInCommon forward.now backward.now result }
{
    let mut best = Times::NEVER;
    let mut i = 0;
    let mut j = 0;
    while i < forward.len() && j < backward.len() {
        let ahead = forward[i];
        let back = backward[j];
        let near = rank[ahead.node()];
        let far = rank[back.node()];
        if near < far {
            i += 1;
        } else if far < near {
            j += 1;
        } else {
            best = best.min(ahead.seconds() + back.seconds());
            i += 1;
            j += 1;
        }
    }
    best
}
