//! What a search found becomes hubs of labels.
ghost use Rattle.std.specs.Prelude.{◌≡◌, ◌≢◌, ℕ, ◌<◌, [], All, OnOk, length, slice_index, slice_index_or};
ghost use Rattle.pool_base.specs.TravelTime.{never};
ghost use Rattle.travel_times.specs.work.labels.Drafts.{GainsHub, HandsOver};

use crate::labels::hub::{Hub, ShortHub};
use crate::labels::label::ShortLabel;
use crate::labels::via::is_told;
use pool_base::{OutOfMemory, Times};

/// Each node that was found has the start as one more hub, unless its label tells of a way already. What was found is
/// forgotten.
pub(crate) fn hand_over(
    start: usize,
    taken: &[u32],
    via: &[u32],
    seconds: &mut [u32],
    labels: &mut [ShortLabel],
) -> Result<(), OutOfMemory>
    requires few { start < 100000 }
    requires labels { length labels.old ≡ length seconds.old }
    requires hubs { All (λ label. All (λ hub. hub.node < length via.now) label) labels.old }
    requires start { start < length via.now }
    requires within { All (λ node. node < length seconds.old) taken.now }
    ensures { OnOk result (HandsOver start via.entry.now taken.entry.now (length taken.entry.now) seconds.old labels.old seconds.new labels.new) }
{
    for node in taken {
        hand_over_one(start, *node as usize, via, seconds, labels)?;
    }
    Ok(())
}

/// The same of one node.
fn hand_over_one(
    start: usize,
    node: usize,
    via: &[u32],
    seconds: &mut [u32],
    labels: &mut [ShortLabel],
) -> Result<(), OutOfMemory>
    requires few { start < 100000 }
    requires labels { length labels.old ≡ length seconds.old }
    requires hubs { All (λ label. All (λ hub. hub.node < length via.now) label) labels.old }
    requires start { start < length via.now }
    requires node { node < length seconds.old }
    ensures seconds { OnOk result ((slice_index seconds.new node ≡ never) × ((other : ℕ) → other ≢ node → slice_index seconds.new other ≡ slice_index seconds.old other)) }
    ensures gains { OnOk result (GainsHub start via.entry.now (slice_index seconds.old node) (slice_index_or labels.old node []) (slice_index_or labels.new node [])) }
    ensures others { OnOk result ((other : ℕ) → other ≢ node → slice_index_or labels.new other [] ≡ slice_index_or labels.old other []) }
    ensures hubs { OnOk result (All (λ label. All (λ hub. hub.node < length via.entry.now) label) labels.new) }
{
    let found = seconds[node];
    if found == Times::NEVER {
        return Ok(());
    }
    seconds[node] = Times::NEVER;
    if is_told(labels[node].as_slice(), via, found) {
        return Ok(());
    }
    labels[node].push(ShortHub::of(Hub {
        node: start,
        seconds: found,
    }))
}
