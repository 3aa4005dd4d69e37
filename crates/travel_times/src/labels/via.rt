//! A node's own label, spread over all nodes, so that a hub is found by its index.
ghost use Rattle.std.specs.Prelude.{◌≡◌, ℕ, ◌+◌, ◌<◌, ◌↔◌, All, IsTrue, length};
ghost use Rattle.pool_base.specs.TravelTime.{never};
ghost use Rattle.travel_times.specs.work.labels.Drafts.{HasSpread, IsAmongHubs};
ghost use Rattle.travel_times.specs.work.labels.Pruned.{IsTold};

use crate::labels::hub::ShortHub;
use pool_base::Times;

/// Writes the seconds of each hub at its node.
pub(crate) fn spread(label: &[ShortHub], via: &mut [u32])
    requires within { All (λ hub. hub.node < length via.old) label.now }
    requires none { All (λ seconds. seconds ≡ never) via.old }
    ensures { HasSpread label.now (length label.now) via.new }
{
    for hub in label {
        via[hub.node()] = hub.seconds();
    }
}

/// Takes back what `spread` wrote.
pub(crate) fn clear(label: &[ShortHub], via: &mut [u32])
    requires within { All (λ hub. hub.node < length via.old) label.now }
    requires among { (node : ℕ) → node < length via.old → IsAmongHubs label.now 0 via.old node }
    ensures { All (λ seconds. seconds ≡ never) via.new }
{
    for hub in label {
        via[hub.node()] = Times::NEVER;
    }
}

/// Whether a hub of the label, with the seconds to it that `via` has, tells of a way of at most so many seconds.
pub(crate) fn is_told(label: &[ShortHub], via: &[u32], most: u32) -> bool
    requires { All (λ hub. hub.node < length via.now) label.now }
    ensures { IsTrue result ↔ IsTold label.now via.now most }
{
    for hub in label {
        if u64::from(via[hub.node()]) + u64::from(hub.seconds()) <= u64::from(most) {
            return true;
        }
    }
    false
}
