ghost use Rattle.std.specs.Prelude.{◌≡◌, ◌<◌, ℕ, IsTrue, length, map};
ghost use Rattle.road_network.specs.Roads.{hop_of, leaving};
ghost use Rattle.road_network.specs.Walk.{IsTimeBetween};

use road_network::{Hop, Network};

/// Whether two networks have the same arcs between as many nodes, so that the travel times of one are those of the other.
pub(crate) fn are_same(a: &Network, b: &Network) -> bool
    ensures count { IsTrue result → length a.now.nodes ≡ length b.now.nodes }
    ensures arcs { IsTrue result → (node : ℕ) → node < length b.now.nodes → map hop_of (leaving node a.now.arcs) ≡ map hop_of (leaving node b.now.arcs) }
    ensures times { IsTrue result → (start goal seconds : ℕ) → IsTimeBetween a.now.arcs start goal seconds → IsTimeBetween b.now.arcs start goal seconds }
{
    a.keeps();
    b.keeps();
    if a.node_count() != b.node_count() {
        return false;
    }
    for node in 0..b.node_count() {
        if !are_same_hops(a.arcs_from(node), b.arcs_from(node)) {
            return false;
        }
    }
    true
}

/// Whether two lists of hops are the same.
fn are_same_hops(a: &[Hop], b: &[Hop]) -> bool
    ensures { IsTrue result → a.now ≡ b.now }
{
    if a.len() != b.len() {
        return false;
    }
    for place in 0..a.len() {
        if a[place].to != b[place].to || a[place].seconds != b[place].seconds {
            return false;
        }
    }
    true
}
