ghost use Rattle.std.specs.Prelude.{◌≡◌};

use rider_limits::Settings;
use road_network::Network;
use row_tables::Drafter;
use shared_work::Gate;
use travel_times::Ways;

/// What all batches of a run share: the network, `ways` that tells its travel times, what drafts assignments, the
/// settings, and the gate that hears of pieces of growth and of receipts.
#[derive(Drop)]
pub struct BatchSolver<'a, W: Ways, D: Drafter, G: Gate> {
    pub network: &'a Network,
    pub ways: &'a W,
    pub drafter: &'a D,
    pub settings: &'a Settings,
    pub gate: &'a G,
    pub ghost same_roads: { W.roads ways.now ≡ network.now },
}
