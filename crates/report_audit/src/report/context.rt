use rider_limits::Settings;
use road_network::Network;
use shared_work::Gate;
use std::alloc::Global;

/// What the rounds of an audit share: the allocator, the whole report, the network, the settings, and the gate that hears
/// of pieces.
#[derive(Drop)]
pub(crate) struct AuditContext<'a, G: Gate> {
    pub(crate) alloc: Global,
    pub(crate) report: &'a [u8],
    pub(crate) network: &'a Network,
    pub(crate) settings: &'a Settings,
    pub(crate) gate: &'a G,
}
