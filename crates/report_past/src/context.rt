use request_book::Fleet;
use rider_limits::Settings;
use road_network::Network;
use shared_work::Gate;
use std::alloc::Global;

/// What the steps of a reading share: the allocator, the whole lines behind the head, the inputs, whether outcomes are
/// judged, and the gate that hears of pieces.
#[derive(Drop)]
pub(crate) struct PastContext<'a, G: Gate> {
    pub(crate) alloc: Global,
    pub(crate) text: &'a [u8],
    pub(crate) network: &'a Network,
    pub(crate) fleet: &'a Fleet,
    pub(crate) settings: &'a Settings,
    pub(crate) judge: bool,
    pub(crate) gate: &'a G,
}
