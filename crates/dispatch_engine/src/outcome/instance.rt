ghost use Rattle.std.specs.Prelude.{◌≡◌, length};
ghost use Rattle.pool_base.specs.Times.{point_count};

use plan_rules::TripGraph;
use pool_base::Times;
use request_book::Points;
use rider_limits::Settings;
use stop_orders::{PairList, Settled};
use trip_graph::RvEdge;

/// A batch whose limits are settled: the settings, its nodes with the travel times between them, and its vehicles
/// and riders.
#[derive(Drop)]
pub struct Instance<'a> {
    pub settings: &'a Settings,
    pub points: &'a Points,
    pub times: &'a Times,
    pub settled: &'a Settled,
    pub ghost table: { point_count times.now ≡ length points.now },
}

/// Such a batch with its trip graph, and its edges between vehicles and riders and between riders.
#[derive(Drop)]
pub struct Graphs<'a, 'b> {
    pub instance: &'a Instance<'b>,
    pub graph: &'a TripGraph,
    pub rv: &'a [RvEdge],
    pub rr: &'a PairList,
}
