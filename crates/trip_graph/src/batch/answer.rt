use crate::pairs::rv_edge::RvEdge;
use plan_rules::TripGraph;
use pool_base::Sequence;
use stop_orders::PairList;

/// What growth over all vehicles gives.
#[derive(Drop)]
pub enum GraphAnswer {
    /// The trip graph, the edges between vehicles and riders, and those between riders.
    Graph {
        graph: TripGraph,
        rv: Sequence<RvEdge>,
        rr: PairList,
    },
    /// There are more rows than the settings allow.
    Overflow,
}
