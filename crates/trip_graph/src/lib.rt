//! The trip graph of a batch: which vehicle can serve which trips, at which least delays.
//!
//! It is grown size by size over all vehicles, by several workers, and it is exact: the edges between
//! vehicles and riders, the edges between riders, and the rows, none missing and none twice; or there are
//! more rows than allowed. An edge stands in its list exactly where an order of stops serves.
//!
//! A trip of one vehicle is tried only where every trip with one rider fewer is a row already, since whoever
//! is left out of a serving order leaves a serving order.
//!
//! A caller:
//!
//! ```
//! fn text_of_rows(
//!     rt: &(impl Threads + Sync),
//!     alloc: Global,
//!     settled: &Settled,
//!     times: &Times,
//!     settings: &Settings,
//! ) -> Result<String, OutOfMemory>
//!     requires { IsSound settings.now.trip (point_count times.now) (travel_time times.now) settled.now }
//! {
//!     match grow_graph(rt, alloc, settled, times, settings, &FreeGate)? {
//!         GraphAnswer::Graph { graph, .. } => text_of_graph(alloc, graph.rows()),
//!         GraphAnswer::Overflow => text_of(alloc, "overflow"),
//!     }
//! }
//! ```
//!
//! Main clauses: `grow_graph`; `grow`: `grown`, `steps`; `rider_vehicle`; `rider_rider`. README.md quotes two.
#![tactic(auto)]

// Rooms, each names only those above it: pairs, vehicle, batch.

mod batch;
mod pairs;
mod vehicle;

pub use batch::answer::GraphAnswer;
pub use batch::graph_growth::grow_graph;
pub use pairs::rider_rider_graph::rider_rider;
pub use pairs::rider_vehicle_graph::rider_vehicle;
pub use pairs::rv_edge::RvEdge;
pub use vehicle::grown::Grown;
pub use vehicle::level::Level;
pub use vehicle::level_growth::{empty_level, grow_level};
pub use vehicle::trip_of::TripOf;
pub use vehicle::vehicle_growth::grow;
pub use vehicle::vehicle_trips::VehicleTrips;
