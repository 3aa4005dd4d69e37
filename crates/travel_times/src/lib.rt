//! Shortest times between the points of a batch, exact over all walks of the road network.
//!
//! `times_between` runs one search with a priority queue for each point, rows in parallel. Its table has, for
//! each two points, the least seconds over all walks, and says so exactly where there is none.
//!
//! Where a network stays the same, hub labels give the times by what two nodes' labels have in common. A label
//! lists hubs of a node, with the seconds to them or from them. It holds exactly the hubs that the definition
//! names, so there is one labelling of a network (canonical hub labels: Abraham, Delling, Goldberg and Werneck
//! 2012). It is made by pruned searches, by rank, one forward and one backward from each node (Akiba, Iwata and
//! Yoshida 2013).
//!
//! A caller, from the tests of `single_calls`:
//!
//! ```
//! /// The table between these nodes, where all are known.
//! pub fn fast(
//!     rt: &(impl Threads + Sync),
//!     alloc: Global,
//!     network: &Network,
//!     nodes: &[NodeId],
//! ) -> Option<Result<Times, OutOfMemory>> {
//!     if nodes.len() <= 12_500 && are_known(network, nodes) {
//!         Some(times_between(rt, alloc, network, nodes))
//!     } else {
//!         None
//!     }
//! }
//! ```
//!
//! Main clauses: `times_between`; `build`; `seconds`. README.md quotes them.
#![tactic(auto)]

// Rooms, each names only those above it: search, table, labels.

mod labels;
mod search;
mod table;

pub use labels::fault::LabelFault;
pub use labels::hub::{Hub, ShortHub};
pub use labels::label::Label;
pub use labels::label_ways::LabelWays;
pub use labels::labels::Labels;
pub use search::arcs::Arcs;
pub use search::ring::Ring;
pub use search::search::{Search, next_near, relax};
pub use search::short_hop::ShortHop;
pub use table::plain::times_by_repeated_relaxation;
pub use table::table::{are_known, indexes_of, rows_of_a_piece, table_of_times, times_between};
pub use table::ways::{NetworkWays, Ways};
