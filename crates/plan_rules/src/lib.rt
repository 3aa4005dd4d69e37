//! The rules of the assignment: trip graphs, plans and their costs, multipliers and their leaf values,
//! search trees and what they show.
//!
//! A graph is good by its type; the held plan is always lawful; and no lawful plan costs less than the
//! value of a sound tree. The search and the separate checker both stand on these definitions.
//!
//! A caller, from the tests of `single_calls`:
//!
//! ```
//! /// The graph of three vehicles, three riders and these rows, if there are few.
//! fn graph_of(
//!     alloc: Global,
//!     rows: Vec<TripRow>,
//!     held: Vec<Option<u32>>,
//! ) -> Result<TripGraph, GraphFault> {
//!     if rows.len() > 100 {
//!         return Err(GraphFault::OutOfMemory);
//!     }
//!     TripGraph::new(alloc, 3, 3, 100, rows, held)
//! }
//! ```
//!
//! Main clauses: `is_lawful`; `cost_of`; `tree_value_is_a_bound`. README.md quotes them.
#![tactic(auto)]

mod dead_end;
mod fault;
mod graph;
mod greedy_plan;
mod held;
mod laws;
mod marks;
mod multipliers;
mod node;
mod parts;
mod path;
mod plan;
mod row;
mod row_index;
mod row_order;
mod rules;
mod tree;
mod value;

pub use dead_end::is_dead_end;
pub use fault::GraphFault;
pub use graph::TripGraph;
pub use greedy_plan::greedy;
pub use laws::{
    dead_ends_hold_no_lawful_plan, ends_part_the_plans, leaf_value_is_below_every_cost,
    tree_value_is_a_bound,
};
pub use marks::mark_riders;
pub use multipliers::Multipliers;
pub use node::Node;
pub use path::{Decision, Path};
pub use plan::Plan;
pub use row::TripRow;
pub use rules::{cost_of, held_plan, is_lawful};
pub use tree::Tree;
pub use value::{leaf_value, rounded_up, vehicle_part};
