//! The assignment: a lawful plan, a bound below which no lawful plan costs, and the search tree that shows it.
//!
//! The tree grows at the leaf of least value, on rows that a vehicle may still use; the bound never falls,
//! and it meets the plan's cost unless the budget of nodes is spent. A leaf value is computed exactly, in
//! whole numbers, from the first-fit multipliers or from better ones.
//!
//! A caller, from the tests of `single_calls`:
//!
//! ```
//! /// What a search with this budget says: its bound, its cost, how many nodes it has, and what the checker
//! /// says of its tree.
//! fn told<R: Threads + Sync>(rt: &R, alloc: Global, graph: &TripGraph, budget: u32) -> Option<(i128, u64, usize, i128)> {
//!     let found = search_by(rt, alloc, graph, budget.max(1), 4, &RelaxationDrafter).ok()?;
//!     let checked = check(alloc, graph, &found.tree).ok()?;
//!     Some((found.bound, found.cost, found.tree.nodes().len(), checked))
//! }
//! ```
//!
//! Main clauses: of `search` its one clause, `IsSearchAnswer`. README.md quotes it. `first_fit`: `value`,
//! `never_negative`, `worth`; `ascend`: `value`; `climb`: `value`.
#![tactic(auto)]

mod branch_and_bound;
mod branching;
mod ceiling;
mod cheapest;
mod child;
mod climbing;
mod exchange;
mod first_fit_pass;
mod first_plan;
mod found;
mod growth;
mod guide;
mod laws;
mod lookups;
mod parting;
mod rider_index;
mod standing;
mod step;

pub use branch_and_bound::{search, search_by};
pub use ceiling::{first_fit_ceiling, quick_ceiling};
pub use cheapest::CheapestRows;
pub use climbing::{ascend, climb};
pub use exchange::better_change;
pub use first_fit_pass::{first_fit, first_fit_by};
pub use found::Found;
pub use laws::{first_fit_is_between_zero_and_the_penalty, first_fit_value_is_a_sum};
pub use plan_rules::leaf_value;
pub use rider_index::RiderIndex;
