//! Best moves of idle vehicles to riders who were left out.
//!
//! `rebalance` matches the two one to one over reachable pairs: most pairs first, then the least total of
//! seconds. Its answer comes with potentials, from which `potentials_show_best` has it that no other matching is better.
//!
//! A caller, of `dispatch_engine`:
//!
//! ```
//! fn best_moves(
//!     alloc: Global,
//!     times: &Times,
//!     settled: &Settled,
//!     vehicles: &[usize],
//!     riders: &[usize],
//! ) -> Result<Vec<MoveLine>, OutOfMemory>
//!     requires places { HasPlaces (point_count times.now) settled.now }
//!     requires vehicles { All (λ v. v < length settled.now.vehicles) vehicles.now }
//!     requires few_vehicles { length vehicles.now ≤ 500 }
//!     requires riders { All (λ r. r < length settled.now.riders) riders.now }
//!     requires few_riders { length riders.now ≤ 1000 }
//!     ensures { IfOk result (λ moves. AreMoves (travel_time times.now) settled.entry.now vehicles.now riders.now moves.items) }
//! {
//!     let starts = starts_of(alloc, settled, vehicles)?;
//!     let origins = origins_of(alloc, settled, riders)?;
//!     let moves = rebalance(alloc, &starts, &origins, times)?;
//!     told_moves(
//!         alloc,
//!         times,
//!         settled,
//!         vehicles,
//!         riders,
//!         moves.pairs.as_slice(),
//!     )
//! }
//! ```
//!
//! Main clauses: `rebalance`: `best`, `rising`, `total`, `potentials`. README.md quotes them.
#![tactic(auto)]

mod best_moves;
mod law;
mod matching;
mod moves;
mod tree;
mod weights;

pub use best_moves::rebalance;
pub use law::potentials_show_best;
pub use moves::{Moves, Pairs, Potentials};
