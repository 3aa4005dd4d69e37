//! Work in numbered pieces, claimed by workers on threads of their own.
//!
//! Each piece is claimed once, by one atomic step, and `run_pieces` gives the outs in the order of the
//! pieces, whatever the schedule and the number of workers. A gate hears of each piece as it begins. That
//! pieces run at the same time is not said: tests show it.
//!
//! A caller, from the tests of `single_calls`, which has the numbers of two pieces squared:
//!
//! ```
//! let outs = run_pieces(&rt, rt.alloc(), 2, 2, &Squares, &gate)?;
//! assert_eq!(rt; outs.as_slice(), [0, 1].as_slice());
//! ```
//!
//! Main clauses: `run_pieces`: `count`, `right`.
#![tactic(auto)]

mod claims;
mod crew;
mod gate;
mod job;
mod order;
mod run;
mod worker;

pub use gate::{FreeGate, Gate};
pub use job::Job;
pub use run::run_pieces;
