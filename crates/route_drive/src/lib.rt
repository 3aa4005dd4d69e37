//! A driven day: a script of requests and seals, whose vehicles follow the plans that it prints.
//!
//! `is_day` says whether a script is one. `drive_day` runs it: before each seal it enters the pickups and drop-offs
//! that came due, at their printed seconds, and where each vehicle then is on its way, over shortest walks.
//!
//! A caller, which drives a day, with the book of a fleet before its first round:
//!
//! ```
//! fn driven<W: Ways, D: Drafter, G: Gate>(
//!     rt: &(impl Threads + Wait + Sync),
//!     alloc: Global,
//!     book: Book,
//!     day: &Script,
//!     solver: &BatchSolver<'_, W, D, G>,
//! ) -> Option<Vec<DayRound>>
//!     requires new { IsNewBook solver.now.settings.now solver.now.network.now book }
//! {
//!     if is_day(day).is_err() {
//!         return None;
//!     }
//!     let mut rounds = Vec::new(alloc);
//!     match drive_day(rt, alloc, book, day, solver, &mut rounds) {
//!         Ok(_) => Some(rounds),
//!         Err(_) => None,
//!     }
//! }
//! ```
//!
//! Main clauses: `drive_day`: `run`, `late`; `is_day`; `shortest_walk`.
#![tactic(auto)]

mod counts;
mod course;
mod day;
mod day_end;
mod day_run;
mod drive;
mod entering;
mod keeper;
pub mod laws;
mod places;
mod plan;
mod promised;
mod rounds;
mod tree;
mod walk;

pub use day::{DayFault, is_day};
pub use day_run::{DayRound, DriveFault};
pub use keeper::RoundKeeper;
pub use promised::drive_day;
pub use walk::{WalkStep, shortest_walk};
