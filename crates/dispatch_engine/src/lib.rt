//! A round of a run: every lane's commands, taken by one shared book, with the batches that are sealed and solved.
//!
//! The lanes run at the same time, each in its own order. The journal of a round is a run of it: each
//! reply is the step table's in the state that the entries before leave; the entries of each lane are that
//! lane's commands, each once, in their order, each seal followed at once by the close of its batch; and
//! the outcome of each close is good for the batch. Which lane comes first is not said.
//!
//! A caller, shortened from `ridepool`, which runs a round and writes its journal:
//!
//! ```
//! let solver = BatchSolver {
//!     network,
//!     ways: &ways,
//!     drafter: &RelaxationDrafter,
//!     settings,
//!     gate,
//! };
//! let Ok(mut book) = run_round(rt, alloc, book, round, &solver) else {
//!     return Err(RunStatus::OutOfMemory);
//! };
//! let Ok(journal) = book.take_round() else {
//!     drop(book);
//!     return Err(RunStatus::OutOfMemory);
//! };
//! ```
//!
//! `SharedBook` is the request book under a ticket lock, so that up to sixteen lanes may call it at once. Each lane calls
//! by its pass, which knows its calls with their replies and positions. `finish` shows that the book's new entries are
//! just those calls of all passes, in one history that the step table replays; and that the snapshot which a seal handed
//! out is the one that stood in the book at its entry.
//!
//! `Progress` says how far the lanes of a round have come, as its entries are read one after the other: which command a
//! lane's next entry has follows from the commands and the replies so far, and at the end the entries are a run of every
//! lane exactly where each lane is at its end.
//!
//! `BatchSolver::solve` solves a batch outside the lock: its travel times, limits, graphs, plan, bound and moves, told in the
//! files' ids. The outcome lists exactly the vehicle-trip pairs that some order of stops serves, each at its least delay;
//! its plan is lawful, and no lawful plan costs less than its bound. It is an overflow exactly where there are more pairs
//! than the settings allow. The lanes seal a batch, solve it and close it:
//!
//! ```
//! let SealReceipt { receipt: _, snapshot } = book.seal(rt, alloc, pass, now)?;
//! let Some(snapshot) = snapshot else {
//!     return Ok(());
//! };
//! let outcome = solver.solve(rt, alloc, &snapshot)?;
//! let close = Command::Close {
//!     batch: snapshot.batch,
//!     outcome,
//! };
//! take(rt, alloc, book, pass, close, solver.gate)
//! ```
//!
//! `settle` says which promises can still be kept, and which limits follow for every rider. A vehicle is live where some
//! order of stops serves its passengers and all riders promised to it, each by the promised second. Their limits then hold
//! for every vehicle; other promises have lapsed.
//!
//! Main clauses: `run_round`: `run`, `same`, `ready`; `Progress::at_start`: `come`; `Progress::take`: `come`;
//! `Progress::are_done`; `SharedBook::call`: `pass`, `call`, `refused`, `light`; `SharedBook::finish`: `finished`, `calls`,
//! `kept`; `sealed_by_command`: `snapshot`; of `BatchSolver::solve` its one clause, `IsGoodOutcome`; `settle`: `settled`, `sound`.
#![tactic(auto)]

// Rooms, each names only those above it: limits, outcome, lanes.

mod lanes;
mod limits;
mod outcome;
mod solver;
mod solving;

pub use lanes::lane::run_lane;
pub use lanes::lane_progress::LaneProgress;
pub use lanes::laws::commands_follow_from_the_input;
pub use lanes::locked::{BookRoot, LockedBook, LockedReply, sealed_by_command};
pub use lanes::opening::opened_book;
pub use lanes::progress::Progress;
pub use lanes::round::run_round;
pub use lanes::shared::{Pass, Receipt, SealReceipt, SharedBook, UnfinishedBook};
pub use limits::settling::settle;
pub use outcome::instance::{Graphs, Instance};
pub use outcome::left::left_riders;
pub use outcome::lines::{lapsed_ids, rider_ids, rr_lines, rv_lines, trip_row_lines};
pub use outcome::moves::{idle_vehicles, origins_of, starts_of};
pub use outcome::point::Point;
pub use outcome::told::tell_stops;
pub use solver::BatchSolver;
