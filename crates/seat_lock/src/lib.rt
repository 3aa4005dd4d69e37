//! A ticket lock over a value that keeps a log of the calls made on it, with one pass for each lane.
//!
//! A lane plays its calls by its pass, one at a time and in the order of tickets. The pass knows which
//! calls it made, with their replies and their positions, and `finish` shows that the value's log is
//! just those calls of all passes. That a waiting call returns, and which lane comes first, is not said.
//!
//! A caller, from the tests of `single_calls`:
//!
//! ```
//! fn play_all<R: Wait>(rt: &R, alloc: Global, lock: &SeatLock<Counter>, pass: &mut Pass<Counter>)
//!     requires { IsPassOf lock.now pass.old }
//!     ensures { IsPassOf lock.now pass.new × (pass.new.lane ≡ pass.old.lane) }
//! {
//!     for amount in 0..CALLS {
//!         if lock.with_turn(rt, alloc, pass, amount).is_err() {
//!             return;
//!         }
//!     }
//! }
//! ```
//!
//! Main clauses: `with_turn`: `pass`, `calls`, `position`, `seen`, `fits`, `refused`, `light`; `finish`:
//! `finished`, `log`, `root`. README.md quotes them.
#![tactic(auto)]

mod bells;
mod counter;
mod hand_out;
mod lock;
mod logged;
mod moves;
mod pass;
mod steps;
mod turn;
mod view;

pub use counter::{Addition, Counter};
pub use lock::{Refused, SeatLock, Unfinished};
pub use logged::{Logged, LoggedCall};
pub use pass::Pass;
pub use turn::Played;
