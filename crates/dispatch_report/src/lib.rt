//! The texts that the program writes: the head of a report, a round with its batches, and the end; of a
//! made workload its shape and a line for each batch.
//!
//! Every text is a list of lines, and each call says which lines the sink has taken: all of them, or with
//! an error a beginning that isn't the whole. Text goes out in pieces of whole lines: a piece is written as soon as
//! it has 32 KB, and at the end of each call. No line is longer than that, so a piece has at most 64 KB.
//!
//! A caller:
//!
//! ```
//! fn writes_head(alloc: Global) -> bool {
//!     let Some(network) = network(alloc) else {
//!         return false;
//!     };
//!     let Some(fleet) = fleet(alloc, &network) else {
//!         return false;
//!     };
//!     let mut out = sink(alloc);
//!     write_head(alloc, &mut out, &settings(), &network, &fleet).is_ok()
//!         && out.written()
//!             == b"ridepool report 1\n\
//! settings wait=120 delay=180 trip=4 penalty=10000 budget=200 pairs=200000 proof=1 dwell=5\n\
//! network nodes=2 arcs=1\n\
//! fleet vehicles=1\n"
//!                 .as_slice()
//! }
//! ```
//!
//! Main clauses: the one of `write_head`, of `write_round` and of `write_end`.
#![tactic(auto)]

mod block;
mod block_line;
mod day;
mod entry;
mod fault;
mod head;
mod lines;
mod reply;
mod round;
mod step;
mod summary;
mod words;

pub use block_line::{BlockLine, LateText, TripRowText, TripText};
pub use day::{DayCounts, write_day_end};
pub use entry::put_entry;
pub use fault::ReportFault;
pub use head::write_head;
pub use round::{write_end, write_round};
pub use step::{write_round_start, write_step};
pub use summary::{write_load, write_summary};
