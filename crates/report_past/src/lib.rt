//! What a report keeps of a day that broke off: the kept part of it, and the book that stands behind.
//!
//! A report may be torn anywhere. `whole_size` says how long its longest beginning is that is whole lines with no block
//! open. `read_past` runs a book through the entries that stand there: each line must be the one that the book prints, and
//! each batch is closed with the outcome that its block tells. Nothing is solved. Whether the outcomes are good is asked
//! only where the caller wants them judged. A text that a run may leave is never refused, wherever it is torn.
//!
//! The laws say how a day goes on: what the report tells, where its closes are good, and a run from where it ends, are one
//! run, and its text is one report.
//!
//! A caller, as `ridepool` goes on with a day whose head was read and whose text stands behind it:
//!
//! ```
//! let past = read_past(rt, alloc, text, &network, &fleet, &settings, judge, gate)?;
//! write_all(&mut sink, past.kept)?;
//! let next = past.book.next_position();
//! ```
//!
//! Main clauses: `whole_size`: `whole`, `longest`; `read_past`: `past`, `refused`; the laws `a_day_goes_on`: `run`, `text`;
//! `a_close_ends_its_past`: `good`, `text`, `state`, `position`.
#![tactic(auto)]

mod close;
mod context;
mod fault;
mod item;
mod laws;
mod past;
mod row;
mod step;
mod whole;

pub use laws::{a_close_ends_its_past, a_day_goes_on};
pub use past::{Past, read_past};
pub use whole::whole_size;
