//! The whole program as one call: words and inputs in, a report or a summary out.
//!
//! A successful run prints the report of one legal journal for each round of the script, with each lane's
//! commands once, in their order, and a good outcome for each batch; for a made workload it prints one line
//! for each batch instead. Where vehicles are driven, the script is a day, and the report is that of the day with
//! all that is entered of them. Behind each round its notices are told. An audit says whether a printed report is that of
//! such a run. Every other answer has its cause in the contract of the call, and a refused input leaves nothing written.
//!
//! A caller, as the program runs the words that it is given:
//!
//! ```
//! let mut network = source_of(rt, words, "network");
//! let mut fleet = source_of(rt, words, "fleet");
//! let mut script = source_of(rt, words, "script");
//! let mut report = source_of(rt, words, "report");
//! let mut sink = StdSink::over(rt.stdout());
//! let status = ridepool(
//!     threads, rt.alloc(), words, &mut network, &mut fleet, &mut script, &mut report, &mut sink,
//!     &mut notifiers, &FreeGate,
//! );
//! ```
//!
//! Main clauses: of `ridepool`: `Answers`; of `live`: `AnswersLive`.
#![tactic(auto)]

mod auditing;
mod held_day;
mod inputs;
mod line_notifier;
mod live_call;
mod phrase;
mod reading;
mod resume_call;
mod run;
mod stand;
mod status;
mod text;
mod ways;
mod words;
mod writing;

pub use line_notifier::LineNotifier;
pub use live_call::{LiveEnd, live};
pub use pool_base::Which;
pub use resume_call::resume;
pub use run::ridepool;
pub use stand::{ResumeListener, Stand, stand_text};
pub use status::RunStatus;
pub use text::{fault_text, refusal_text};
pub use words::words_of_run;
