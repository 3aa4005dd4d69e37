//! The settings of a run, as the words of a command line give them.
//!
//! Words are a command and `key=value` pairs; every fault is found in the order of the words and named
//! with its place. The types keep each number within its range, so that no crate above checks one again.
//!
//! A caller:
//!
//! ```
//! fn an_audit_has_four_files_and_workers(rt: HostRuntime) -> Result<(), Fail> {
//!     let given = words(
//!         rt.alloc(),
//!         "audit network=n fleet=f script=s report=r workers=2",
//!     )?;
//!     let Ok(settings) = read_words(&given) else {
//!         return Err("the words of an audit are refused")?;
//!     };
//!     assert!(rt; settings.mode == Mode::Audit && settings.workers == 2 && settings.wait == 120);
//!     let given = words(rt.alloc(), "audit wait=5")?;
//!     assert!(rt; read_words(&given) == Err(WordFault::UnknownKey { word: 2 }));
//!     Ok(())
//! }
//! ```
//!
//! Main clauses: `read_words`: `accepted`, `refused`; `read_resume`: `accepted`, `refused`; `value_of`.
#![tactic(auto)]

mod key;
mod load_shape;
mod reading;
mod resume_words;
mod resumed;
mod settings;
mod subcommand;
mod word_fault;
mod words;

pub use load_shape::LoadShape;
pub use reading::read_words;
pub use resume_words::ResumeWords;
pub use resumed::read_resume;
pub use settings::{Mode, Settings, TimesWay};
pub use word_fault::WordFault;
pub use words::value_of;
