//! Bytes in and out, and rows of comma-separated fields.
//!
//! A source and a sink count their faults, so that a call above may answer "reading failed" only where
//! the source really failed. Sources and sinks in memory plan their failures and short calls; adapters
//! over std's readers and writers are the edge to the world. Rows are what the `csv` crate reads.
//!
//! A caller, from the tests of `single_calls`:
//!
//! ```
//! fn is_read(alloc: Global, text: &[u8]) -> bool {
//!     match owned(alloc, text) {
//!         Ok(bytes) => {
//!             let mut source = PlainSource::new(bytes);
//!             match read_all(alloc, &mut source, 16) {
//!                 Ok(read) => read.as_slice() == text,
//!                 Err(_) => false,
//!             }
//!         }
//!         Err(_) => false,
//!     }
//! }
//! ```
//!
//! Main clauses: `read_all`: `whole`, `ended`, `counted`, `within`, `moved`, `too_long`, `its_limit`,
//! `fault`, `never_falls`; `write_all`: `whole`, `part`, `fault`, `never_falls`. README.md quotes them.
#![tactic(auto)]

mod fill;
mod input;
mod memory_sink;
mod memory_source;
mod plain_sink;
mod plain_source;
mod reading;
mod records;
mod sink;
mod source;
mod std_sink;
mod std_source;
mod table;
mod writing;

pub use input::Input;
pub use memory_sink::MemorySink;
pub use memory_source::MemorySource;
pub use plain_sink::PlainSink;
pub use plain_source::PlainSource;
pub use reading::{ReadAll, read_all};
pub use records::{RowFault, rows};
pub use sink::{Sink, SinkFault};
pub use source::{Failed, Source};
pub use std_sink::StdSink;
pub use std_source::StdSource;
pub use table::Rows;
pub use writing::{WriteAll, write_all};
