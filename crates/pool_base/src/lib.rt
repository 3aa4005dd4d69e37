//! The words that all crates of the dispatcher share: ids, seconds, parties, numbers as text,
//! tables of travel times, and a counter of searches.
//!
//! Every type keeps its own range, so that no sum above them overflows; a table of travel times keeps
//! a zero diagonal and the triangle inequality, where "cannot be reached" is above every number.
//!
//! A caller reads a node's number, and looks up a travel time:
//!
//! ```
//! fn node_of(field: &[u8]) -> Option<NodeId> {
//!     match read_number(field) {
//!         Ok(number) => NodeId::new(number),
//!         Err(_) => None,
//!     }
//! }
//!
//! fn reaches(times: &Times, from: usize, to: usize) -> bool {
//!     from < times.len() && to < times.len() && times.get(from, to).is_some()
//! }
//! ```
//!
//! Main clauses: `read_number`: `value`, `empty`, `not_digit`, `too_large`; `Times::checked`: `accepts`,
//! `kept`, `refused`.
#![tactic(auto)]

mod memory;
mod node_id;
mod number;
mod numbering;
mod numeral;
mod party;
mod rider_id;
mod second;
mod sequence;
mod steps;
mod times;
mod times_check;
mod vehicle_id;
mod which;

pub use memory::OutOfMemory;
pub use node_id::NodeId;
pub use number::{NumberFault, number_reads_back, put_bytes, put_number, put_signed, read_number};
pub use numbering::Numbering;
pub use numeral::read_number_up_to;
pub use party::Party;
pub use rider_id::RiderId;
pub use second::Second;
pub use sequence::Sequence;
pub use steps::Steps;
pub use times::{Times, TimesFault};
pub use vehicle_id::VehicleId;
pub use which::Which;
