//! The rows of a trip graph in flat tables, an ascent of multipliers over them, what a draft made of them is, and
//! the numbers of fixed point and the draws that drafts share.
//!
//! Nothing is proved of what is made of them: it is judged where it is used.
//!
//! A caller:
//!
//! ```
//! fn table_of_pairs(alloc: Global) -> Result<RowTable, OutOfMemory> {
//!     let must = vec![in alloc; false; 3]?;
//!     let mut table = RowTable::new(alloc, 100, must);
//!     table.push_row(20, &[0])?;
//!     table.push_row(10, &[0, 1])?;
//!     table.end_vehicle()?;
//!     table.push_row(10, &[1, 2])?;
//!     table.end_vehicle()?;
//!     table.index()?;
//!     Ok(table)
//! }
//! ```
//!
//! Main clauses: none, only what safety needs.
#![tactic(auto)]

mod ascent;
mod draft;
mod draws;
pub mod fixed_point;
pub mod lists;
mod row_table;

pub use ascent::{ascend, first_multipliers};
pub use draft::{Draft, DraftNode, Drafter, RowDecision};
pub use draws::Draws;
use pool_base::OutOfMemory;
pub use row_table::RowTable;

/// What a call makes, unless memory is refused.
pub type Made<T> = Result<T, OutOfMemory>;
