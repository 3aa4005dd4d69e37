//! What a person reads behind the line of a fault: which file or word is meant, what stands there, and what would be
//! right.
//!
//! A row is found in its file again by its number. Each hint is one line of printable bytes, without its end. No contract
//! says what a hint tells: the texts are tested, and the functions are proved to be safe and to end.
//!
//! A caller:
//!
//! ```
//! let mut rows = RowReader::of_file(File::open(rt, "fleet.csv")?.bytes());
//! let row = row_numbered(alloc, &mut rows, 6)?;
//! let hint = row_hint(alloc, "fleet.csv", InputTable::Fleet, 6, &Wrong::UnknownNode, row.as_ref())?;
//! ```
//!
//! Main clauses: none, only what safety needs.
#![tactic(auto)]

mod argument;
mod audited_line;
mod day;
mod file_fault;
mod key;
mod place;
mod row;
mod row_reader;
mod shown;
mod table;
mod warning;
mod wrong;

pub use argument::{ArgumentWrong, argument_hint};
pub use audited_line::{AuditWrong, line_hint, line_numbered};
pub use day::{DayWrong, day_hint, day_row};
pub use file_fault::{FileWrong, HeaderFound, file_hint};
pub use row::Row;
pub use row_reader::{RowReader, row_numbered};
pub use table::InputTable;
pub use warning::{ScriptWarning, has_no_row, script_warning, warning_text};
pub use wrong::{Wrong, row_hint};

#[cfg(test)]
mod tests;
