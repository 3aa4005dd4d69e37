//! Hints on refused rows of a script that is written while it is read.

use crate::hints::again::{Again, FileRows, bytes_again};
use crate::hints::cause::{Cause, refusal_cause};
use crate::hints::{STANDARD_INPUT, print_hint};
use input_hints::{InputTable, Row, RowReader, row_hint, row_numbered};
use input_rows::RowRefusal;
use std::alloc::AllocError;

/// Tells hints on refused rows. A script that is a file is read a second time, up to the row that was refused.
#[derive(Drop)]
pub(crate) struct LiveHints {
    rt: HostRuntime,
    path: Option<String>,
    rows: Option<FileRows>,
}

impl LiveHints {
    /// Hints on the script that this file gives, or standard input.
    pub(crate) fn of(rt: &HostRuntime, path: Option<&str>) -> Result<LiveHints, AllocError> {
        let path = match path {
            Some(path) => Some(String::from_str(rt.alloc(), path)?),
            None => None,
        };
        Ok(LiveHints {
            rt: *rt,
            path,
            rows: None,
        })
    }

    /// Tells why a row is refused.
    pub(crate) fn tell(&mut self, number: u64, refusal: &RowRefusal) {
        if let Ok(hint) = self.hint(number, refusal) {
            print_hint(&self.rt, hint.as_str());
        }
    }

    fn hint(&mut self, number: u64, refusal: &RowRefusal) -> Result<String, AllocError> {
        let row = self.row(number)?;
        let path = match &self.path {
            Some(path) => path.as_str(),
            None => STANDARD_INPUT,
        };
        let alloc = self.rt.alloc();
        match refusal_cause(number, refusal) {
            Cause::Row(number, wrong) => {
                row_hint(
                    alloc,
                    path,
                    InputTable::Script,
                    number,
                    &wrong,
                    row.as_ref(),
                )
            }
            _ => Err(AllocError),
        }
    }

    /// The row of a number, behind those that were told; `None` where it can't be read again.
    fn row(&mut self, number: u64) -> Result<Option<Row>, AllocError> {
        let Some(path) = &self.path else {
            return Ok(None);
        };
        if self.rows.is_none() {
            if let Again::Read(bytes) = bytes_again(&self.rt, path.as_str()) {
                self.rows = Some(RowReader::of_lines(bytes));
            }
        }
        match &mut self.rows {
            Some(rows) => row_numbered(self.rt.alloc(), rows, number),
            None => Ok(None),
        }
    }
}
