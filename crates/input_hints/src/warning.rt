use crate::row::Row;
use crate::row_reader::RowReader;
use std::alloc::{AllocError, Global};
use std::io::Read;

/// What a script that is right may lack.
#[derive(Clone, Copy, PartialEq)]
pub enum ScriptWarning {
    /// There are requests and no seal.
    NoSeal,
    /// A request on this line of the file comes behind the last seal.
    BehindLastSeal { line: u64 },
}

/// What is known of a script behind some of its rows.
#[derive(Drop)]
struct Seen {
    has_request: bool,
    /// The round of the last seal.
    sealed: Option<u64>,
    /// The line of the first request behind the last seal.
    behind: Option<u64>,
}

impl Seen {
    fn take(&mut self, alloc: Global, row: &Row) -> Result<(), AllocError> {
        let round = row.number_in(alloc, 1)?;
        if row.has(alloc, 3, b"seal")? {
            self.sealed = round;
            self.behind = None;
        }
        if row.has(alloc, 3, b"submit")? {
            self.has_request = true;
            let is_behind = round != self.sealed || row.number_in(alloc, 2)? == Some(0);
            if is_behind && self.sealed.is_some() && self.behind.is_none() {
                self.behind = Some(row.line);
            }
        }
        Ok(())
    }

    fn warning(&self) -> Option<ScriptWarning> {
        match self.behind {
            Some(line) => Some(ScriptWarning::BehindLastSeal { line }),
            None if self.has_request && self.sealed.is_none() => Some(ScriptWarning::NoSeal),
            None => None,
        }
    }
}

/// What a script that was accepted lacks. Requests of the last seal's own round in other lanes may come before it.
pub fn script_warning<R: Read + Drop>(
    alloc: Global,
    rows: &mut RowReader<R>,
) -> Result<Option<ScriptWarning>, AllocError> {
    let mut seen = Seen {
        has_request: false,
        sealed: None,
        behind: None,
    };
    for _ in 0..u64::MAX {
        let Some(row) = rows.next_row(alloc)? else {
            break;
        };
        seen.take(alloc, &row)?;
    }
    Ok(seen.warning())
}

/// Whether a file has no row behind its header.
pub fn has_no_row<R: Read + Drop>(
    alloc: Global,
    rows: &mut RowReader<R>,
) -> Result<bool, AllocError> {
    let header = rows.next_row(alloc)?;
    Ok(header.is_some() && rows.next_row(alloc)?.is_none())
}

/// The line of a warning.
pub fn warning_text(
    alloc: Global,
    path: &str,
    warning: ScriptWarning,
) -> Result<String, AllocError> {
    match warning {
        ScriptWarning::NoSeal => {
            format!(in alloc; "warning: {path}: no seal, so no request is planned")
        }
        ScriptWarning::BehindLastSeal { line } => {
            format!(in alloc; "warning: {path}, line {line}: no seal follows this request")
        }
    }
}
