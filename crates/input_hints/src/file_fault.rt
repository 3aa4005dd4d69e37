use crate::row::Row;
use crate::shown::shown;
use crate::table::InputTable;
use std::alloc::{AllocError, Global};

/// What stands where a header should.
#[derive(Clone, Copy)]
pub enum HeaderFound<'a> {
    Row(&'a Row),
    /// The file is empty.
    Nothing,
    /// The input can't be read again.
    Unknown,
}

/// What is wrong with a whole file.
#[derive(Clone, Copy)]
pub enum FileWrong<'a> {
    /// The first row isn't the header.
    Header(InputTable, HeaderFound<'a>),
    /// There are too many rows.
    TooManyRows(InputTable),
    /// It has more bytes than these.
    TooLong(u64),
    /// It can't be read, by these words of the system.
    Unreadable(&'a str),
}

/// The hint on a whole file.
pub fn file_hint(alloc: Global, path: &str, wrong: &FileWrong<'_>) -> Result<String, AllocError> {
    match wrong {
        FileWrong::Header(table, found) => header_hint(alloc, path, *table, *found),
        FileWrong::TooManyRows(table) => {
            let most = match table {
                InputTable::Network => "400000 streets",
                InputTable::Fleet => "500 vehicles",
                InputTable::Script => "200000 rows",
            };
            format!(in alloc; "{path}: at most {most}")
        }
        FileWrong::TooLong(most) => format!(in alloc; "{path}: at most {most} bytes"),
        FileWrong::Unreadable(words) => {
            let words = match words.split_once(" (os error") {
                Some((words, _)) => words,
                None => words,
            };
            format!(in alloc; "{path}: {words}")
        }
    }
}

fn header_hint(
    alloc: Global,
    path: &str,
    table: InputTable,
    found: HeaderFound<'_>,
) -> Result<String, AllocError> {
    let expected = table.header();
    let more = if table == InputTable::Script {
        " (or with ,e behind it)"
    } else {
        ""
    };
    let found = match found {
        HeaderFound::Unknown => return format!(in alloc; "{path}: expected {expected}{more}"),
        HeaderFound::Nothing => String::from_str(alloc, "nothing")?,
        HeaderFound::Row(row) => match kind_of(&row.text) {
            Some(kind) => String::from_str(alloc, kind)?,
            None => shown(alloc, &row.text)?,
        },
    };
    format!(in alloc; "{path}: expected {expected}{more}, found {found}")
}

/// What bytes look like that are no text.
fn kind_of(bytes: &[u8]) -> Option<&'static str> {
    if bytes.starts_with(b"\x1f\x8b") {
        return Some("a gzip file");
    }
    if bytes.starts_with(b"PK\x03\x04") {
        return Some("a zip file or a spreadsheet");
    }
    if bytes.starts_with(b"\xff\xfe") || bytes.starts_with(b"\xfe\xff") {
        return Some("a text in UTF-16");
    }
    if bytes.contains(&0) {
        return Some("bytes that are no text");
    }
    None
}
