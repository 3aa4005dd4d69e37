use crate::place::{Piece, Place};
use crate::row::Row;
use std::alloc::{AllocError, Global};
use std::io::{Bytes, Read};

/// The most bytes that are kept of a row.
const KEPT: usize = 65_536;

const BYTE_ORDER_MARK: &[u8] = b"\xef\xbb\xbf";

/// Reads the rows of a file one by one, and counts its lines.
#[derive(Drop)]
pub struct RowReader<R> {
    bytes: Bytes<R>,
    /// Whether a quoted field may go on behind the end of a line.
    spans_lines: bool,
    place: Place,
    last: u8,
    /// The line on which the next byte stands.
    line: u64,
    /// The number of the next row.
    number: u64,
    header_fields: u64,
}

impl<R: Read + Drop> RowReader<R> {
    /// The rows of a whole file.
    pub fn of_file(bytes: Bytes<R>) -> RowReader<R> {
        RowReader {
            bytes,
            spans_lines: true,
            place: Place::FieldStart,
            last: 0,
            line: 1,
            number: 0,
            header_fields: 0,
        }
    }

    /// The rows of a script that is read line by line.
    pub fn of_lines(bytes: Bytes<R>) -> RowReader<R> {
        RowReader {
            bytes,
            spans_lines: false,
            place: Place::FieldStart,
            last: 0,
            line: 1,
            number: 0,
            header_fields: 0,
        }
    }

    /// The next row, the header first; `None` behind the last one, and where a read fails.
    pub fn next_row(&mut self, alloc: Global) -> Result<Option<Row>, AllocError> {
        let mut row = Row {
            number: self.number,
            line: self.line,
            header_fields: self.header_fields,
            text: Vec::new(alloc),
        };
        for _ in 0..u64::MAX {
            let Some(Ok(byte)) = self.bytes.next() else {
                break;
            };
            if self.take(byte, &mut row)? {
                if self.number == 0 {
                    self.header_fields = row.field_count();
                }
                self.number = self.number.wrapping_add(1);
                return Ok(Some(row));
            }
        }
        if row.text.is_empty() {
            return Ok(None);
        }
        Ok(Some(row))
    }

    /// Takes a byte into a row, and says whether the row is whole.
    fn take(&mut self, byte: u8, row: &mut Row) -> Result<bool, AllocError> {
        let is_line_end = byte == b'\r' || byte == b'\n';
        let (piece, place) = if is_line_end && !self.spans_lines {
            (Piece::RowEnd, Place::FieldStart)
        } else {
            self.place.step(byte)
        };
        self.place = place;
        let is_second_of_both = byte == b'\n' && self.last == b'\r';
        self.last = byte;
        if matches!(piece, Piece::RowEnd) {
            drop_mark(row);
        }
        let is_whole = matches!(piece, Piece::RowEnd) && !row.text.is_empty();
        if !matches!(piece, Piece::RowEnd) {
            if row.text.is_empty() {
                row.line = self.line;
            }
            if row.text.len() < KEPT {
                row.text.push(byte)?;
            }
        }
        if is_line_end && !is_second_of_both {
            self.line = self.line.wrapping_add(1);
        }
        Ok(is_whole)
    }
}

/// Drops a byte-order mark at the front of a file.
fn drop_mark(row: &mut Row) {
    if row.line == 1 && row.text.starts_with(BYTE_ORDER_MARK) {
        row.text.rotate_left(BYTE_ORDER_MARK.len());
        row.text.truncate(row.text.len() - BYTE_ORDER_MARK.len());
    }
}

/// The row of a number, behind those that were read; `None` where there is none.
pub fn row_numbered<R: Read + Drop>(
    alloc: Global,
    rows: &mut RowReader<R>,
    number: u64,
) -> Result<Option<Row>, AllocError> {
    for _ in 0..u64::MAX {
        match rows.next_row(alloc)? {
            Some(row) if row.number == number => return Ok(Some(row)),
            Some(_) => {}
            None => return Ok(None),
        }
    }
    Ok(None)
}
