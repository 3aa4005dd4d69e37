use crate::place::{Piece, Place};
use std::alloc::{AllocError, Global};

/// A row as it stands in a file.
#[derive(Drop)]
pub struct Row {
    /// Rows count from 1 behind the header, which is row 0.
    pub number: u64,
    /// The line of the file on which the row begins, from 1. Empty lines count.
    pub line: u64,
    /// How many fields the header has.
    pub header_fields: u64,
    /// The row's text without its end, at most 65,536 bytes of it.
    pub text: Vec<u8>,
}

impl Row {
    /// How many fields the row has.
    pub fn field_count(&self) -> u64 {
        let mut count = 1u64;
        let mut place = Place::FieldStart;
        for byte in &self.text {
            let (piece, next) = place.step(*byte);
            place = next;
            if matches!(piece, Piece::FieldEnd) {
                count = count.wrapping_add(1);
            }
        }
        count
    }

    /// The field of a column, from 1, without its quotes; empty where there is none.
    pub fn field(&self, alloc: Global, column: u64) -> Result<Vec<u8>, AllocError> {
        let mut field = Vec::new(alloc);
        let mut at = 1u64;
        let mut place = Place::FieldStart;
        for byte in &self.text {
            let (piece, next) = place.step(*byte);
            place = next;
            match piece {
                Piece::FieldEnd => at = at.wrapping_add(1),
                Piece::Byte if at == column => field.push(*byte)?,
                _ => {}
            }
        }
        Ok(field)
    }

    /// The number in a column, from 1; `None` where no number of 64 bits stands there.
    pub fn number_in(&self, alloc: Global, column: u64) -> Result<Option<u64>, AllocError> {
        let field = self.field(alloc, column)?;
        match str::from_utf8(&field) {
            Ok(text) => Ok(text.parse().ok()),
            Err(_) => Ok(None),
        }
    }

    /// Whether these bytes stand in a column, from 1.
    pub fn has(&self, alloc: Global, column: u64, bytes: &[u8]) -> Result<bool, AllocError> {
        let field = self.field(alloc, column)?;
        Ok(field.as_slice() == bytes)
    }
}
