/// Where in a row of CSV a byte stands.
#[derive(Clone, Copy)]
pub(crate) enum Place {
    FieldStart,
    Plain,
    Quoted,
    /// Behind a quote within a quoted field: its end, or the first of two.
    Closing,
}

/// What a byte of CSV is.
#[derive(Clone, Copy)]
pub(crate) enum Piece {
    /// A byte of a field.
    Byte,
    /// A quote that opens or closes a field.
    Quote,
    FieldEnd,
    RowEnd,
}

impl Place {
    /// What a byte is in this place, and the place behind it.
    pub(crate) fn step(self, byte: u8) -> (Piece, Place) {
        match (self, byte) {
            (Place::FieldStart, b'"') => (Piece::Quote, Place::Quoted),
            (Place::Quoted, b'"') => (Piece::Quote, Place::Closing),
            (Place::Closing, b'"') => (Piece::Byte, Place::Quoted),
            (Place::Quoted, _) => (Piece::Byte, Place::Quoted),
            (_, b',') => (Piece::FieldEnd, Place::FieldStart),
            (_, b'\n' | b'\r') => (Piece::RowEnd, Place::FieldStart),
            _ => (Piece::Byte, Place::Plain),
        }
    }
}
