use crate::records::RowFault;

/// Why a file was refused: as rows, or by a rule of its own.
#[derive(Clone, Copy)]
pub enum Input<F> {
    /// The bytes are no rows under the header.
    Rows(RowFault),
    /// The rows break a rule of this file.
    Own(F),
}
