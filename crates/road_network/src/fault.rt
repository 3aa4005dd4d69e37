/// Why rows are no road network. Rows and columns count from 1, the header is no row.
#[derive(Clone, Copy)]
pub enum NetworkFault {
    /// There are more than 400,000 rows.
    TooManyArcs,
    /// This field is no number, or names a node above 1,000,000,000.
    Number { row: u64, column: u64 },
    /// The arc takes more than 10,000 seconds.
    ArcTooLong { row: u64 },
    /// This row brings the number of nodes above 100,000.
    TooManyNodes { row: u64 },
    /// There was no memory.
    OutOfMemory,
}
