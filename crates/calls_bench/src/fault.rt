use pool_base::{OutOfMemory, TimesFault};
use std::io;

/// Why not all was measured.
#[derive(Clone, Copy)]
pub enum Fault {
    Words,
    Network,
    Table,
    Io,
    OutOfMemory,
}

impl From<OutOfMemory> for Fault {
    fn from(_error: OutOfMemory) -> Fault {
        Fault::OutOfMemory
    }
}

impl From<TimesFault> for Fault {
    fn from(_error: TimesFault) -> Fault {
        Fault::Table
    }
}

impl From<io::Error> for Fault {
    fn from(_error: io::Error) -> Fault {
        Fault::Io
    }
}
