//! The lines of a script that is written while it is read, each judged as the one row of a script. The crates
//! of the live session call it. It names the room `script`.

pub(crate) mod judge;
pub(crate) mod law;
pub(crate) mod lines;
pub(crate) mod rows;
pub(crate) mod start;
