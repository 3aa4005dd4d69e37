//! The lines of a report, read back: words, numbers and lists, the head, the lines of a block in their order,
//! the kind of the next line, and the command of an entry's. The rooms of blocks and of reports call it. It names no other room.

pub(crate) mod block_line;
pub(crate) mod block_lines;
pub(crate) mod command;
pub(crate) mod head;
pub(crate) mod head_fault;
pub(crate) mod line_laws;
pub(crate) mod lists;
pub(crate) mod next;
pub(crate) mod words;
