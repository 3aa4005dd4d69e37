//! What riders are told, read off a journal, and those who are lent to tell it. The crates above call it. It
//! names the rooms `values` and `register`, and `book`.

pub(crate) mod memory_notifier;
pub(crate) mod notice;
pub(crate) mod notifier;
pub(crate) mod noting;
pub(crate) mod telling;
