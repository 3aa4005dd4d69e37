//! What is checked of a draft.

pub(crate) mod backed;
pub(crate) mod checked;
pub(crate) mod kept;
pub(crate) mod label;
pub(crate) mod listed;
pub(crate) mod order;
pub(crate) mod past;
pub(crate) mod ready;
pub(crate) mod search;
