//! The block of one batch, read and judged: its lines, the outcome that they tell, and why a text begins with
//! no good block. `report` calls `audit_block`; `read_outcome` judges nothing. It names `lines` and `points`.

pub(crate) mod block;
mod block_lists;
mod judged;
pub(crate) mod laws;
pub(crate) mod refusal;
mod telling;
pub(crate) mod told;
