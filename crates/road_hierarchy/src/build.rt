//! A hierarchy is drafted and then checked. The draft is nodes in the order of their turns, with arcs up and down. Nothing
//! is proved of it. The check is: what passes it is a hierarchy. It names `sweeps`.

pub(crate) mod check;
pub(crate) mod contraction;
pub(crate) mod draft;
pub(crate) mod lists;
pub(crate) mod turns;
