//! Passes over the arcs of a hierarchy, sixteen sources side by side. The table is made by them. It names no other room.

pub(crate) mod block;
pub(crate) mod lanes;
pub(crate) mod marks;
