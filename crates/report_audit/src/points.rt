//! An outcome, judged point by point, whoever made it, and the laws by which a batch poses one problem.
//! `block` calls `judge`. It names no other room.

pub(crate) mod best;
pub(crate) mod bound;
mod choices;
mod graphs;
pub(crate) mod judging;
mod late;
mod limit;
mod moves;
pub(crate) mod nodes;
mod orders;
mod plan;
pub(crate) mod plan_laws;
pub(crate) mod problem_laws;
pub(crate) mod tight;
mod trips;
pub(crate) mod verdict;
