//! The tree that shows how good a plan is: its nodes, the decisions that part them, and the workers that
//! share them. The draft and scouts call it. It names `relaxation`, `diving`, `costs` and `allowance`.

mod brancher;
pub(crate) mod branching;
pub(crate) mod tree;
