//! Plans that get better step by step: what a plan leaves, the rows that it may take instead, and the two
//! searches that change it. Scouts and the draft call it. It names `relaxation`, `costs` and `allowance`.

pub(crate) mod annealing;
mod choices;
mod neighbourhood;
pub(crate) mod plans;
mod present;
pub(crate) mod regrets;
pub(crate) mod row_neighbours;
