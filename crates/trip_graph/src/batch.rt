//! The graph of all vehicles: levels in pieces for several workers, then edges and rows, or the answer that
//! there are too many. The engine and the audit call it. It names `pairs` and `vehicle`.

mod all_levels;
pub(crate) mod answer;
mod batch_growth;
mod edges;
pub(crate) mod graph_growth;
mod level_run;
mod levels;
mod pieces;
mod rows;
mod run;
mod workers;
