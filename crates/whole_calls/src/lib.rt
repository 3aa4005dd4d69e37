//! Whole runs over sources and a sink in memory, as a gate and notifiers see them: what no run of the program on files shows.
//!
//! It has tests alone, so that a crate under test is proved once and not a second time with its tests.
#![tactic(auto)]

#[cfg(test)]
mod calls;
#[cfg(test)]
mod gating;
#[cfg(test)]
mod telling;
#[cfg(test)]
mod walking;
