//! Public calls that the program itself never makes, each once, and calls in which threads meet at a lock and at a gate.
//! What the program calls on every run, the cases and drawn inputs of tests/ compare.
//!
//! It has tests alone, so that a crate under test is proved once and not a second time with its tests.
#![tactic(auto)]

#[cfg(test)]
mod growing;
#[cfg(test)]
mod labelling;
#[cfg(test)]
mod line;
#[cfg(test)]
mod moving;
#[cfg(test)]
mod orders;
#[cfg(test)]
mod pieces;
#[cfg(test)]
mod plans;
#[cfg(test)]
mod replying;
#[cfg(test)]
mod solving;
#[cfg(test)]
mod streams;
#[cfg(test)]
mod tables;
#[cfg(test)]
mod trees;
#[cfg(test)]
mod turns;
#[cfg(test)]
mod walking;
