//! Judges a search tree that anyone made: whether it is sound, and what it shows.
//!
//! A yes gives the tree's value, and no lawful plan costs less; a no names the first node that is wrong.
//! With the search it shares the types alone: which rows may be chosen at a node, what a leaf shows and which
//! places are dead ends it computes by loops of its own, as plain as the definitions.
//!
//! A caller:
//!
//! ```
//! let fives = Tree::of(vec![in alloc; leaf(alloc, 5120)?]?);
//! assert_eq!(rt; value(check(alloc, &graph, &fives)), Some(15));
//! let dead = Tree::of(vec![in alloc; Node::Dead]?);
//! assert_eq!(rt;
//!     fault(check(alloc, &graph, &dead)),
//!     Some(CheckFault::BadDead { node: 0 })
//! );
//! ```
//!
//! Main clauses: `check`: `tree`, `bound`, `fault`.
#![tactic(auto)]

mod checker;
mod dead_end;
mod decisions;
mod fault;
mod leaf;
mod walk;

pub use checker::check;
pub use fault::CheckFault;
