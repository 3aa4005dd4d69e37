use plan_rules::{Plan, Tree};

/// A plan with its cost in seconds, and a tree with its value, the bound.
#[derive(Drop)]
pub struct Found {
    pub plan: Plan,
    pub cost: u64,
    pub bound: i128,
    pub tree: Tree,
}
