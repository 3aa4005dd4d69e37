//! Where a walk through a tree in preorder stands.
ghost use Rattle.std.specs.Prelude.{◌≡◌, ◌==◌, ◌+◌, ◌-◌, ◌&&◌, ◌||◌, not, ◌<◌, ◌≤◌, ℕ, [], ◌∷◌, ◌++◌, true, false, List, length, slice_index_or, OnOk, OnErr, MatchBool};
ghost use Rattle.plan_rules.specs.Graph.{Graph, row_vehicle};
ghost use Rattle.plan_rules.specs.Path.{standing_of, IsPathOf};

use crate::graph::TripGraph;
use pool_base::OutOfMemory;
use std::alloc::Global;
use std::marker::Model;

/// One step down a tree: the vehicle has this row alone, or no more.
#[derive(Clone, Copy)]
pub struct Decision {
    pub vehicle: u32,
    pub row: u32,
    pub alone: bool,
}

/// The decisions from the root to where a walk stands.
#[derive(Drop)]
pub struct Path {
    decisions: Vec<Decision>,
}

impl Model for Path {
    ghost use Rattle.std.specs.Prelude.{List};
    ghost use Rattle.plan_rules.specs.declared.path.Decision.{Decision as DecisionValue};

    ghost Value = { List DecisionValue };

    ghost view = { λ p. p.decisions.items };
}

impl Path {
    /// At the root.
    pub fn new(alloc: Global) -> Self
        ensures { result ≡ [] }
    {
        Path {
            decisions: Vec::new(alloc),
        }
    }

    /// The decisions from the root on.
    pub fn decisions(&self) -> &[Decision]
        ensures { result.now ≡ self.now }
    {
        self.decisions.as_slice()
    }

    /// Goes to the first subtree of a branch.
    pub fn enter(&mut self, vehicle: u32, row: u32) -> Result<(), OutOfMemory>
        ensures ok { OnOk result (self.new ≡ self.old ++ record { vehicle = vehicle; row = row; alone = true } ∷ []) }
        ensures err { OnErr result (self.new ≡ self.old) }
    {
        self.decisions.push(Decision {
            vehicle,
            row,
            alone: true,
        })?;
        Ok(())
    }

    /// Goes from a leaf or dead end to the next subtree. `false` where the tree is at its end.
    pub fn leave(&mut self) -> bool
        ensures next { (g : Graph) → MatchBool result ((standing_of g self.old).coming ≡ (standing_of g self.new).usable ∷ (standing_of g self.new).coming) ((standing_of g self.old).coming ≡ []) }
        ensures path { (g : Graph) → IsPathOf g self.old → IsPathOf g self.new }
    {
        let mut depth = self.decisions.len();
        while depth > 0 && !self.decisions[depth - 1].alone {
            depth -= 1;
        }
        self.decisions.truncate(depth);
        if depth == 0 {
            return false;
        }
        let last = self.decisions[depth - 1];
        self.decisions[depth - 1] = Decision {
            alone: false,
            ..last
        };
        true
    }

    /// Writes which rows may be chosen here.
    pub fn mark_usable(&self, graph: &TripGraph, usable: &mut [bool])
        requires len { length usable.old ≡ length graph.now.rows }
        requires path { IsPathOf graph.now self.now }
        ensures len { length usable.new ≡ length usable.old }
        ensures usable { (k : ℕ) → k < length graph.now.rows → slice_index_or usable.new k false ≡ (standing_of graph.now self.now).usable k }
    {
        mark_along(graph, self.decisions.as_slice(), usable)
    }
}

fn mark_along(graph: &TripGraph, path: &[Decision], usable: &mut [bool])
    requires len { length usable.old ≡ length graph.now.rows }
    requires path { IsPathOf graph.now path.now }
    ensures len { length usable.new ≡ length usable.old }
    ensures usable { (k : ℕ) → k < length graph.now.rows → slice_index_or usable.new k false ≡ (standing_of graph.now path.now).usable k }
{
    for may in usable.iter_mut() {
        *may = true;
    }
    for decision in path {
        if decision.alone {
            mark_alone(graph, *decision, usable);
        } else {
            usable[decision.row as usize] = false;
        }
    }
}

/// Takes the vehicle's other rows from the usable ones.
fn mark_alone(graph: &TripGraph, decision: Decision, usable: &mut [bool])
    requires len { length usable.old ≡ length graph.now.rows }
    requires vehicle { decision.vehicle < graph.now.vehicles }
    ensures len { length usable.new ≡ length usable.old }
    ensures usable { (k : ℕ) → k < length graph.now.rows → slice_index_or usable.new k false ≡ (slice_index_or usable.old k false && (not (row_vehicle graph.now k == decision.vehicle) || k == decision.row)) }
{
    let vehicle = decision.vehicle as usize;
    for row in graph.first_row(vehicle)..graph.first_row(vehicle + 1) {
        if row != decision.row as usize {
            usable[row] = false;
        }
    }
}
