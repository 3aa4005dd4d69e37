//! A walk through a tree, node by node.
ghost use Rattle.std.specs.Prelude.{◌≡◌, ◌≢◌, ◌<◌, ◌≤◌, ◌+◌, ◌↔◌, ℕ, IsTrue, OnOk, IfErr, length, Option, ℤ, true, false, not};
ghost use Rattle.plan_rules.specs.Graph.{Graph};
ghost use Rattle.plan_rules.specs.Multipliers.{usable_of};
ghost use Rattle.plan_rules.specs.Tree.{CanBranch};
ghost use Rattle.plan_rules.specs.Path.{standing_of, IsPathOf};
ghost use Rattle.plan_rules.specs.declared.node.Node.TheVariants.{Branch, Leaf, Dead};
ghost use Rattle.bound_checker.specs.lemmas.Visit.{coming_of};
ghost use Rattle.bound_checker.specs.work.Visit.{IsVisit, IsNodeFault, IsReady};

use crate::dead_end::is_dead_end;
use crate::decisions::{enter, leave, mark_allowed};
use crate::fault::CheckFault;
use crate::leaf::{leaf_value, lesser, seconds};
use plan_rules::{Decision, Node, TripGraph};
use std::alloc::Global;

/// Where a walk stands, what it has seen, and which rows may be chosen there.
#[derive(Drop)]
pub struct Walk {
    pub decisions: Vec<Decision>,
    pub ended: bool,
    pub least: Option<i128>,
    pub allowed: Vec<bool>,
}

impl Walk {
    /// Judges the node where the walk stands, and goes on from there.
    pub fn visit(
        &mut self,
        alloc: Global,
        graph: &TripGraph,
        node: &Node,
        place: usize,
    ) -> Result<(), CheckFault>
        requires ready { IsReady graph.now self.old }
        requires running { self.old.ended ≡ false }
        ensures ok { OnOk result (IsVisit graph.now node.now self.old self.new) }
        ensures err { IfErr result (IsNodeFault (standing_of graph.now self.old.decisions.items).usable graph.now node.now place) }
    {
        match node {
            Node::Branch { vehicle, row } => self.visit_branch(graph, *vehicle, *row, place),
            Node::Leaf { multipliers } => {
                self.visit_leaf(alloc, graph, multipliers.as_slice(), place)
            }
            Node::Dead => self.visit_dead(alloc, graph, place),
        }
    }

    fn visit_branch(
        &mut self,
        graph: &TripGraph,
        vehicle: u32,
        row: u32,
        place: usize,
    ) -> Result<(), CheckFault>
        requires ready { IsReady graph.now self.old }
        requires running { self.old.ended ≡ false }
        ensures ok { OnOk result (IsVisit graph.now (Branch vehicle row) self.old self.new) }
        ensures err { IfErr result (IsNodeFault (standing_of graph.now self.old.decisions.items).usable graph.now (Branch vehicle row) place) }
    {
        mark_allowed(graph, self.decisions.as_slice(), &mut self.allowed);
        if !can_branch(graph, &self.allowed, vehicle as usize, row as usize) {
            return Err(CheckFault::BadBranch { node: place as u64 });
        }
        enter(&mut self.decisions, vehicle, row)?;
        Ok(())
    }

    fn visit_leaf(
        &mut self,
        alloc: Global,
        graph: &TripGraph,
        multipliers: &[i64],
        place: usize,
    ) -> Result<(), CheckFault>
        requires ready { IsReady graph.now self.old }
        requires running { self.old.ended ≡ false }
        ensures ok { OnOk result (IsVisit graph.now (Leaf multipliers.now) self.old self.new) }
        ensures err { IfErr result (IsNodeFault (standing_of graph.now self.old.decisions.items).usable graph.now (Leaf multipliers.now) place) }
    {
        if multipliers.len() != graph.rider_count() {
            return Err(CheckFault::BadLeaf { node: place as u64 });
        }
        mark_allowed(graph, self.decisions.as_slice(), &mut self.allowed);
        let shown = leaf_value(alloc, graph, &self.allowed, multipliers)?;
        let value = seconds(shown);
        self.least = Some(lesser(self.least, value));
        let more = leave(&mut self.decisions)?;
        self.ended = !more;
        Ok(())
    }

    fn visit_dead(
        &mut self,
        alloc: Global,
        graph: &TripGraph,
        place: usize,
    ) -> Result<(), CheckFault>
        requires ready { IsReady graph.now self.old }
        requires running { self.old.ended ≡ false }
        ensures ok { OnOk result (IsVisit graph.now Dead self.old self.new) }
        ensures err { IfErr result (IsNodeFault (standing_of graph.now self.old.decisions.items).usable graph.now Dead place) }
    {
        mark_allowed(graph, self.decisions.as_slice(), &mut self.allowed);
        let dead = is_dead_end(alloc, graph, &self.allowed)?;
        if !dead {
            return Err(CheckFault::BadDead { node: place as u64 });
        }
        let more = leave(&mut self.decisions)?;
        self.ended = !more;
        Ok(())
    }
}

/// Whether the row is among the vehicle's allowed rows, and another one is.
fn can_branch(graph: &TripGraph, allowed: &[bool], vehicle: usize, row: usize) -> bool
    requires { length allowed.now ≡ length graph.now.rows }
    ensures value { IsTrue result ↔ CanBranch graph.now (usable_of allowed.now) vehicle row }
    ensures vehicle { IsTrue result → vehicle < graph.now.vehicles }
{
    if vehicle >= graph.vehicle_count() {
        return false;
    }
    let first = graph.first_row(vehicle);
    let end = graph.first_row(vehicle + 1);
    if row < first || row >= end || !allowed[row] {
        return false;
    }
    for other in first..end {
        if other != row && allowed[other] {
            return true;
        }
    }
    false
}
