//! The leaf at the root, and the ends of a branch.
ghost use Rattle.std.specs.Prelude.{◌≡◌, ◌≤ℤ◌, ◌<◌, true, IfOk, length};
ghost use Rattle.plan_rules.specs.Multipliers.{usable_of, leaf_value, first_fit_value};
ghost use Rattle.plan_rules.specs.GoodGraph.{IsGoodGraph};
ghost use Rattle.plan_rules.specs.Size.{IsSmallSum};
ghost use Rattle.plan_rules.specs.Tree.{every_row, rounded_up};
ghost use Rattle.assignment_search.specs.work.Lookups.{AreLookupsOf};
ghost use Rattle.assignment_search.specs.work.Apart.{AgreeApart};
ghost use Rattle.assignment_search.specs.work.Growth.{IsGoodLeaf, IsJudged, IsNewEnd, IsNewLeaf};

use crate::guide::Guide;
use crate::lookups::Lookups;
use crate::{first_fit_by, first_fit_ceiling, leaf_value, quick_ceiling};
use plan_rules::{Multipliers, Node, TripGraph, is_dead_end, vehicle_part};
use pool_base::OutOfMemory;
use std::alloc::Global;

/// No leaf value is larger, nor less than this below 0.
const MOST_VALUE: i128 = 1500 * 147573952589676412928;

/// A leaf or a dead end, with the leaf's value.
#[derive(Drop)]
pub struct End {
    pub node: Node,
    pub value: i128,
    pub ghost small: { IsSmallSum 1500 value },
}

/// The multipliers of a leaf, with what they are worth where these rows may be chosen.
#[derive(Drop)]
pub struct Parent<'a> {
    pub graph: &'a TripGraph,
    pub allowed: &'a [bool],
    pub multipliers: &'a [i64],
    pub value: i128,
    pub ghost len: { length allowed.now ≡ length graph.now.rows },
    pub ghost judged: { IsJudged graph.now (usable_of allowed.now) multipliers.now value },
}

/// Multipliers with their leaf value.
#[derive(Drop)]
pub struct Judged {
    pub multipliers: Multipliers,
    pub value: i128,
}

/// A leaf at the root: the better of the first-fit multipliers and those that are suggested.
pub fn root_leaf(
    alloc: Global,
    graph: &TripGraph,
    lookups: &Lookups,
    guide: &Guide,
) -> Result<Judged, OutOfMemory>
    requires { AreLookupsOf graph.now lookups.now }
    ensures good { IsGoodGraph graph.now }
    ensures leaf { IfOk result (λ leaf. IsGoodLeaf graph.now (rounded_up leaf.value) every_row leaf.multipliers leaf.value) }
{
    let allowed = vec![in alloc; true; graph.rows().len()]?;
    let zeros = vec![in alloc; 0; graph.rider_count()]?;
    let suggested = guide.root_multipliers(alloc)?;
    let value = leaf_value(graph, &allowed, &zeros);
    let parent = Parent {
        graph,
        allowed: &allowed,
        multipliers: &zeros,
        value,
    };
    let best = best_of(alloc, lookups, &parent, suggested)?;
    Ok(best)
}

/// What the parent's multipliers are worth at these allowed rows, where only this vehicle's rows changed.
pub fn inherited_value(parent: &Parent<'_>, allowed: &[bool], vehicle: usize) -> i128
    requires allowed { length allowed.now ≡ length parent.now.graph.now.rows }
    requires vehicle { vehicle < parent.now.graph.now.vehicles }
    requires apart { AgreeApart parent.now.graph.now vehicle (usable_of parent.now.allowed.now) (usable_of allowed.now) }
    ensures { IsJudged parent.now.graph.now (usable_of allowed.now) parent.now.multipliers.now result }
{
    let old = vehicle_part(parent.graph, parent.allowed, parent.multipliers, vehicle);
    let new = vehicle_part(parent.graph, allowed, parent.multipliers, vehicle);
    let moved = parent.value - old + new;
    if is_small(moved) {
        moved
    } else {
        leaf_value(parent.graph, allowed, parent.multipliers)
    }
}

/// Whether so large a leaf value may be; none is larger.
fn is_small(value: i128) -> bool
    ensures { result ≡ true → IsSmallSum 1500 value }
{
    -MOST_VALUE <= value && value <= MOST_VALUE
}

/// The end with these allowed rows and, of the parent, these multipliers.
pub fn new_end(
    alloc: Global,
    lookups: &Lookups,
    parent: &Parent<'_>,
    suggested: Vec<i64>,
) -> Result<End, OutOfMemory>
    requires lookups { AreLookupsOf parent.now.graph.now lookups.now }
    ensures { IfOk result (λ end. IsNewEnd parent.now.graph.now (usable_of parent.now.allowed.now) parent.now.multipliers.now end.node end.value) }
{
    let mut marks = vec![in alloc; false; parent.graph.rider_count()]?;
    if is_dead_end(parent.graph, parent.allowed, &mut marks) {
        return Ok(End {
            node: Node::Dead,
            value: 0,
        });
    }
    let best = best_of(alloc, lookups, parent, suggested)?;
    Ok(End {
        node: Node::Leaf {
            multipliers: best.multipliers,
        },
        value: best.value,
    })
}

/// The best of the first-fit multipliers, the parent's, and those that are suggested, if there are as many of those
/// as riders. The first-fit ones are made only where they could be the best.
pub fn best_of(
    alloc: Global,
    lookups: &Lookups,
    parent: &Parent<'_>,
    suggested: Vec<i64>,
) -> Result<Judged, OutOfMemory>
    requires lookups { AreLookupsOf parent.now.graph.now lookups.now }
    ensures judged { IfOk result (λ best. IsJudged parent.now.graph.now (usable_of parent.now.allowed.now) best.multipliers best.value) }
    ensures first_fit { IfOk result (λ best. first_fit_value parent.now.graph.now (usable_of parent.now.allowed.now) ≤ℤ best.value) }
    ensures inherited { IfOk result (λ best. leaf_value parent.now.graph.now (usable_of parent.now.allowed.now) parent.now.multipliers.now ≤ℤ best.value) }
{
    let best = best_told(alloc, parent, suggested)?;
    if is_past_first_fit(alloc, lookups, parent, best.value)? {
        return Ok(best);
    }
    let fitted = first_fit_by(alloc, parent.graph, &lookups.index, parent.allowed)?;
    Ok(better_of(parent, best, fitted))
}

/// Whether it is seen at once that the first-fit multipliers are worth no more than this.
fn is_past_first_fit(
    alloc: Global,
    lookups: &Lookups,
    parent: &Parent<'_>,
    value: i128,
) -> Result<bool, OutOfMemory>
    requires { AreLookupsOf parent.now.graph.now lookups.now }
    ensures { IfOk result (λ past. past ≡ true → first_fit_value parent.now.graph.now (usable_of parent.now.allowed.now) ≤ℤ value) }
{
    if quick_ceiling(alloc, parent.graph, &lookups.cheapest, parent.allowed)? <= value {
        return Ok(true);
    }
    Ok(first_fit_ceiling(alloc, parent.graph, parent.allowed)? <= value)
}

/// The better of the parent's multipliers and those that are suggested, if there are as many of those as riders.
fn best_told(alloc: Global, parent: &Parent<'_>, suggested: Vec<i64>) -> Result<Judged, OutOfMemory>
    ensures judged { IfOk result (λ best. IsJudged parent.now.graph.now (usable_of parent.now.allowed.now) best.multipliers best.value) }
    ensures inherited { IfOk result (λ best. leaf_value parent.now.graph.now (usable_of parent.now.allowed.now) parent.now.multipliers.now ≤ℤ best.value) }
{
    let told = Judged {
        multipliers: Multipliers::of(Vec::from_slice(alloc, parent.multipliers)?),
        value: parent.value,
    };
    if suggested.len() != parent.graph.rider_count() {
        return Ok(told);
    }
    Ok(better_of(parent, told, Multipliers::of(suggested)))
}

/// The multipliers of greater leaf value.
fn better_of(parent: &Parent<'_>, best: Judged, other: Multipliers) -> Judged
    requires best { IsJudged parent.now.graph.now (usable_of parent.now.allowed.now) best.multipliers best.value }
    requires other { length other ≡ parent.now.graph.now.riders }
    ensures judged { IsJudged parent.now.graph.now (usable_of parent.now.allowed.now) result.multipliers result.value }
    ensures best { best.value ≤ℤ result.value }
    ensures other { leaf_value parent.now.graph.now (usable_of parent.now.allowed.now) other ≤ℤ result.value }
{
    let value = leaf_value(parent.graph, parent.allowed, other.as_slice());
    if value > best.value {
        Judged {
            multipliers: other,
            value,
        }
    } else {
        best
    }
}
