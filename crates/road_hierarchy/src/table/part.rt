ghost use Rattle.std.specs.Prelude.{◌≡◌, ◌<◌, All, Bool, IfOk, List, length, map, true, ℕ};
ghost use Rattle.road_hierarchy.specs.work.build.Turns.{turn_of};
ghost use Rattle.road_hierarchy.specs.work.sweeps.Marks.{is_marked};
ghost use Rattle.road_hierarchy.specs.work.sweeps.Sweep.{AreInTurn, IsWithin};
ghost use Rattle.road_hierarchy.specs.work.table.Part.{IsPart};

use crate::build::check::checked::Hierarchy;
use crate::sweeps::marks::{leading_to_marked, leaving_marked, mark_back, mark_onward};
use pool_base::OutOfMemory;
use road_network::Arc;
use std::alloc::Global;

/// The part of a hierarchy that a table needs: what leads up from its points, and what leads down to them (Delling, Goldberg
/// and Werneck 2011).
#[derive(Drop)]
pub(crate) struct Part {
    /// How many nodes there are.
    pub nodes: usize,
    /// The turns of the points.
    pub turned: Vec<u32>,
    pub up: Vec<Arc>,
    pub down: Vec<Arc>,
    pub ghost below: { All (λ turn. turn < nodes) turned.items },
    pub ghost up_turn: { AreInTurn up.items },
    pub ghost up_within: { All (IsWithin nodes) up.items },
    pub ghost down_turn: { AreInTurn down.items },
    pub ghost down_within: { All (IsWithin nodes) down.items },
}

impl Part {
    /// The part for these points.
    pub(crate) fn of(
        alloc: Global,
        hierarchy: &Hierarchy<'_>,
        points: &[usize],
    ) -> Result<Part, OutOfMemory>
        requires { All (λ point. point < length hierarchy.now.nodes) points.now }
        ensures length { IfOk result (λ part. length part.turned.items ≡ length points.now) }
        ensures part { IfOk result (λ part. IsPart hierarchy.now points.now part.nodes part.turned.items part.up.items part.down.items) }
    {
        hierarchy.network.keeps();
        let nodes = hierarchy.turns.len();
        let turned = turns_of(alloc, &hierarchy.turns, points)?;
        let mut known = marks_of(alloc, nodes, &turned)?;
        mark_onward(&hierarchy.up, &mut known);
        let up = leaving_marked(alloc, &hierarchy.up, &known)?;
        let mut wanted = marks_of(alloc, nodes, &turned)?;
        mark_back(&hierarchy.down, &mut wanted);
        let down = leading_to_marked(alloc, &hierarchy.down, &wanted)?;
        Ok(Part {
            nodes,
            turned,
            up,
            down,
        })
    }
}

/// The turns of some nodes.
fn turns_of(alloc: Global, turns: &[u32], points: &[usize]) -> Result<Vec<u32>, OutOfMemory>
    requires { All (λ point. point < length turns.now) points.now }
    ensures { IfOk result (λ turned. turned.items ≡ map (turn_of turns.now) points.now) }
{
    let mut turned = Vec::with_capacity(alloc, points.len())?;
    for &point in points {
        turned.push(turns[point])?;
    }
    Ok(turned)
}

/// Marks of so many nodes, of which these are marked.
fn marks_of(alloc: Global, nodes: usize, turned: &[u32]) -> Result<Vec<bool>, OutOfMemory>
    requires { All (λ turn. turn < nodes) turned.now }
    ensures length { IfOk result (λ marks. length marks.items ≡ nodes) }
    ensures marked { IfOk result (λ marks. All (λ turn. is_marked marks.items turn ≡ true) turned.now) }
{
    let mut marks = vec![in alloc; false; nodes]?;
    for &turn in turned {
        marks[turn as usize] = true;
    }
    Ok(marks)
}
