ghost use Rattle.std.specs.Prelude.{◌≡◌, ◌<◌, ◌≤◌, All, IfOk, filter, length};
ghost use Rattle.road_hierarchy.specs.work.sweeps.Sweep.{AreInTurn, IsWithin};
ghost use Rattle.road_hierarchy.specs.work.sweeps.Marks.{MarksBack, MarksOn, is_marked};

use pool_base::OutOfMemory;
use road_network::Arc;
use std::alloc::Global;

/// Marks whatever these arcs lead to from a marked node, in one pass.
pub(crate) fn mark_onward(arcs: &[Arc], marks: &mut [bool])
    requires turn { AreInTurn arcs.now }
    requires within { All (IsWithin (length marks.old)) arcs.now }
    ensures { MarksOn arcs.now marks.old marks.new }
{
    for arc in arcs {
        if marks[arc.from as usize] {
            marks[arc.to as usize] = true;
        }
    }
}

/// Marks whatever leads to a marked node along these arcs, in one pass from the last.
pub(crate) fn mark_back(arcs: &[Arc], marks: &mut [bool])
    requires turn { AreInTurn arcs.now }
    requires within { All (IsWithin (length marks.old)) arcs.now }
    ensures { MarksBack arcs.now marks.old marks.new }
{
    for done in 0..arcs.len() {
        let arc = arcs[arcs.len() - 1 - done];
        if marks[arc.to as usize] {
            marks[arc.from as usize] = true;
        }
    }
}

/// The arcs that leave marked nodes, in their order.
pub(crate) fn leaving_marked(
    alloc: Global,
    arcs: &[Arc],
    marks: &[bool],
) -> Result<Vec<Arc>, OutOfMemory>
    requires { All (IsWithin (length marks.now)) arcs.now }
    ensures { IfOk result (λ part. part.items ≡ filter (λ arc. is_marked marks.now arc.from) arcs.now) }
{
    let mut part = Vec::new(alloc);
    for arc in arcs {
        if marks[arc.from as usize] {
            part.push(*arc)?;
        }
    }
    Ok(part)
}

/// The arcs that lead to marked nodes, in their order.
pub(crate) fn leading_to_marked(
    alloc: Global,
    arcs: &[Arc],
    marks: &[bool],
) -> Result<Vec<Arc>, OutOfMemory>
    requires { All (IsWithin (length marks.now)) arcs.now }
    ensures { IfOk result (λ part. part.items ≡ filter (λ arc. is_marked marks.now arc.to) arcs.now) }
{
    let mut part = Vec::new(alloc);
    for arc in arcs {
        if marks[arc.to as usize] {
            part.push(*arc)?;
        }
    }
    Ok(part)
}
