ghost use Rattle.std.specs.Prelude.{◌≡◌, ◌≤◌, ◌<◌, ◌++◌, ℕ, All, Contains, IfOk, IsTrue, length, slice_index_or, slice_range};
ghost use Rattle.road_network.specs.declared.arc.Arc.{Arc};
ghost use Rattle.road_hierarchy.specs.work.build.Checked.{AreDowns, AreFromPlaces, AreUps, IsDown, IsPassed};
ghost use Rattle.road_hierarchy.specs.work.sweeps.Sweep.{IsWithin, far};

use crate::build::check::search::Search;
use crate::build::draft::{Draft, places_of};
use crate::sweeps::block::FAR;
use pool_base::OutOfMemory;
use road_network::Arc;
use std::alloc::Global;

/// How many nodes a search settles until it looks whether it may end.
const STEPS: [usize; 5] = [1, 4, 16, 64, 1024];

/// Whether there is a way past each node that is no longer, for each two arcs down to it and up from it. At most so many
/// arcs are looked at.
pub(crate) fn are_passed(alloc: Global, draft: &Draft, rest: u64) -> Result<bool, OutOfMemory>
    requires ups { AreUps (length draft.now.turns.items) draft.now.up.items }
    requires downs { AreDowns (length draft.now.turns.items) draft.now.down.items }
    requires listed { All (Contains (draft.now.up.items ++ draft.now.down.items)) draft.now.leaving.items }
    requires within { All (IsWithin (length draft.now.turns.items)) draft.now.leaving.items }
    ensures { IfOk result (λ passed. IsTrue passed → All (IsPassed (draft.now.up.items ++ draft.now.down.items) draft.now.up.items) draft.now.down.items) }
{
    let mut search = Search::new(alloc, draft.turns.len(), rest)?;
    are_each_passed(&mut search, draft, &draft.down)
}

/// The same of these arcs down.
fn are_each_passed(search: &mut Search, draft: &Draft, downs: &[Arc]) -> Result<bool, OutOfMemory>
    requires ups { AreUps (length draft.now.turns.items) draft.now.up.items }
    requires downs { All (IsDown (length draft.now.turns.items)) downs.now }
    requires listed { All (Contains (draft.now.up.items ++ draft.now.down.items)) draft.now.leaving.items }
    requires within { All (IsWithin (length draft.now.turns.items)) draft.now.leaving.items }
    requires length { length search.old.labels.items ≡ length draft.now.turns.items }
    requires none_later { All (λ label. label.search ≤ search.old.current) search.old.labels.items }
    ensures { IfOk result (λ passed. IsTrue passed → All (IsPassed (draft.now.up.items ++ draft.now.down.items) draft.now.up.items) downs.now) }
{
    for first in downs {
        if !is_passed(search, draft, *first)? {
            return Ok(false);
        }
    }
    Ok(true)
}

/// Whether there is a way past the node where an arc down ends, for each arc up from there.
fn is_passed(search: &mut Search, draft: &Draft, first: Arc) -> Result<bool, OutOfMemory>
    requires ups { AreUps (length draft.now.turns.items) draft.now.up.items }
    requires down { IsDown (length draft.now.turns.items) first }
    requires listed { All (Contains (draft.now.up.items ++ draft.now.down.items)) draft.now.leaving.items }
    requires within { All (IsWithin (length draft.now.turns.items)) draft.now.leaving.items }
    requires length { length search.old.labels.items ≡ length draft.now.turns.items }
    requires none_later { All (λ label. label.search ≤ search.old.current) search.old.labels.items }
    ensures length { length search.new.labels.items ≡ length search.old.labels.items }
    ensures none_later { IfOk result (λ passed. IsTrue passed → All (λ label. label.search ≤ search.new.current) search.new.labels.items) }
    ensures passed { IfOk result (λ passed. IsTrue passed → IsPassed (draft.now.up.items ++ draft.now.down.items) draft.now.up.items first) }
{
    let (start, end) = places_of(&draft.up_starts, first.to as usize);
    if search.rest == 0 || !are_from(&draft.up, first.to, start, end) {
        return Ok(false);
    }
    let ups = between(&draft.up, start, end);
    let most = most_seconds(first, ups);
    if !search.begin(first)? {
        return Ok(false);
    }
    for steps in STEPS {
        search.settle(draft, first, most, steps)?;
        if search.reaches_all(first, ups) {
            return Ok(true);
        }
    }
    Ok(false)
}

/// Whether all arcs that start at a node stand at these places.
fn are_from(up: &[Arc], node: u32, start: usize, end: usize) -> bool
    requires { (i j : ℕ) (d : Arc) → i ≤ j → j < length up.now → (slice_index_or up.now i d).from ≤ (slice_index_or up.now j d).from }
    ensures { IsTrue result → AreFromPlaces up.now node start end }
{
    if start > end || end > up.len() {
        return false;
    }
    if start > 0 && up[start - 1].from >= node {
        return false;
    }
    end == up.len() || up[end].from > node
}

/// The arcs at these places.
fn between(arcs: &[Arc], start: usize, end: usize) -> &[Arc]
    requires rising { start ≤ end }
    requires within { end ≤ length arcs.now }
    ensures { result.now ≡ slice_range arcs.now start end }
{
    &arcs[start..end]
}

/// The seconds of the longest way by an arc down and one of these up.
fn most_seconds(first: Arc, ups: &[Arc]) -> u32
    requires short { first.seconds ≤ far }
    ensures { result ≤ far }
{
    let mut most = 0;
    for second in ups {
        most = second.seconds.max(most);
    }
    first.seconds.saturating_add(most).min(FAR)
}
