ghost use Rattle.std.specs.Prelude.{◌≡◌, ◌++◌, All, Contains, IsTrue};

use crate::build::draft::Draft;
use road_network::Arc;

/// Whether each of the arcs by their starts is one of those up and down.
pub(crate) fn are_listed(draft: &Draft) -> bool
    ensures { IsTrue result → All (Contains (draft.now.up.items ++ draft.now.down.items)) draft.now.leaving.items }
{
    are_each_listed(draft, &draft.leaving)
}

/// The same of these arcs.
fn are_each_listed(draft: &Draft, arcs: &[Arc]) -> bool
    ensures { IsTrue result → All (Contains (draft.now.up.items ++ draft.now.down.items)) arcs.now }
{
    for arc in arcs {
        if !is_listed(draft, *arc) {
            return false;
        }
    }
    true
}

/// Whether an arc is one of those up and down.
fn is_listed(draft: &Draft, arc: Arc) -> bool
    ensures { IsTrue result → Contains (draft.now.up.items ++ draft.now.down.items) arc }
{
    match draft.joining(arc.from, arc.to) {
        Some(other) => other.seconds == arc.seconds,
        None => false,
    }
}
