ghost use Rattle.std.specs.Prelude.{◌≡◌, ◌+◌, ◌<◌, ◌≤◌, ◌↔◌, All, IfOk, IsFalse, IsTrue, OnOk, length};
ghost use Rattle.pool_base.specs.Times.{point_count, travel_time};
ghost use Rattle.stop_orders.specs.task.Task.{IsOrderOf};
ghost use Rattle.stop_orders.specs.lemmas.task.Rest.{left_count};
ghost use Rattle.stop_orders.specs.lemmas.search.Plain.{IsFound, NoneBetter};
ghost use Rattle.stop_orders.specs.work.search.Label.{IsRoutable, IsSmallLabel, task_riders, task_passengers};
ghost use Rattle.stop_orders.specs.work.search.LabelStore.{labels_of};
ghost use Rattle.stop_orders.specs.work.search.Search.{LeadsTo, IsExhausted, IsLabelDone, Searched};

use crate::search::ahead::look_ahead;
use crate::search::candidate::list_candidates;
use crate::search::label::{Label, label_after};
use crate::search::label_store::LabelStore;
use crate::task::route::{Route, copy_of_stops};
use crate::task::stop::Stop;
use crate::task::task::Task;
use arrayvec::ArrayVec;
use pool_base::{OutOfMemory, Times};

/// Tries all ways on from a label, depth first and the soonest stop first, but for those from labels that
/// are hopeless. Its candidates take much room on the stack, so a label is judged before the call and not in it.
pub(crate) fn try_all(
    task: &Task,
    times: &Times,
    label: &Label,
    path: &mut ArrayVec<Stop, 22>,
    best: &mut Option<Route>,
    store: &mut LabelStore,
) -> Result<(), OutOfMemory>
    requires valid { IsRoutable (point_count times.now) task.now }
    requires leads { LeadsTo (travel_time times.now) task.now path.old.items label.now }
    requires small { IsSmallLabel (point_count times.now) (left_count (task_riders task.now) (task_passengers task.now) label.now.done) label.now }
    requires room { length path.old.items + left_count (task_riders task.now) (task_passengers task.now) label.now.done ≤ 22 }
    requires found { IsFound (travel_time times.now) task.now best.old }
    requires settled { All (IsLabelDone (point_count times.now) (travel_time times.now) task.now best.old) (labels_of store.old) }
    ensures path { OnOk result (path.new.items ≡ path.old.items) }
    ensures searched { OnOk result (Searched (point_count times.now) (travel_time times.now) task.now label.now best.old best.new (labels_of store.new)) }
{
    if label.done.is_all(task.riders.len(), task.aboard.len()) {
        if is_better(label.delay, best) {
            *best = Some(Route {
                stops: copy_of_stops(path),
                delay: label.delay,
            });
        }
        return Ok(());
    }
    let mut candidates = ArrayVec::new();
    list_candidates(task, times, label, &mut candidates);
    for candidate in candidates.as_slice() {
        let stop = candidate.stop;
        let next = label_after(task, label, stop, candidate.second);
        if is_hopeless(task, times, &next, best, store) {
            continue;
        }
        path.push(stop);
        try_all(task, times, &next, path, best, store)?;
        path.pop();
    }
    if !store.is_of_use() {
        return Ok(());
    }
    store.keep(*label)
}

/// Whether it is seen at once that no way on from a label is better than what was found: someone can't be
/// served any more, or not with less delay, or a label from which all ways on were tried dominates it.
#[inline(always)]
pub(crate) fn is_hopeless(
    task: &Task,
    times: &Times,
    label: &Label,
    best: &Option<Route>,
    store: &LabelStore,
) -> bool
    requires valid { IsRoutable (point_count times.now) task.now }
    requires small { IsSmallLabel (point_count times.now) (left_count (task_riders task.now) (task_passengers task.now) label.now.done) label.now }
    requires settled { All (IsLabelDone (point_count times.now) (travel_time times.now) task.now best.now) (labels_of store.now) }
    ensures { IsTrue result → IsExhausted (travel_time times.now) task.now best.now label.now }
{
    let Some(ahead) = look_ahead(task, times, label) else {
        return true;
    };
    if !is_better(label.delay + ahead, best) {
        return true;
    }
    store.is_of_use() && store.dominates(times, label)
}

/// Whether this delay is less than that of what was found.
#[inline(always)]
pub(crate) fn is_better(delay: u64, best: &Option<Route>) -> bool
    ensures { IsFalse result ↔ NoneBetter best.now delay }
{
    match best {
        None => true,
        Some(route) => delay < route.delay,
    }
}
