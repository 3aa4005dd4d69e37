ghost use Rattle.std.specs.Prelude.{◌≡◌, ◌+◌, ◌<◌, ◌≤◌, ◌↔◌, All, IfOk, IfSome, IfNone, IsFalse, MatchOption, OnOk};
ghost use Rattle.pool_base.specs.Times.{point_count, travel_time};
ghost use Rattle.stop_orders.specs.task.Task.{IsTask, IsServable, IsLeastDelay};
ghost use Rattle.stop_orders.specs.lemmas.task.Rest.{left_count};
ghost use Rattle.stop_orders.specs.lemmas.search.Plain.{NoneBetter};
ghost use Rattle.stop_orders.specs.work.search.Label.{IsRoutable, IsSmallLabel, task_riders, task_passengers};
ghost use Rattle.stop_orders.specs.work.search.LabelStore.{labels_of};
ghost use Rattle.stop_orders.specs.work.search.Search.{IsLabelDone};
ghost use Rattle.stop_orders.specs.work.search.Cost.{route_of, IsPersonTried, IsNextOf, Priced};

use crate::Workspace;
use crate::search::ahead::look_ahead;
use crate::search::label::{Label, first_label_of, label_after, next_stop, second_of};
use crate::search::label_store::LabelStore;
use crate::task::task::Task;
use pool_base::{OutOfMemory, Steps, Times};
use std::sync::ledger::Ledger;

/// The least delay of an order that serves the task, without the order; `None` exactly where no order serves. It
/// counts one step.
///
/// It tries stops in no order, and keeps no order, which takes half of what `least_delay_with` takes where stops are few.
pub fn least_cost_with<L: Ledger>(
    workspace: &mut Workspace,
    task: &Task,
    times: &Times,
    steps: &mut Steps<L>,
) -> Result<Option<u64>, OutOfMemory>
    requires valid { IsTask (point_count times.now) task.now }
    ensures least { IfOk result (λ answer. IfSome answer (IsLeastDelay (travel_time times.entry.now) task.entry.now)) }
    ensures none { IfOk result (λ answer. IfNone answer (IsServable (travel_time times.entry.now) task.entry.now → ⊥)) }
    ensures step { steps.new ≡ steps.old + 1 }
{
    steps.tick();
    let store = &mut workspace.store;
    store.begin(task.riders.len() * 2 + task.aboard.len())?;
    let label = first_label_of(task);
    let Some(_ahead) = look_ahead(task, times, &label) else {
        return Ok(None);
    };
    let mut best = None;
    try_costs(task, times, &label, &mut best, store)?;
    Ok(best)
}

/// Tries all ways on from a label, depth first, but for those from labels that are hopeless.
fn try_costs(
    task: &Task,
    times: &Times,
    label: &Label,
    best: &mut Option<u64>,
    store: &mut LabelStore,
) -> Result<(), OutOfMemory>
    requires valid { IsRoutable (point_count times.now) task.now }
    requires small { IsSmallLabel (point_count times.now) (left_count (task_riders task.now) (task_passengers task.now) label.now.done) label.now }
    requires settled { All (IsLabelDone (point_count times.now) (travel_time times.now) task.now (route_of best.old)) (labels_of store.old) }
    ensures { OnOk result (Priced (point_count times.now) (travel_time times.now) task.now label.now best.old best.new (labels_of store.new)) }
{
    if label.done.is_all(task.riders.len(), task.aboard.len()) {
        if is_less(label.delay, best) {
            *best = Some(label.delay);
        }
        return Ok(());
    }
    for person in 0..task.riders.len() + task.aboard.len() {
        let Some(next) = label_by(task, times, label, person, best, store) else {
            continue;
        };
        try_costs(task, times, &next, best, store)?;
    }
    if !store.is_of_use() {
        return Ok(());
    }
    store.keep(*label)
}

/// The label after the next stop of a person, riders first; `None` where the person has none, or it can't be served, or
/// it is seen at once that no way on from there has less delay than what was found.
#[inline(always)]
fn label_by(
    task: &Task,
    times: &Times,
    label: &Label,
    person: usize,
    best: &Option<u64>,
    store: &LabelStore,
) -> Option<Label>
    requires valid { IsRoutable (point_count times.now) task.now }
    requires small { IsSmallLabel (point_count times.now) (left_count (task_riders task.now) (task_passengers task.now) label.now.done) label.now }
    requires person { person < task_riders task.now + task_passengers task.now }
    requires settled { All (IsLabelDone (point_count times.now) (travel_time times.now) task.now (route_of best.now)) (labels_of store.now) }
    ensures { MatchOption result (IsPersonTried (travel_time times.now) task.now (route_of best.now) label.now person)
        (IsNextOf (travel_time times.now) task.now label.now person) }
{
    let Some(stop) = next_stop(task, label, person) else {
        return None;
    };
    let Some(second) = second_of(task, times, label, stop) else {
        return None;
    };
    let next = label_after(task, label, stop, second);
    let Some(ahead) = look_ahead(task, times, &next) else {
        return None;
    };
    if !is_less(next.delay + ahead, best) {
        return None;
    }
    if store.is_of_use() && store.dominates(times, &next) {
        return None;
    }
    Some(next)
}

/// Whether this delay is less than what was found.
#[inline(always)]
fn is_less(delay: u64, best: &Option<u64>) -> bool
    ensures { IsFalse result ↔ NoneBetter (route_of best.now) delay }
{
    match best {
        None => true,
        Some(least) => delay < *least,
    }
}
