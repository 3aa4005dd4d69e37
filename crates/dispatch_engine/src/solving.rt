ghost use Rattle.std.specs.Prelude.{◌≡◌, All, Contains, IfOk, OnOk, IsOkAnd};
ghost use Rattle.request_book.specs.Points.{named_nodes};
ghost use Rattle.plan_rules.specs.Plan.{IsLawful};
ghost use Rattle.pool_base.specs.Times.{travel_time};
ghost use Rattle.dispatch_engine.specs.outcome.Instance.{AreExact, HasSoundLimits, posed_by};
ghost use Rattle.dispatch_engine.specs.outcome.Outcome.{AnswersWith, HasGraphsWith, IsGoodOutcome, IsGoodPlan};
ghost use Rattle.dispatch_engine.specs.work.outcome.Lists.{AreLists};

use crate::limits::settling::settle;
use crate::outcome::instance::{Graphs, Instance};
use crate::outcome::late::late_lines;
use crate::outcome::left::left_riders;
use crate::outcome::lines::{lapsed_ids, rider_ids, rr_lines, rv_lines, trip_row_lines};
use crate::outcome::moves::move_lines;
use crate::outcome::trips::chosen_trips;
use crate::solver::BatchSolver;
use assignment_search::{Found, search_by};
use plan_rules::Tree;
use pool_base::{OutOfMemory, Sequence};
use request_book::{Answer, Outcome, Planned, Snapshot};
use row_tables::Drafter;
use shared_work::Gate;
use std::alloc::Global;
use std::thread::Threads;
use travel_times::Ways;
use trip_graph::{GraphAnswer, grow_graph};

impl<W: Ways, D: Drafter, G: Gate> BatchSolver<'_, W, D, G> {
    /// Solves a batch, after Alonso-Mora, Samaranayake, Wallar, Frazzoli and Rus (2017): travel times between its
    /// nodes, limits, the graphs, an assignment with its bound, and moves of idle vehicles.
    ///
    /// The ways tell the travel times. The graph is grown by as many workers as the settings say, and the gate hears of
    /// each piece of that. The search follows what the drafter drafts by as many, and judges it. The answer is an overflow
    /// exactly where the trip graph has more rows than `settings.pairs`. It fails only for want of memory.
    pub fn solve(
        &self,
        rt: &(impl Threads + Sync),
        alloc: Global,
        snapshot: &Snapshot,
    ) -> Result<Outcome, OutOfMemory>
        requires { All (λ node. Contains self.now.network.now.nodes node) (named_nodes snapshot.now) }
        ensures { IfOk result (IsGoodOutcome self.entry.now.settings.now self.entry.now.network.now snapshot.entry.now) }
    {
        let settings = self.settings;
        let points = snapshot.points(alloc)?;
        let times = self.ways.table(rt, alloc, points.nodes())?;
        let settled = settle(alloc, snapshot, settings, &points, &times)?;
        let instance = Instance {
            settings,
            points: &points,
            times: &times,
            settled: &settled,
        };
        outcome_of(rt, alloc, snapshot, &instance, self.drafter, self.gate)
    }
}

/// Who expired before the batch, with the answer to it.
fn outcome_of<D: Drafter, G: Gate>(
    rt: &(impl Threads + Sync),
    alloc: Global,
    snapshot: &Snapshot,
    instance: &Instance<'_>,
    drafter: &D,
    gate: &G,
) -> Result<Outcome, OutOfMemory>
    requires { HasSoundLimits instance.now }
    ensures { IfOk result (λ outcome. (outcome.expired ≡ snapshot.entry.now.expired) × AnswersWith instance.now.settings.now instance.now.points.now (travel_time instance.now.times.now) instance.now.settled.now (IsGoodPlan instance.now.settings.now) outcome.answer) }
{
    let expired = Vec::from_slice(alloc, snapshot.expired.as_slice())?;
    let answer = answer_of(rt, alloc, instance, drafter, gate)?;
    Ok(Outcome {
        expired: Sequence::of(expired),
        answer,
    })
}

/// The plan of the batch, or an overflow.
fn answer_of<D: Drafter, G: Gate>(
    rt: &(impl Threads + Sync),
    alloc: Global,
    instance: &Instance<'_>,
    drafter: &D,
    gate: &G,
) -> Result<Answer, OutOfMemory>
    requires { HasSoundLimits instance.now }
    ensures { IfOk result (AnswersWith instance.now.settings.now instance.now.points.now (travel_time instance.now.times.now) instance.now.settled.now (IsGoodPlan instance.now.settings.now)) }
{
    let settled = instance.settled;
    match grow_graph(rt, alloc, settled, instance.times, instance.settings, gate)? {
        GraphAnswer::Overflow => Ok(Answer::Overflow),
        GraphAnswer::Graph { graph, rv, rr } => {
            let graphs = Graphs {
                instance,
                graph: &graph,
                rv: rv.as_slice(),
                rr: &rr,
            };
            let planned = planned_of(rt, alloc, &graphs, drafter)?;
            Ok(Answer::Planned(planned))
        }
    }
}

/// A plan of the trip graph, with all that it rests on.
fn planned_of<D: Drafter>(
    rt: &(impl Threads + Sync),
    alloc: Global,
    graphs: &Graphs<'_, '_>,
    drafter: &D,
) -> Result<Planned, OutOfMemory>
    requires { AreExact graphs.now }
    ensures { IfOk result (λ planned. HasGraphsWith graphs.now.instance.now.settings.now graphs.now.instance.now.points.now (travel_time graphs.now.instance.now.times.now) graphs.now.instance.now.settled.now (IsGoodPlan graphs.now.instance.now.settings.now planned)) }
{
    let graph = graphs.graph;
    let settings = graphs.instance.settings;
    let found = search_by(rt, alloc, graph, settings.budget, settings.workers, drafter)?;
    let bound = bound_of(&found);
    let mut planned = unlisted(alloc, found.cost, bound, found.tree);
    let chosen = found.plan.chosen();
    match list_all(&mut planned, alloc, graphs, chosen) {
        Ok(()) => Ok(planned),
        Err(fault) => {
            drop(planned);
            Err(fault)
        }
    }
}

/// A plan of this cost, with this bound and its tree, and with nothing in its lists.
fn unlisted(alloc: Global, cost: u64, bound: i128, tree: Tree) -> Planned
    ensures cost { result.cost ≡ cost }
    ensures bound { result.bound ≡ bound }
    ensures tree { result.tree ≡ tree }
{
    Planned {
        lapsed: Sequence::empty(alloc),
        late: Sequence::empty(alloc),
        rv: Sequence::empty(alloc),
        rr: Sequence::empty(alloc),
        rows: Sequence::empty(alloc),
        chosen: Sequence::empty(alloc),
        left: Sequence::empty(alloc),
        moves: Sequence::empty(alloc),
        cost,
        bound,
        tree,
    }
}

/// Fills the lists of a plan. A literal would drop, where one list fails, all lists before it.
fn list_all(
    planned: &mut Planned,
    alloc: Global,
    graphs: &Graphs<'_, '_>,
    chosen: &[Option<u32>],
) -> Result<(), OutOfMemory>
    requires exact { AreExact graphs.now }
    requires lawful { IsLawful graphs.now.graph.now chosen.now }
    ensures lists { OnOk result (AreLists (posed_by graphs.now) chosen.now planned.new) }
    ensures cost { planned.new.cost ≡ planned.old.cost }
    ensures bound { planned.new.bound ≡ planned.old.bound }
    ensures tree { planned.new.tree ≡ planned.old.tree }
{
    let settled = graphs.instance.settled;
    let graph = graphs.graph;
    let left = left_riders(alloc, graph, chosen)?;
    put(&mut planned.lapsed, lapsed_ids(alloc, settled))?;
    put(&mut planned.late, late_lines(alloc, graphs.instance))?;
    put(&mut planned.rv, rv_lines(alloc, settled, graphs.rv))?;
    put(&mut planned.rr, rr_lines(alloc, settled, graphs.rr.all()))?;
    put(
        &mut planned.rows,
        trip_row_lines(alloc, settled, graph.rows()),
    )?;
    put(&mut planned.chosen, chosen_trips(alloc, graphs, chosen))?;
    put(&mut planned.left, rider_ids(alloc, settled, &left))?;
    put(&mut planned.moves, move_lines(alloc, graphs, chosen, &left))?;
    Ok(())
}

/// Puts these items in place of a list, if there are any.
fn put<T: Drop>(
    list: &mut Sequence<T>,
    items: Result<Vec<T>, OutOfMemory>,
) -> Result<(), OutOfMemory>
    ensures { OnOk result (IsOkAnd items (λ v. list.new ≡ v.items)) }
{
    *list = Sequence::of(items?);
    Ok(())
}

/// The bound. It is a call, so that a caller knows that it is within its type's range.
fn bound_of(found: &Found) -> i128
    ensures { result ≡ found.now.bound }
{
    found.bound
}
