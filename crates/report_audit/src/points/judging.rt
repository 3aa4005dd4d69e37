//! The judge of an outcome.
ghost use Rattle.std.specs.Prelude.{◌≡◌, ◌↔◌, ◌<◌, All, Contains, IfOk, IsTrue};
ghost use Rattle.request_book.specs.Points.{named_nodes};
ghost use Rattle.dispatch_engine.specs.outcome.Instance.{AreExact, HasSoundLimits, posed_by};
ghost use Rattle.dispatch_engine.specs.outcome.Outcome.{AnswersWith, IsGoodOutcome};
ghost use Rattle.dispatch_engine.specs.outcome.Points.{Holds};
ghost use Rattle.dispatch_engine.specs.outcome.Told.{left_riders};
ghost use Rattle.dispatch_engine.specs.declared.outcome.point.Point.{Point as OnePoint};
ghost use Rattle.pool_base.specs.Times.{travel_time};
ghost use Rattle.assignment_search.specs.Found.{ShowsBound, IsClose, IsFair};
ghost use Rattle.report_audit.specs.points.Verdict.{IsVerdictOf, Meets, point_place};
ghost use Rattle.report_audit.specs.declared.points.verdict.Verdict.TheVariants.{Good};
ghost use Rattle.report_audit.specs.work.points.Orders.{HasOwnIds};
ghost use Rattle.report_audit.specs.work.points.Trips.{GivesTrips};

use crate::points::best::is_best_near;
use crate::points::bound::shows_bound;
use crate::points::graphs::{are_same_riders, tells_graphs};
use crate::points::late::are_late;
use crate::points::moves::are_moves;
use crate::points::nodes::is_fair;
use crate::points::plan::tells_plan;
use crate::points::tight::is_close;
use crate::points::trips::plan_of_trips;
use crate::points::verdict::Verdict;
use dispatch_engine::{Graphs, Instance, Point, left_riders, settle};
use plan_rules::{Plan, TripGraph};
use pool_base::OutOfMemory;
use request_book::{Answer, Outcome, Planned, Snapshot};
use rider_limits::Settings;
use road_network::Network;
use shared_work::Gate;
use std::alloc::Global;
use std::thread::Threads;
use travel_times::Ways;
use trip_graph::{GraphAnswer, grow_graph};

/// Whether the outcome is a good one of this batch, whoever made it; else the first point that fails.
///
/// The batch is settled and its graphs are grown as a `BatchSolver` does it; nothing is searched for.
/// It fails only for want of memory.
pub fn judge<W: Ways, G: Gate>(
    rt: &(impl Threads + Sync),
    alloc: Global,
    snapshot: &Snapshot,
    network: &Network,
    ways: &W,
    settings: &Settings,
    outcome: &Outcome,
    gate: &G,
) -> Result<Verdict, OutOfMemory>
    requires nodes { All (λ node. Contains network.now.nodes node) (named_nodes snapshot.now) }
    requires ways { W.roads ways.now ≡ network.now }
    ensures points { IfOk result (IsVerdictOf (Meets settings.entry.now network.entry.now snapshot.entry.now outcome.entry.now)) }
    ensures good { IfOk result (λ verdict. (verdict ≡ Good) ↔ IsGoodOutcome settings.entry.now network.entry.now snapshot.entry.now outcome.entry.now) }
{
    if !are_same_riders(outcome.expired.as_slice(), snapshot.expired.as_slice()) {
        return Ok(Verdict::Fails(Point::Answer));
    }
    let points = snapshot.points(alloc)?;
    let times = ways.table(rt, alloc, points.nodes())?;
    let settled = settle(alloc, snapshot, settings, &points, &times)?;
    let instance = Instance {
        settings,
        points: &points,
        times: &times,
        settled: &settled,
    };
    judge_answer(rt, alloc, &instance, &outcome.answer, gate)
}

/// The same for the answer to a batch whose limits are settled.
fn judge_answer<G: Gate>(
    rt: &(impl Threads + Sync),
    alloc: Global,
    instance: &Instance<'_>,
    answer: &Answer,
    gate: &G,
) -> Result<Verdict, OutOfMemory>
    requires sound { HasSoundLimits instance.now }
    requires ids { HasOwnIds instance.now.settled.now }
    ensures { IfOk result (IsVerdictOf (λ q. AnswersWith instance.now.settings.now instance.now.points.now (travel_time instance.now.times.now) instance.now.settled.now (Holds instance.now.settings.now q) answer.now)) }
{
    let settled = instance.settled;
    match grow_graph(rt, alloc, settled, instance.times, instance.settings, gate)? {
        GraphAnswer::Overflow => match answer {
            Answer::Overflow => Ok(Verdict::Good),
            Answer::Planned(_planned) => Ok(Verdict::Fails(Point::Answer)),
        },
        GraphAnswer::Graph { graph, rv, rr } => match answer {
            Answer::Overflow => Ok(Verdict::Fails(Point::Answer)),
            Answer::Planned(planned) => {
                let graphs = Graphs {
                    instance,
                    graph: &graph,
                    rv: rv.as_slice(),
                    rr: &rr,
                };
                judge_plan(alloc, &graphs, planned)
            }
        },
    }
}

/// The same for a plan, with the graphs of the batch.
fn judge_plan(
    alloc: Global,
    graphs: &Graphs<'_, '_>,
    planned: &Planned,
) -> Result<Verdict, OutOfMemory>
    requires exact { AreExact graphs.now }
    requires ids { HasOwnIds graphs.now.instance.now.settled.now }
    ensures { IfOk result (IsVerdictOf (λ q. Holds graphs.now.instance.now.settings.now q planned.now (posed_by graphs.now))) }
{
    if !tells_graphs(alloc, graphs, planned)? {
        return Ok(Verdict::Fails(Point::Graphs));
    }
    if !are_late(alloc, graphs.instance, planned.late.as_slice())? {
        return Ok(Verdict::Fails(Point::Late));
    }
    match plan_of_trips(alloc, graphs, planned.chosen.as_slice())? {
        None => Ok(Verdict::Fails(Point::Trips)),
        Some(plan) => {
            let left = left_riders(alloc, graphs.graph, plan.chosen())?;
            judge_chosen(alloc, graphs, &plan, &left, planned)
        }
    }
}

/// The same from the fifth point on, with the plan that the trips give, and the riders whom it leaves out.
fn judge_chosen(
    alloc: Global,
    graphs: &Graphs<'_, '_>,
    plan: &Plan,
    left: &[usize],
    planned: &Planned,
) -> Result<Verdict, OutOfMemory>
    requires exact { AreExact graphs.now }
    requires gives { GivesTrips graphs.now.instance.now.points.now (travel_time graphs.now.instance.now.times.now) graphs.now.instance.now.settled.now graphs.now.graph.now plan.now planned.now.chosen }
    requires left { left.now ≡ left_riders graphs.now.graph.now plan.now }
    requires within { All (λ r. r < graphs.now.graph.now.riders) left.now }
    requires before { (q : OnePoint) → point_place q < 4 → Holds graphs.now.instance.now.settings.now q planned.now (posed_by graphs.now) }
    ensures { IfOk result (IsVerdictOf (λ q. Holds graphs.now.instance.now.settings.now q planned.now (posed_by graphs.now))) }
{
    let graph = graphs.graph;
    let budget = graphs.instance.settings.budget;
    if !tells_plan(alloc, graphs.instance.settled, graph, plan, left, planned)? {
        return Ok(Verdict::Fails(Point::Plan));
    }
    if !shows_bound(alloc, graph, budget, &planned.bound, &planned.tree)? {
        return Ok(Verdict::Fails(Point::Bound));
    }
    if !is_well_shown(alloc, graph, budget, planned)? {
        return Ok(Verdict::Fails(Point::Tree));
    }
    if !is_best_near(alloc, graph, plan)? {
        return Ok(Verdict::Fails(Point::Best));
    }
    let moves = planned.moves.as_slice();
    if !are_moves(alloc, graphs, plan.chosen(), left, moves)? {
        return Ok(Verdict::Fails(Point::Moves));
    }
    Ok(Verdict::Good)
}

/// Whether the bound is good enough, and the tree well made.
fn is_well_shown(
    alloc: Global,
    graph: &TripGraph,
    budget: u32,
    planned: &Planned,
) -> Result<bool, OutOfMemory>
    requires { ShowsBound graph.now budget planned.now.bound planned.now.tree }
    ensures { IfOk result (λ yes. IsTrue yes ↔ (IsClose graph.entry.now budget planned.entry.now.cost planned.entry.now.bound planned.entry.now.tree × IsFair graph.entry.now planned.entry.now.bound planned.entry.now.tree)) }
{
    if !is_close(
        alloc,
        graph,
        budget,
        planned.cost,
        &planned.bound,
        &planned.tree,
    )? {
        return Ok(false);
    }
    is_fair(alloc, graph, &planned.bound, &planned.tree)
}
