//! The greedy plan: row after row, the larger, cheaper and lesser first.
ghost use Rattle.std.specs.Prelude.{◌≡◌, ◌↔◌, ◌⊎◌, ℕ, ◌<◌, IsTrue, IfOk, length, replicate};
ghost use Rattle.plan_rules.specs.Graph.{choice_at};
ghost use Rattle.plan_rules.specs.GoodGraph.{IsGoodGraph};
ghost use Rattle.plan_rules.specs.Greedy.{IsGreedy, IsTaken};
ghost use Rattle.plan_rules.specs.work.Rank.{AreRanks, IsRanking, IsSelection, IsInTheWay};

use crate::graph::TripGraph;
use crate::marks::{is_any_marked, mark_riders};
use crate::plan::Plan;
use pool_base::OutOfMemory;
use std::alloc::Global;

/// What rows are sorted by: how many riders are missing to six, the cost, the number.
type Rank = (usize, u64, usize);

/// Rows by falling size, rising cost, rising number: a row is taken where its vehicle has none yet and
/// it shares no rider with those taken. The plan need not be lawful.
pub fn greedy(alloc: Global, graph: &TripGraph) -> Result<Plan, OutOfMemory>
    ensures { IfOk result (IsGreedy graph.now) }
{
    let ranks = ranking(alloc, graph)?;
    let mut chosen = no_choices(alloc, graph.vehicle_count())?;
    let mut served = vec![in alloc; false; graph.rider_count()]?;
    take_rows(graph, &ranks, &mut chosen, &mut served);
    Ok(Plan::of(chosen))
}

fn no_choices(alloc: Global, count: usize) -> Result<Vec<Option<u32>>, OutOfMemory>
    ensures { IfOk result (λ chosen. chosen.items ≡ replicate count None) }
{
    Ok(vec![in alloc; None; count]?)
}

/// Takes rows in the order of their ranks.
fn take_rows(graph: &TripGraph, ranks: &[Rank], chosen: &mut [Option<u32>], served: &mut [bool])
    requires good { IsGoodGraph graph.now }
    requires ranking { IsRanking graph.now ranks.now }
    requires selection { IsSelection graph.now chosen.old served.old }
    requires none { (k : ℕ) → IsTaken graph.now chosen.old k → ⊥ }
    ensures greedy { IsGreedy graph.now chosen.new }
    ensures len { length chosen.new ≡ length chosen.old }
{
    for rank in ranks {
        take_row(graph, rank.2, chosen, served);
    }
}

/// The ranks of all rows, in order.
fn ranking(alloc: Global, graph: &TripGraph) -> Result<Vec<Rank>, OutOfMemory>
    ensures { IfOk result (λ ranks. IsRanking graph.now ranks.items) }
{
    let mut ranks = ranks_of(alloc, graph)?;
    ranks.sort()?;
    Ok(ranks)
}

fn ranks_of(alloc: Global, graph: &TripGraph) -> Result<Vec<Rank>, OutOfMemory>
    ensures ranks { IfOk result (λ ranks. AreRanks graph.now ranks.items) }
    ensures good { IsGoodGraph graph.now }
{
    let mut ranks = Vec::new(alloc);
    for (k, row) in graph.rows().iter().enumerate() {
        ranks.push((6 - row.riders.len(), row.cost, k))?;
    }
    Ok(ranks)
}

/// Takes the row where its vehicle has none yet and none of its riders is marked.
fn take_row(graph: &TripGraph, row: usize, chosen: &mut [Option<u32>], served: &mut [bool])
    requires row { row < length graph.now.rows }
    requires selection { IsSelection graph.now chosen.old served.old }
    ensures selection { IsSelection graph.now chosen.new served.new }
    ensures keeps { (j : ℕ) → IsTaken graph.now chosen.old j → IsTaken graph.now chosen.new j }
    ensures adds { (j : ℕ) → j < length graph.now.rows → IsTaken graph.now chosen.new j → IsTaken graph.now chosen.old j ⊎ (j ≡ row) }
    ensures settled { IsTaken graph.now chosen.new row ⊎ IsInTheWay graph.now chosen.old row }
{
    let trip = &graph.rows()[row];
    let riders = trip.riders.as_slice();
    if is_free(chosen, trip.vehicle) && !is_any_marked(riders, served) {
        chosen[trip.vehicle] = Some(row as u32);
        mark_riders(riders, served);
    }
}

fn is_free(chosen: &[Option<u32>], vehicle: usize) -> bool
    requires { vehicle < length chosen.now }
    ensures { IsTrue result ↔ (choice_at chosen.now vehicle ≡ None) }
{
    chosen[vehicle].is_none()
}
