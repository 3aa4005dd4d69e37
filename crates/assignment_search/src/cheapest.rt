//! The cheapest allowed row of each vehicle.
ghost use Rattle.std.specs.Prelude.{◌≡◌, ◌<◌, ◌≤◌, ℕ, true, IfOk, IfSome, length, slice_index_or, pos};
ghost use Rattle.plan_rules.specs.Sums.{lesser};
ghost use Rattle.plan_rules.specs.Graph.{Graph, cost_at};
ghost use Rattle.plan_rules.specs.Multipliers.{usable_of};
ghost use Rattle.plan_rules.specs.Terms.{least_cost};
ghost use Rattle.plan_rules.specs.Tree.{MayUse};
ghost use Rattle.assignment_search.specs.Cheapest.{IsNoCheaper, AreCheapest, AreCheapestOf};
ghost use Rattle.assignment_search.specs.work.Size.{HasLeastCosts, IsCost};

use plan_rules::TripGraph;
use pool_base::OutOfMemory;
use std::alloc::Global;

/// For each vehicle a row that costs no more than any of its rows, allowed or not.
#[derive(Drop)]
pub struct CheapestRows {
    pub rows: Vec<u32>,
    /// Whether that was found of each row of the graph.
    pub is_right: bool,
}

impl CheapestRows {
    /// The cheapest rows of a graph, which are compared with all rows once.
    pub fn new(alloc: Global, graph: &TripGraph) -> Result<CheapestRows, OutOfMemory>
        ensures { IfOk result (AreCheapestOf graph.now) }
    {
        let mut rows = Vec::new(alloc);
        for vehicle in 0..graph.vehicle_count() {
            rows.push(cheapest_row(graph, vehicle))?;
        }
        let is_right = are_cheapest(graph, &rows);
        Ok(CheapestRows { rows, is_right })
    }

    /// No rows at hand.
    pub fn none(alloc: Global) -> CheapestRows
        ensures { (g : Graph) → AreCheapestOf g result }
    {
        CheapestRows {
            rows: Vec::new(alloc),
            is_right: false,
        }
    }
}

fn cheapest_row(graph: &TripGraph, vehicle: usize) -> u32
    requires { vehicle < graph.now.vehicles }
{
    let count = graph.vehicle_count();
    prove!(vehicle < count);
    let rows = graph.rows();
    let mut cheapest = 0;
    let mut least = u64::MAX;
    for row in graph.first_row(vehicle)..graph.first_row(vehicle + 1) {
        if rows[row].cost < least {
            least = rows[row].cost;
            cheapest = row;
        }
    }
    cheapest.min(u32::MAX as usize) as u32
}

/// Whether each row costs at least as much as the one that is listed for its vehicle.
fn are_cheapest(graph: &TripGraph, listed: &[u32]) -> bool
    requires { length listed.now ≡ graph.now.vehicles }
    ensures { result ≡ true → AreCheapest graph.now listed.now }
{
    let rows = graph.rows();
    for row in 0..rows.len() {
        if !is_no_cheaper(graph, listed, row) {
            return false;
        }
    }
    true
}

fn is_no_cheaper(graph: &TripGraph, listed: &[u32], row: usize) -> bool
    requires listed { length listed.now ≡ graph.now.vehicles }
    requires row { row < length graph.now.rows }
    ensures { result ≡ true → IsNoCheaper graph.now listed.now row }
{
    let rows = graph.rows();
    let cheapest = listed[rows[row].vehicle] as usize;
    cheapest < rows.len() && rows[cheapest].cost <= rows[row].cost
}

/// For each vehicle the least cost of an allowed row, 0 where it has none. Where the cheapest of all rows are at
/// hand, few others are looked at, since most of those are allowed.
pub fn least_costs(
    alloc: Global,
    graph: &TripGraph,
    cheapest: &CheapestRows,
    allowed: &[bool],
) -> Result<Vec<i64>, OutOfMemory>
    requires cheapest { AreCheapestOf graph.now cheapest.now }
    requires allowed { length allowed.now ≡ length graph.now.rows }
    ensures { IfOk result (λ costs. HasLeastCosts graph.now (usable_of allowed.now) costs.items) }
{
    let mut costs = Vec::new(alloc);
    for vehicle in 0..graph.vehicle_count() {
        costs.push(least_cost_by(graph, cheapest, allowed, vehicle))?;
    }
    Ok(costs)
}

fn least_cost_by(
    graph: &TripGraph,
    cheapest: &CheapestRows,
    allowed: &[bool],
    vehicle: usize,
) -> i64
    requires cheapest { AreCheapestOf graph.now cheapest.now }
    requires allowed { length allowed.now ≡ length graph.now.rows }
    requires vehicle { vehicle < graph.now.vehicles }
    ensures value { result ≡ least_cost graph.now (usable_of allowed.now) vehicle }
    ensures cost { IsCost result }
{
    if cheapest.is_right {
        if let Some(row) = allowed_row(graph, allowed, cheapest.rows.as_slice(), vehicle) {
            return cost_of_row(graph, row);
        }
    }
    least_cost_of(graph, allowed, vehicle)
}

/// The row that is listed for the vehicle, where it is the vehicle's and allowed.
fn allowed_row(graph: &TripGraph, allowed: &[bool], listed: &[u32], vehicle: usize) -> Option<usize>
    requires { length allowed.now ≡ length graph.now.rows }
    ensures { IfSome result (λ k. (k ≡ slice_index_or listed.now vehicle 0) × MayUse graph.now (usable_of allowed.now) vehicle k) }
{
    if vehicle >= listed.len() {
        return None;
    }
    let rows = graph.rows();
    let row = listed[vehicle] as usize;
    if row >= rows.len() || rows[row].vehicle != vehicle || !allowed[row] {
        return None;
    }
    Some(row)
}

fn cost_of_row(graph: &TripGraph, row: usize) -> i64
    requires { row < length graph.now.rows }
    ensures value { result ≡ pos (cost_at graph.now row) }
    ensures cost { IsCost result }
{
    let rows = graph.rows();
    rows[row].cost as i64
}

fn least_cost_of(graph: &TripGraph, allowed: &[bool], vehicle: usize) -> i64
    requires allowed { length allowed.now ≡ length graph.now.rows }
    requires vehicle { vehicle < graph.now.vehicles }
    ensures value { result ≡ least_cost graph.now (usable_of allowed.now) vehicle }
    ensures cost { IsCost result }
{
    let rows = graph.rows();
    let mut least: Option<i64> = None;
    for row in graph.first_row(vehicle)..graph.first_row(vehicle + 1) {
        if allowed[row] {
            least = Some(lesser_cost(least, rows[row].cost));
        }
    }
    least.unwrap_or(0)
}

fn lesser_cost(least: Option<i64>, cost: u64) -> i64
    requires least { IfSome least IsCost }
    requires cost { cost ≤ 1000000000 }
    ensures value { result ≡ lesser least (pos cost) }
    ensures cost { IsCost result }
{
    match least {
        None => cost as i64,
        Some(other) => other.min(cost as i64),
    }
}
