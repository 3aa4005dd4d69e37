//! The batch on the line, solved by ways that count how often they are asked.
ghost use Rattle.std.specs.Prelude.{◌≡◌, All, Contains};
ghost use Rattle.request_book.specs.Points.{named_nodes};

use crate::line::{LINE, batch_on, network_of, settings};
use dispatch_engine::BatchSolver;
use plan_drafts::RelaxationDrafter;
use pool_base::{NodeId, OutOfMemory, Times};
use request_book::{Answer, Outcome, Snapshot};
use rider_limits::Settings;
use road_network::Network;
use row_tables::Drafter;
use shared_work::{FreeGate, Gate};
use std::alloc::Global;
use std::sync::atomic::{AtomicU64, Ordering};
use std::thread::Threads;
use travel_times::{Ways, are_known, times_between};

/// The travel times of a network, with a count of the tables that were asked for.
#[derive(Drop)]
struct Counted<'a> {
    network: &'a Network,
    tables: AtomicU64,
}

impl Ways for Counted<'_> {
    ghost roads = { λ ways. ways.network.now };

    fn table<R: Threads + Sync>(
        &self,
        rt: &R,
        alloc: Global,
        nodes: &[NodeId],
    ) -> Result<Times, OutOfMemory> {
        self.tables.fetch_add(1, Ordering::SeqCst);
        times_between(rt, alloc, self.network, nodes)
    }
}

/// What a solver finds of a batch, whose nodes are known.
fn solved_with<W: Ways, D: Drafter, G: Gate>(
    rt: &(impl Threads + Sync),
    alloc: Global,
    snapshot: &Snapshot,
    solver: &BatchSolver<'_, W, D, G>,
) -> Option<Outcome>
    requires named { All (λ node. Contains solver.now.network.now.nodes node) (named_nodes snapshot.now) }
{
    solver.solve(rt, alloc, snapshot).ok()
}

/// The same of a batch whose nodes are looked up first.
fn solved_by<W: Ways, D: Drafter, G: Gate>(
    rt: &(impl Threads + Sync),
    alloc: Global,
    snapshot: &Snapshot,
    solver: &BatchSolver<'_, W, D, G>,
) -> Option<Outcome> {
    match snapshot.points(alloc) {
        Ok(points) => {
            if are_known(solver.network, points.nodes()) {
                solved_with(rt, alloc, snapshot, solver)
            } else {
                None
            }
        }
        Err(_) => None,
    }
}

/// How many tables of travel times a batch asks for that is planned.
fn tables_asked(
    rt: &(impl Threads + Sync),
    alloc: Global,
    snapshot: &Snapshot,
    network: &Network,
    settings: &Settings,
) -> Option<u64> {
    let ways = Counted {
        network,
        tables: AtomicU64::new(0),
    };
    let gate = FreeGate;
    let solver = BatchSolver {
        network,
        ways: &ways,
        drafter: &RelaxationDrafter,
        settings,
        gate: &gate,
    };
    match solved_by(rt, alloc, snapshot, &solver) {
        Some(
            Outcome {
                answer: Answer::Planned(_),
                ..
            },
        ) => Some(ways.tables.load(Ordering::SeqCst)),
        _ => None,
    }
}

fn tables_of_the_line(rt: &(impl Threads + Sync), alloc: Global) -> Option<u64> {
    let network = network_of(alloc, LINE)?;
    let batch = batch_on(alloc, &network)?;
    tables_asked(rt, alloc, &batch, &network, &settings())
}

#[test]
fn the_ways_are_asked_once(rt: HostRuntime) {
    assert_eq!(rt; tables_of_the_line(&rt, rt.alloc()), Some(1));
}
