//! Travel times from labels.
ghost use Rattle.std.specs.Prelude.{◌≡◌, ◌+◌, ◌*◌, ◌<◌, ◌≤◌, All, IfOk, length};
ghost use Rattle.road_network.specs.Roads.{Roads};
ghost use Rattle.travel_times.specs.labels.Labels.{AreLabelsOf};
ghost use Rattle.travel_times.specs.work.labels.Cells.{AreCells};

use crate::labels::labels::Labels;
use crate::search::search::no_ways;
use crate::table::table::{indexes_of, rows_of_a_piece, table_of_times};
use crate::table::ways::Ways;
use pool_base::{NodeId, OutOfMemory, Times};
use rayon::prelude::*;
use road_network::Network;
use std::alloc::Global;
use std::marker::Model;
use std::thread::Threads;

/// A table of fewer cells stays on one thread.
const FEW: usize = 4_096;

/// The travel times of a network by its labels: each cell of a table is looked up, on as many threads at a time as there
/// are workers. Contracts see it as the network.
#[derive(Drop)]
pub struct LabelWays<'a> {
    network: &'a Network,
    labels: Labels,
    workers: u8,
}

impl<'a> Model for LabelWays<'a> {
    ghost use Rattle.road_network.specs.Roads.{Roads};
    ghost use Rattle.travel_times.specs.labels.Labels.{AreLabelsOf};

    ghost Value = { Roads };

    ghost view = { λ ways. ways.network.now };

    ghost invariant = { λ ways. AreLabelsOf ways.network.now ways.labels };
}

impl<'a> LabelWays<'a> {
    /// The travel times of a network by labels of this network.
    pub fn of(network: &'a Network, labels: Labels, workers: u8) -> LabelWays<'a>
        requires { AreLabelsOf network.now labels }
        ensures { result ≡ network.entry.now }
    {
        LabelWays {
            network,
            labels,
            workers,
        }
    }
}

impl Ways for LabelWays<'_> {
    ghost roads = { λ ways. ways };

    fn table<R: Threads + Sync>(
        &self,
        rt: &R,
        alloc: Global,
        nodes: &[NodeId],
    ) -> Result<Times, OutOfMemory> {
        let points = indexes_of(alloc, self.network, nodes)?;
        let cells = cells_between(rt, alloc, &self.labels, &points, self.workers)?;
        Ok(table_of_times(self.network, &points, cells))
    }
}

/// The cells of the table, row by row, each written where it stays. The workers share the rows.
fn cells_between(
    rt: &(impl Threads + Sync),
    alloc: Global,
    labels: &Labels,
    points: &[usize],
    workers: u8,
) -> Result<Vec<u32>, OutOfMemory>
    requires known { All (λ point. point < length labels.now.forward) points.now }
    requires few { length points.now ≤ 12500 }
    ensures size { IfOk result (λ cells. length cells.items ≡ length points.entry.now * length points.entry.now) }
    ensures times { IfOk result (λ cells. (roads : Roads) → AreLabelsOf roads labels.entry.now → AreCells roads.arcs points.entry.now 0 cells.items) }
{
    let count = points.len() * points.len();
    let mut cells = no_ways(alloc, count)?;
    let rows = rows_of_a_piece(points.len(), workers as usize, count < FEW);
    write_table(rt, labels, points, (rows * points.len()).max(1), &mut cells);
    Ok(cells)
}

/// Writes the cells of a table, so many in one piece of work.
fn write_table(
    rt: &(impl Threads + Sync),
    labels: &Labels,
    points: &[usize],
    piece: usize,
    cells: &mut [u32],
)
    requires known { All (λ point. point < length labels.now.forward) points.now }
    requires few { length points.now ≤ 12500 }
    requires piece { 0 < piece }
    requires size { length cells.old ≡ length points.now * length points.now }
    ensures { (roads : Roads) → AreLabelsOf roads labels.entry.now → AreCells roads.arcs points.entry.now 0 cells.new }
{
    par_chunks_mut_for_each(
        rt,
        cells,
        piece,
        |start: usize, cells: &mut [u32]|
            requires { All (λ point. point < length labels.now.forward) points.now × (length points.now ≤ 12500) × (start + length cells.now ≤ length points.now * length points.now) }
            ensures { (length cells.new ≡ length cells.old) × ((roads : Roads) → AreLabelsOf roads labels.entry.now → AreCells roads.arcs points.entry.now start cells.new) }
        { write_cells(labels, points, start, cells) },
    );
}

/// Writes the cells from `start` on of a table.
fn write_cells(labels: &Labels, points: &[usize], start: usize, cells: &mut [u32])
    requires known { All (λ point. point < length labels.now.forward) points.now }
    requires few { length points.now ≤ 12500 }
    requires within { start + length cells.old ≤ length points.now * length points.now }
    ensures size { length cells.new ≡ length cells.old }
    ensures times { (roads : Roads) → AreLabelsOf roads labels.entry.now → AreCells roads.arcs points.entry.now start cells.new }
{
    let _nodes = labels.len();
    let count = points.len();
    for place in 0..cells.len() {
        let cell = start + place;
        cells[place] = labels.time(points[cell / count], points[cell % count]);
    }
}
