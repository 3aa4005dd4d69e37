ghost use Rattle.std.specs.Prelude.{◌≡◌, ℕ, ◌+◌, ◌*◌, ◌<◌, ◌≤◌, ◌++◌, All, IsTrue, OnOk, length, map, slice_index};
ghost use Rattle.pool_base.specs.TravelTime.{never};
ghost use Rattle.travel_times.specs.work.table.Table.{AreWritten, IsPiece, IsPieceWritten, WritesRow};

use crate::search::arcs::Arcs;
use crate::search::search::Search;
use pool_base::{OutOfMemory, Times};
use rayon::prelude::*;
use std::alloc::Global;
use std::thread::Threads;

/// Writes the rows of a table where they stay, so many in one piece of work. A row for which there was no
/// memory stays as it was, with no way from its point to itself.
pub(crate) fn write_pieces(
    rt: &(impl Threads + Sync),
    alloc: Global,
    arcs: &Arcs<'_>,
    points: &[usize],
    rows: usize,
    cells: &mut [u32],
)
    requires known { All (λ point. point < length arcs.now.network.now.nodes) points.now }
    requires few { length points.now ≤ 12500 }
    requires rows { 0 < rows }
    requires most { rows ≤ length points.now }
    requires size { length cells.old ≡ length points.now * length points.now }
    requires unwritten { All (λ cell. cell ≡ never) cells.old }
    ensures { AreWritten arcs.entry.now.network.now.arcs points.entry.now 0 (length points.entry.now) cells.new }
{
    par_chunks_mut_for_each(
        rt,
        cells,
        rows * points.len(),
        |start: usize, piece: &mut [u32]|
            requires { All (λ point. point < length arcs.now.network.now.nodes) points.now × (length points.now ≤ 12500) × (0 < length points.now) × IsPiece (length points.now) start piece.now }
            ensures { IsPieceWritten arcs.entry.now.network.now.arcs points.entry.now start piece.old piece.new }
        { write_rows(alloc, arcs, points, start, piece) },
    );
}

/// Writes the rows of a piece of a table that begins at cell `start`, with one work space.
fn write_rows(alloc: Global, arcs: &Arcs<'_>, points: &[usize], start: usize, cells: &mut [u32])
    requires known { All (λ point. point < length arcs.now.network.now.nodes) points.now }
    requires few { length points.now ≤ 12500 }
    requires some { 0 < length points.now }
    requires piece { IsPiece (length points.now) start cells.old }
    ensures { IsPieceWritten arcs.now.network.now.arcs points.now start cells.old cells.new }
{
    let Ok(mut search) = Search::new(alloc) else {
        return;
    };
    let from = start / points.len();
    let count = cells.len() / points.len();
    for row in 0..count {
        let Ok(()) = search.run(arcs, points[from + row], None) else {
            return;
        };
        write_row(cells, row * points.len(), points, &search.seconds);
    }
}

/// Writes the seconds of the points into the cells from `at` on.
fn write_row(cells: &mut [u32], at: usize, points: &[usize], seconds: &[u32])
    requires known { All (λ point. point < length seconds.now) points.now }
    requires room { at + length points.now ≤ length cells.old }
    ensures { WritesRow points.now seconds.now at cells.old cells.new }
{
    for place in 0..points.len() {
        cells[at + place] = seconds[points[place]];
    }
}

/// Whether each of so many rows tells of a way from its point to itself, as each row does that was computed.
pub(crate) fn are_computed(count: usize, cells: &[u32]) -> bool
    requires few { count ≤ 12500 }
    requires size { length cells.now ≡ count * count }
    ensures { IsTrue result → (i : ℕ) → i < count → slice_index cells.now (i * count + i) ≡ never → ⊥ }
{
    for row in 0..count {
        if cells[row * count + row] == Times::NEVER {
            return false;
        }
    }
    true
}

/// Appends the seconds of these points.
pub(crate) fn push_row(
    cells: &mut Vec<u32>,
    points: &[usize],
    seconds: &[u32],
) -> Result<(), OutOfMemory>
    requires { All (λ point. point < length seconds.now) points.now }
    ensures { OnOk result (cells.new.items ≡ cells.old.items ++ map (λ point. slice_index seconds.now point) points.now) }
{
    for &point in points {
        cells.push(seconds[point])?;
    }
    Ok(())
}
