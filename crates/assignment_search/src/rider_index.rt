//! The rows of each rider.
ghost use Rattle.std.specs.Prelude.{◌≡◌, ◌<◌, ◌≤◌, ℕ, suc, true, IfOk, length, slice_index_or};
ghost use Rattle.plan_rules.specs.Graph.{riders_at};
ghost use Rattle.assignment_search.specs.Index.{IsIndexOf, IsListed, list_start, list_end};
ghost use Rattle.assignment_search.specs.work.Index.{ListsAll};

use plan_rules::TripGraph;
use pool_base::OutOfMemory;
use row_tables::RowTable;
use row_tables::fixed_point::{append, item, put, write_over};
use row_tables::lists::short;
use std::alloc::Global;

/// For each rider the numbers of the rows that have her, one list behind the other.
#[derive(Drop)]
pub struct RiderIndex {
    /// Where each rider's list starts, and where the last one ends.
    pub starts: Vec<u32>,
    pub rows: Vec<u32>,
    /// Whether each row was found in the lists of all its riders. Where not, one list has all rows, for anyone.
    pub is_whole: bool,
}

impl RiderIndex {
    /// The index of a graph's rows, which the table has too. It lists each row for each of its riders: that
    /// is looked up once, row by row.
    pub fn new(
        alloc: Global,
        graph: &TripGraph,
        table: &RowTable,
    ) -> Result<RiderIndex, OutOfMemory>
        ensures { IfOk result (IsIndexOf graph.now) }
    {
        let mut starts = Vec::new(alloc);
        let mut rows = Vec::new(alloc);
        let mut cursors = Vec::new(alloc);
        list(table, &mut starts, &mut rows).and(write_over(&mut cursors, &starts))?;
        if lists_all(graph, &starts, &rows, &mut cursors) {
            return Ok(RiderIndex {
                starts,
                rows,
                is_whole: true,
            });
        }
        let rows = numbers_below(alloc, graph.rows().len())?;
        Ok(RiderIndex {
            starts,
            rows,
            is_whole: false,
        })
    }

    /// Where the rider's list starts.
    pub fn start(&self, rider: usize) -> usize
        ensures { result ≡ list_start self.now rider }
    {
        if self.is_whole && rider < self.starts.len() {
            self.starts[rider] as usize
        } else {
            0
        }
    }

    /// Where the rider's list ends.
    pub fn end(&self, rider: usize) -> usize
        ensures { result ≡ list_end self.now rider }
    {
        if !self.is_whole {
            return self.rows.len();
        }
        if rider < self.starts.len() && rider + 1 < self.starts.len() {
            self.starts[rider + 1] as usize
        } else {
            0
        }
    }
}

/// The numbers below this one.
fn numbers_below(alloc: Global, count: usize) -> Result<Vec<u32>, OutOfMemory>
    requires { count ≤ 2000000 }
    ensures len { IfOk result (λ numbers. length numbers.items ≡ count) }
    ensures each { IfOk result (λ numbers. (k : ℕ) → k < count → slice_index_or numbers.items k 0 ≡ k) }
{
    let mut numbers = Vec::new(alloc);
    for number in 0..count {
        numbers.push(number as u32)?;
    }
    Ok(numbers)
}

fn list(table: &RowTable, starts: &mut Vec<u32>, rows: &mut Vec<u32>) -> Result<(), OutOfMemory> {
    let mut made = put(starts, 0);
    for rider in 0..table.rider_count() {
        made = made
            .and(append(rows, table.rows_with(rider)))
            .and(put(starts, short(rows.len())));
    }
    made
}

/// Whether each row is in the lists of all its riders. The cursors stand where the lists start.
fn lists_all(graph: &TripGraph, starts: &[u32], listed: &[u32], cursors: &mut [u32]) -> bool
    ensures { result ≡ true → ListsAll graph.now starts.now listed.now }
{
    let rows = graph.rows();
    for row in 0..rows.len() {
        if !is_listed_for_all(rows[row].riders.as_slice(), row, starts, listed, cursors) {
            return false;
        }
    }
    true
}

/// Whether the row is in the lists of these riders.
fn is_listed_for_all(
    riders: &[usize],
    row: usize,
    starts: &[u32],
    listed: &[u32],
    cursors: &mut [u32],
) -> bool
    ensures { result ≡ true → (i : ℕ) → i < length riders.now → IsListed listed.now (slice_index_or starts.now (slice_index_or riders.now i 0) 0) (slice_index_or starts.now (suc (slice_index_or riders.now i 0)) 0) row }
{
    for place in 0..riders.len() {
        let cursor = next_cursor(cursors, riders[place]);
        if !is_listed_at(starts, listed, riders[place], row, cursor) {
            return false;
        }
    }
    true
}

/// Whether this place is one of the rider's list, and the row stands there.
fn is_listed_at(starts: &[u32], listed: &[u32], rider: usize, row: usize, place: usize) -> bool
    ensures { result ≡ true → IsListed listed.now (slice_index_or starts.now rider 0) (slice_index_or starts.now (suc rider) 0) row }
{
    if rider >= starts.len() || rider + 1 >= starts.len() || place >= listed.len() {
        return false;
    }
    let start = starts[rider] as usize;
    let end = starts[rider + 1] as usize;
    if place < start || end <= place {
        return false;
    }
    listed[place] as usize == row
}

/// The rider's cursor, which moves on.
fn next_cursor(cursors: &mut [u32], rider: usize) -> usize {
    let cursor = item(cursors, rider, u32::MAX);
    if rider < cursors.len() {
        cursors[rider] = cursor.saturating_add(1);
    }
    cursor as usize
}
