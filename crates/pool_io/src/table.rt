ghost use Rattle.std.specs.Prelude.{◌≡◌, ◌*◌, ◌^◌, ◌<◌, ◌==◌, length};
ghost use Rattle.pool_io.specs.Table.{record_at, field_at};
ghost use Rattle.pool_io.specs.work.Cutting.{AreEnds, cut_fields, cut_rows, start_at};

use std::marker::Model;

/// The rows of a file under its header. All fields lie in one buffer, with the place where each ends.
#[derive(Drop)]
pub struct Rows {
    columns: usize,
    count: usize,
    bytes: Vec<u8>,
    ends: Vec<usize>,
}

impl Model for Rows {
    ghost use Rattle.std.specs.Prelude.{◌≡◌, ◌*◌, ◌<◌, ◌^◌, length};
    ghost use Rattle.pool_io.specs.Table.{Table};
    ghost use Rattle.pool_io.specs.work.Cutting.{AreEnds, cut_fields, cut_rows};

    ghost Value = { Table };

    ghost view = { λ a. record {
      columns = a.columns;
      records = cut_rows a.count a.columns (cut_fields 0 a.ends.items a.bytes.items);
    } };

    ghost invariant = { λ a. (length a.ends.items ≡ a.count * a.columns) × (a.count * a.columns < 2 ^ 64)
        × AreEnds 0 a.ends.items (length a.bytes.items) };
}

impl Rows {
    // The rows whose fields, row by row, are these.
    pub(crate) fn of(columns: usize, count: usize, bytes: Vec<u8>, ends: Vec<usize>) -> Rows
        requires flat { length ends.items ≡ count * columns }
        requires small { count * columns < 2 ^ 64 }
        requires ends { AreEnds 0 ends.items (length bytes.items) }
        ensures { result ≡ record { columns = columns; records = cut_rows count columns (cut_fields 0 ends.items bytes.items) } }
    {
        Rows {
            columns,
            count,
            bytes,
            ends,
        }
    }

    /// How many rows there are.
    pub fn len(&self) -> usize
        ensures { result ≡ length self.now.records }
    {
        self.count
    }

    /// Whether there is no row.
    pub fn is_empty(&self) -> bool
        ensures { result ≡ (length self.now.records == 0) }
    {
        self.count == 0
    }

    /// The bytes of a field; rows and columns count from 0.
    pub fn field(&self, row: usize, column: usize) -> &[u8]
        requires row { row < length self.now.records }
        requires column { column < self.now.columns }
        ensures { result.now ≡ field_at (record_at self.now row) column }
    {
        let place = row * self.columns + column;
        &self.bytes[start_of(&self.ends, place)..self.ends[place]]
    }
}

// Where the field at this place begins.
fn start_of(ends: &[usize], place: usize) -> usize
    requires { place < length ends.now }
    ensures { result ≡ start_at 0 ends.now place }
{
    if place == 0 { 0 } else { ends[place - 1] }
}
