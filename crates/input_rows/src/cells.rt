//! The cells of a row in which numbers stand. The rooms `script` and `fleet` call it. It names no other room.
ghost use Rattle.std.specs.Prelude.{◌≡◌, ℕ, ◌+◌, ◌≤◌, IfOk};
ghost use Rattle.pool_io.specs.Table.{record_at};
ghost use Rattle.pool_base.specs.Numeral.{number_in};
ghost use Rattle.input_rows.specs.work.Cell.{IsCell};

use pool_base::{NodeId, RiderId, Second, VehicleId, read_number_up_to};
use pool_io::Rows;

/// Why a file is refused, where that can be a cell.
pub(crate) trait CellFault: Copy {
    ghost of_cell: { ℕ → ℕ → Self };

    /// The cell is no number, or a number above 1,000,000,000. Rows and columns count from 1.
    fn at_cell(row: u64, column: u64) -> Self
        ensures { result ≡ of_cell row column };
}

/// The number in a column of a row, at most 1,000,000,000. Rows and columns count from 0, in a fault
/// from 1.
pub(crate) fn number<F: CellFault>(rows: &Rows, row: usize, column: usize) -> Result<u32, F>
    requires { IsCell rows.now row column }
    ensures value { result ≡ number_in F.of_cell (row + 1) (record_at rows.now row) column }
    ensures within { IfOk result (λ n. n ≤ 1000000000) }
{
    match read_number_up_to(rows.field(row, column), 1_000_000_000) {
        Some(n) => Ok(n as u32),
        None => Err(F::at_cell(row as u64 + 1, column as u64 + 1)),
    }
}

pub(crate) fn rider<F: CellFault>(rows: &Rows, row: usize, column: usize) -> Result<RiderId, F>
    requires { IsCell rows.now row column }
    ensures { result ≡ number_in F.of_cell (row + 1) (record_at rows.now row) column }
{
    let n = number::<F>(rows, row, column)?;
    Ok(RiderId::new(u64::from(n)).unwrap())
}

pub(crate) fn vehicle<F: CellFault>(rows: &Rows, row: usize, column: usize) -> Result<VehicleId, F>
    requires { IsCell rows.now row column }
    ensures { result ≡ number_in F.of_cell (row + 1) (record_at rows.now row) column }
{
    let n = number::<F>(rows, row, column)?;
    Ok(VehicleId::new(u64::from(n)).unwrap())
}

pub(crate) fn node<F: CellFault>(rows: &Rows, row: usize, column: usize) -> Result<NodeId, F>
    requires { IsCell rows.now row column }
    ensures { result ≡ number_in F.of_cell (row + 1) (record_at rows.now row) column }
{
    let n = number::<F>(rows, row, column)?;
    Ok(NodeId::new(u64::from(n)).unwrap())
}

pub(crate) fn second<F: CellFault>(rows: &Rows, row: usize, column: usize) -> Result<Second, F>
    requires { IsCell rows.now row column }
    ensures { result ≡ number_in F.of_cell (row + 1) (record_at rows.now row) column }
{
    let n = number::<F>(rows, row, column)?;
    Ok(Second::new(u64::from(n)).unwrap())
}
