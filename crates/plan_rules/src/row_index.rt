//! Where the rows of each vehicle begin.
ghost use Rattle.std.specs.Prelude.{◌≡◌, ℕ, ◌+◌, ◌<◌, ◌≤◌, IfOk, length};
ghost use Rattle.plan_rules.specs.work.Graph.{IsRowIndex};
ghost use Rattle.plan_rules.specs.Graph.{row_vehicle};
ghost use Rattle.plan_rules.specs.GraphFault.{HasGoodRows, HasRowsInOrder};
ghost use Rattle.plan_rules.specs.Parts.{graph_of};

use crate::parts::Parts;
use std::alloc::{AllocError, Global};

/// The number of the first row of each vehicle, and the number of rows.
pub fn row_starts(alloc: Global, parts: &Parts) -> Result<Vec<u32>, AllocError>
    requires few { length parts.now.rows.items ≤ 2000000 }
    requires rows { HasGoodRows (graph_of parts.now) }
    requires order { HasRowsInOrder (graph_of parts.now) }
    ensures { IfOk result (λ starts. IsRowIndex (graph_of parts.now) starts.items) }
{
    let mut starts = Vec::new(alloc);
    let mut row = 0;
    for vehicle in 0..parts.vehicles {
        starts.push(row as u32)?;
        row = end_of_vehicle(parts, vehicle, row);
    }
    starts.push(row as u32)?;
    Ok(starts)
}

/// Where the rows end that begin at this one and are the vehicle's.
fn end_of_vehicle(parts: &Parts, vehicle: usize, row: usize) -> usize
    requires { row ≤ length parts.now.rows.items }
    ensures after { row ≤ result }
    ensures within { result ≤ length parts.now.rows.items }
    ensures own { (k : ℕ) → row ≤ k → k < result → row_vehicle (graph_of parts.now) k ≡ vehicle }
    ensures next { result < length parts.now.rows.items → row_vehicle (graph_of parts.now) result ≡ vehicle → ⊥ }
{
    for k in row..parts.rows.len() {
        if parts.rows[k].vehicle != vehicle {
            return k;
        }
    }
    parts.rows.len()
}
