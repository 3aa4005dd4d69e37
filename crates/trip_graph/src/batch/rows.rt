ghost use Rattle.std.specs.Prelude.{◌≡◌, ℕ, ◌+◌, ◌<◌, ◌≤◌, ◌^◌, ◌++◌, [], OnOk, MatchBool, MatchOption, None, length, map, slice_index_or};
ghost use Rattle.plan_rules.specs.Graph.{no_row};
ghost use Rattle.trip_graph.specs.work.batch.Rows.{trip_row, vehicle_rows};

use crate::vehicle::trip_of::TripOf;
use crate::vehicle::vehicle_trips::VehicleTrips;
use arrayvec::ArrayVec;
use plan_rules::TripRow;
use pool_base::{OutOfMemory, Sequence};
use stop_orders::SettledVehicle;

/// Puts the rows of one vehicle, size by size, behind those of the vehicles before.
pub(crate) fn add_vehicle(
    levels: &[Sequence<VehicleTrips>],
    vehicle: usize,
    rows: &mut Vec<TripRow>,
) -> Result<(), OutOfMemory>
    requires { (k : ℕ) → k < length levels.now → vehicle < length (slice_index_or levels.now k []) }
    ensures { OnOk result (rows.new.items ≡ rows.old.items ++ vehicle_rows levels.now vehicle) }
{
    for level in levels {
        add_trips(level.as_slice()[vehicle].rows(), vehicle, rows)?;
    }
    Ok(())
}

fn add_trips(trips: &[TripOf], vehicle: usize, rows: &mut Vec<TripRow>) -> Result<(), OutOfMemory>
    ensures { OnOk result (rows.new.items ≡ rows.old.items ++ map (trip_row vehicle) trips.now) }
{
    for trip in trips {
        rows.push(row_of(vehicle, trip))?;
    }
    Ok(())
}

fn row_of(vehicle: usize, trip: &TripOf) -> TripRow
    ensures { result ≡ trip_row vehicle trip.now }
{
    let mut riders = ArrayVec::new();
    riders
        .try_extend_from_slice(trip.riders.as_slice())
        .unwrap();
    TripRow {
        vehicle,
        riders,
        cost: trip.cost,
    }
}

/// The row that the vehicle holds, among its own, which begin at this one; a late vehicle holds none.
pub(crate) fn held_row(rows: &[TripRow], from: usize, vehicle: &SettledVehicle) -> Option<u32>
    requires from { from ≤ length rows.now }
    requires few { length rows.now < 2 ^ 32 }
    ensures { MatchBool vehicle.now.late (result ≡ None) (MatchOption result ((k : ℕ) → from ≤ k → k < length rows.now → (slice_index_or rows.now k no_row).riders.items ≡ vehicle.now.held.items → ⊥)
        (λ k. (from ≤ k) × (k < length rows.now) × ((slice_index_or rows.now k no_row).riders.items ≡ vehicle.now.held.items))) }
{
    if vehicle.late {
        return None;
    }
    row_with(rows, from, vehicle.held.as_slice())
}

/// The number of the first row, from one on, with exactly these riders.
fn row_with(rows: &[TripRow], from: usize, riders: &[usize]) -> Option<u32>
    requires from { from ≤ length rows.now }
    requires few { length rows.now < 2 ^ 32 }
    ensures { MatchOption result ((k : ℕ) → from ≤ k → k < length rows.now → (slice_index_or rows.now k no_row).riders.items ≡ riders.now → ⊥)
        (λ k. (from ≤ k) × (k < length rows.now) × ((slice_index_or rows.now k no_row).riders.items ≡ riders.now)) }
{
    for k in from..rows.len() {
        if rows[k].riders.as_slice() == riders {
            return Some(k as u32);
        }
    }
    None
}
