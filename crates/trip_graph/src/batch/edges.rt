ghost use Rattle.std.specs.Prelude.{◌≡◌, ◌<◌, ◌++◌, All, IfOk, OnOk, length, map};
ghost use Rattle.trip_graph.specs.work.batch.Edges.{HasOneRider, edges_upto, single_edge};

use crate::pairs::rv_edge::RvEdge;
use crate::vehicle::trip_of::TripOf;
use crate::vehicle::vehicle_trips::VehicleTrips;
use pool_base::OutOfMemory;
use std::alloc::Global;

/// The edges between vehicles and riders, from the trips of one rider that each vehicle can serve.
pub(crate) fn edges_of(alloc: Global, singles: &[VehicleTrips]) -> Result<Vec<RvEdge>, OutOfMemory>
    requires { All (λ rows. All HasOneRider rows) singles.now }
    ensures { IfOk result (λ edges. edges.items ≡ edges_upto singles.now (length singles.now)) }
{
    let mut edges = Vec::new(alloc);
    for vehicle in 0..singles.len() {
        add_edges(singles[vehicle].rows(), vehicle, &mut edges)?;
    }
    Ok(edges)
}

/// Puts the edges of one vehicle behind those of the vehicles before.
fn add_edges(rows: &[TripOf], vehicle: usize, edges: &mut Vec<RvEdge>) -> Result<(), OutOfMemory>
    requires { All HasOneRider rows.now }
    ensures { OnOk result (edges.new.items ≡ edges.old.items ++ map (single_edge vehicle) rows.now) }
{
    for row in rows {
        edges.push(RvEdge {
            vehicle,
            rider: row.riders.as_slice()[0],
        })?;
    }
    Ok(())
}
