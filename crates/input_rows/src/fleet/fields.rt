ghost use Rattle.std.specs.Prelude.{◌≡◌, ◌+◌, []};
ghost use Rattle.pool_io.specs.Table.{record_at};
ghost use Rattle.input_rows.specs.fleet.Vehicle.{vehicle_in};
ghost use Rattle.input_rows.specs.work.fleet.FleetRow.{IsFleetRow};
ghost use Rattle.road_network.specs.Roads.{has_node};

use crate::cells::{node, number, second, vehicle};
use crate::fleet::fault::FleetFault;
use arrayvec::ArrayVec;
use pool_base::NodeId;
use pool_io::Rows;
use request_book::{Passenger, Vehicle};
use road_network::Network;

/// Whether the network has a node.
fn knows(network: &Network, node: NodeId) -> bool
    ensures { result ≡ has_node network.now.nodes node }
{
    network.has_node(node)
}

fn nobody() -> ArrayVec<Passenger, 10>
    ensures { result ≡ record { items = [] } }
{
    ArrayVec::new()
}

/// The vehicle of a row, which counts from 0, in a fault from 1.
#[tactic(auto, unfolding(crate::specs::fleet::Vehicle::vehicle_in))]
pub(crate) fn read_vehicle(
    rows: &Rows,
    row: usize,
    network: &Network,
) -> Result<Vehicle, FleetFault>
    requires { IsFleetRow rows.now row }
    ensures { result ≡ vehicle_in network.now.nodes [] (row + 1) (record_at rows.now row) }
{
    let place = row as u64 + 1;
    let id = vehicle::<FleetFault>(rows, row, 0)?;
    let seats = number::<FleetFault>(rows, row, 1)?;
    let node = node::<FleetFault>(rows, row, 2)?;
    let time = second::<FleetFault>(rows, row, 3)?;
    if seats < 1 || seats > 10 {
        return Err(FleetFault::Seats { row: place });
    }
    if !knows(network, node) {
        return Err(FleetFault::UnknownNode { row: place });
    }
    Ok(Vehicle {
        id,
        seats: seats as u8,
        node,
        time,
        aboard: nobody(),
    })
}
