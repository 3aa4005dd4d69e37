ghost use Rattle.std.specs.Prelude.{◌≡◌, ◌≢◌, All, true, Err, IfOk, IfErr};
ghost use Rattle.road_network.specs.Roads.{has_node};
ghost use Rattle.input_rows.specs.fleet.Fleet.{vehicles_of, IsFleetOf};

use crate::fleet::fault::FleetFault;
use crate::fleet::fields::read_vehicle;
use crate::fleet::place::find_place;
use pool_io::Rows;
use request_book::Fleet;
use road_network::Network;
use std::alloc::Global;

/// The header line of a fleet, without its end.
pub const FLEET_HEADER: &[u8] = b"vehicle,seats,node,second";

/// The fleet that rows give: vehicles by rising id, with nobody aboard.
///
/// More than 500 rows are refused. Else the first fault is given, row for row, and in each row in this
/// order: the numbers of its four fields from the left, seats that are not 1 to 10, a node that the
/// network doesn't have, a vehicle that an earlier row has.
pub fn read_fleet(alloc: Global, rows: &Rows, network: &Network) -> Result<Fleet, FleetFault>
    requires { rows.now.columns ≡ 4 }
    ensures accepted { IfOk result (IsFleetOf network.now.nodes rows.now.records) }
    ensures named { IfOk result (All (λ vehicle. has_node network.now.nodes vehicle.node ≡ true)) }
    ensures refused { IfErr result (λ fault. fault ≢ FleetFault.OutOfMemory
        → vehicles_of network.now.nodes rows.now.records ≡ Err fault) }
{
    if rows.len() > 500 {
        return Err(FleetFault::TooManyVehicles);
    }
    let mut vehicles = Vec::new(alloc);
    for row in 0..rows.len() {
        let vehicle = read_vehicle(rows, row, network)?;
        let Some(place) = find_place(&vehicles, vehicle.id) else {
            return Err(FleetFault::Duplicate {
                row: row as u64 + 1,
            });
        };
        vehicles.insert(place, vehicle)?;
    }
    Ok(Fleet::of(vehicles))
}
