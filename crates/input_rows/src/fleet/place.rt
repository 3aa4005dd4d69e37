ghost use Rattle.std.specs.Prelude.{◌≡◌, true, map, nat_lt, MatchOption};
ghost use Rattle.std.specs.List.Sorted.{IsStrictlyIncreasing};
ghost use Rattle.input_rows.specs.work.fleet.Place.{has_vehicle, has_id_at, IsPlaceOf};

use pool_base::VehicleId;
use request_book::Vehicle;

fn is_lower(vehicle: &Vehicle, id: VehicleId) -> bool
    ensures { result ≡ nat_lt vehicle.now.id id }
{
    vehicle.id.get() < id.get()
}

/// Whether the vehicle at a place has this id.
fn has_id_at(vehicles: &[Vehicle], place: usize, id: VehicleId) -> bool
    ensures { result ≡ has_id_at vehicles.now place id }
{
    place < vehicles.len() && vehicles[place].id == id
}

/// Where a new vehicle belongs among vehicles by rising id; `None` where its id is there.
pub(crate) fn find_place(vehicles: &[Vehicle], id: VehicleId) -> Option<usize>
    requires { IsStrictlyIncreasing (map (λ v. v.id) vehicles.now) }
    ensures { MatchOption result (has_vehicle vehicles.now id ≡ true) (IsPlaceOf vehicles.now id) }
{
    let place = vehicles.partition_point(|vehicle| is_lower(vehicle, id));
    if has_id_at(vehicles, place, id) {
        return None;
    }
    Some(place)
}
