ghost use Rattle.std.specs.Prelude.{◌≡◌, List};
ghost use Rattle.request_book.specs.values.Kept.{IsFleet};

use crate::values::vehicle::Vehicle;
use std::marker::Model;

/// The vehicles with which a run begins: at most 500, by strictly rising id, with 1 to 10 seats and
/// nobody aboard.
#[derive(Drop)]
pub struct Fleet {
    vehicles: Vec<Vehicle>,
}

impl Model for Fleet {
    ghost use Rattle.std.specs.Prelude.{List};
    ghost use Rattle.request_book.specs.values.Kept.{IsFleet};
    ghost use Rattle.request_book.specs.declared.values.vehicle.Vehicle.{Vehicle};

    ghost Value = { List Vehicle };

    ghost view = { λ f. f.vehicles.items };

    ghost invariant = { λ f. IsFleet f.vehicles.items };
}

impl Fleet {
    /// The fleet of these vehicles.
    pub fn of(vehicles: Vec<Vehicle>) -> Fleet
        requires { IsFleet vehicles.items }
        ensures { result ≡ vehicles.items }
    {
        Fleet { vehicles }
    }

    /// A law: what every fleet keeps.
    pub fn keeps(&self)
        ensures { IsFleet self.now }
    {
        let _ = &self.vehicles;
    }

    /// The vehicles, by rising id.
    pub fn vehicles(&self) -> &[Vehicle]
        ensures vehicles { result.now ≡ self.now }
        ensures kept { IsFleet self.now }
    {
        self.vehicles.as_slice()
    }

    /// The vehicles, without memory.
    pub fn into_vehicles(self) -> Vec<Vehicle>
        ensures vehicles { result.items ≡ self }
        ensures kept { IsFleet self }
    {
        let Fleet { vehicles } = self;
        vehicles
    }
}
