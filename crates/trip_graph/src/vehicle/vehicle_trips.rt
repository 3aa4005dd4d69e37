ghost use Rattle.std.specs.Prelude.{◌≡◌, []};

use crate::vehicle::trip_of::TripOf;
use std::alloc::Global;
use std::marker::Model;

/// Trips of one vehicle, by size, then riders.
#[derive(Drop)]
pub struct VehicleTrips {
    rows: Vec<TripOf>,
}

impl Model for VehicleTrips {
    ghost use Rattle.std.specs.Prelude.{List};
    ghost use Rattle.trip_graph.specs.declared.vehicle.trip_of.TripOf.{TripOf};

    ghost Value = { List TripOf };

    ghost view = { λ trips. trips.rows.items };
}

impl VehicleTrips {
    /// No trips. It takes no memory.
    pub fn new(alloc: Global) -> Self
        ensures { result ≡ [] }
    {
        VehicleTrips {
            rows: Vec::new(alloc),
        }
    }

    /// These trips.
    pub fn of(rows: Vec<TripOf>) -> Self
        ensures { result ≡ rows.items }
    {
        VehicleTrips { rows }
    }

    /// The trips.
    pub fn rows(&self) -> &[TripOf]
        ensures { result.now ≡ self.now }
    {
        self.rows.as_slice()
    }

    /// The trips, without a copy.
    pub fn into_rows(self) -> Vec<TripOf>
        ensures { result.items ≡ self }
    {
        let VehicleTrips { rows } = self;
        rows
    }
}
