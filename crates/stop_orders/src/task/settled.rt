use crate::{SettledRider, SettledVehicle};
use std::marker::Model;

/// The vehicles of a batch, a list.
#[derive(Drop)]
pub struct SettledVehicles {
    vehicles: Vec<SettledVehicle>,
}

impl Model for SettledVehicles {
    ghost use Rattle.std.specs.Prelude.{List};
    ghost use Rattle.stop_orders.specs.declared.task.settled_vehicle.SettledVehicle.{SettledVehicle as One};

    ghost Value = { List One };

    ghost view = { λ list. list.vehicles.items };
}

impl SettledVehicles {
    ghost use Rattle.std.specs.Prelude.{◌≡◌};

    /// These vehicles.
    pub fn of(vehicles: Vec<SettledVehicle>) -> SettledVehicles
        ensures { result ≡ vehicles.items }
    {
        SettledVehicles { vehicles }
    }

    /// The vehicles in their order.
    pub fn into_vec(self) -> Vec<SettledVehicle>
        ensures { result.items ≡ self }
    {
        self.vehicles
    }

    /// The vehicles in their order.
    pub fn as_slice(&self) -> &[SettledVehicle]
        ensures { result.now ≡ self.now }
    {
        &self.vehicles
    }
}

/// The riders of a batch, a list.
#[derive(Drop)]
pub struct SettledRiders {
    riders: Vec<SettledRider>,
}

impl Model for SettledRiders {
    ghost use Rattle.std.specs.Prelude.{List};
    ghost use Rattle.stop_orders.specs.declared.task.settled_rider.SettledRider.{SettledRider as One};

    ghost Value = { List One };

    ghost view = { λ list. list.riders.items };
}

impl SettledRiders {
    ghost use Rattle.std.specs.Prelude.{◌≡◌};

    /// These riders.
    pub fn of(riders: Vec<SettledRider>) -> SettledRiders
        ensures { result ≡ riders.items }
    {
        SettledRiders { riders }
    }

    /// The riders in their order.
    pub fn into_vec(self) -> Vec<SettledRider>
        ensures { result.items ≡ self }
    {
        self.riders
    }

    /// The riders in their order.
    pub fn as_slice(&self) -> &[SettledRider]
        ensures { result.now ≡ self.now }
    {
        &self.riders
    }
}

/// A batch whose limits are settled: what the graphs are made of.
#[derive(Drop)]
pub struct Settled {
    /// The batch's second.
    pub now: u64,
    /// How many seconds each stop takes.
    pub dwell: u16,
    /// The greatest number of seats of a vehicle, 0 without vehicles.
    pub most_seats: u8,
    pub vehicles: SettledVehicles,
    pub riders: SettledRiders,
}
