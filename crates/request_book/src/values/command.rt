ghost use Rattle.std.specs.Prelude.{◌≡◌};
ghost use Rattle.request_book.specs.values.Command.{IsNoClose};
ghost use Rattle.request_book.specs.work.values.Command.{IsOfVehicle};

use crate::values::outcome::Outcome;
use pool_base::{NodeId, Party, RiderId, Second, VehicleId};

/// What a lane asks of the book.
#[derive(Drop)]
pub enum Command {
    /// A rider asks for a trip.
    Submit {
        rider: RiderId,
        origin: NodeId,
        destination: NodeId,
        time: Second,
        party: Party,
    },
    /// A rider who isn't aboard yet gives up.
    Cancel {
        rider: RiderId,
    },
    /// A vehicle is at a node.
    Report {
        vehicle: VehicleId,
        node: NodeId,
        time: Second,
    },
    /// A vehicle picks its promised rider up.
    Pickup {
        vehicle: VehicleId,
        rider: RiderId,
        time: Second,
    },
    /// A vehicle drops its passenger.
    Dropoff {
        vehicle: VehicleId,
        rider: RiderId,
        time: Second,
    },
    /// A batch is sealed: riders whose wait is over expire, and the others are put into a snapshot.
    Seal {
        now: Second,
    },
    /// The sealed batch ends with its outcome.
    Close {
        batch: u64,
        outcome: Outcome,
    },
}

impl Command {
    /// An equal command. It takes no memory, so a close, whose outcome holds lists, has none.
    pub fn copied(&self) -> Command
        requires { IsNoClose self.now }
        ensures { result ≡ self.now }
    {
        match self {
            Command::Submit {
                rider,
                origin,
                destination,
                time,
                party,
            } => Command::Submit {
                rider: *rider,
                origin: *origin,
                destination: *destination,
                time: *time,
                party: *party,
            },
            Command::Cancel { rider } => Command::Cancel { rider: *rider },
            Command::Report { .. } => self.copied_of_vehicle(),
            Command::Pickup { .. } => self.copied_of_vehicle(),
            Command::Dropoff { .. } => self.copied_of_vehicle(),
            Command::Seal { now } => Command::Seal { now: *now },
            Command::Close { .. } => unreachable!(),
        }
    }
    /// The same of what a vehicle does.
    fn copied_of_vehicle(&self) -> Command
        requires { IsOfVehicle self.now }
        ensures { result ≡ self.now }
    {
        match self {
            Command::Report {
                vehicle,
                node,
                time,
            } => Command::Report {
                vehicle: *vehicle,
                node: *node,
                time: *time,
            },
            Command::Pickup {
                vehicle,
                rider,
                time,
            } => Command::Pickup {
                vehicle: *vehicle,
                rider: *rider,
                time: *time,
            },
            Command::Dropoff {
                vehicle,
                rider,
                time,
            } => Command::Dropoff {
                vehicle: *vehicle,
                rider: *rider,
                time: *time,
            },
            Command::Submit { .. } => unreachable!(),
            Command::Cancel { .. } => unreachable!(),
            Command::Seal { .. } => unreachable!(),
            Command::Close { .. } => unreachable!(),
        }
    }
}
