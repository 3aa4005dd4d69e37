use crate::vehicle::vehicle_trips::VehicleTrips;

/// The trips of one size that a vehicle can serve.
#[derive(Drop)]
pub enum Level {
    /// All rows of the size.
    All(VehicleTrips),
    /// There are more rows of the size than there is room for.
    TooMany,
}
