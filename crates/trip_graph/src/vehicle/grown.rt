use crate::vehicle::vehicle_trips::VehicleTrips;

/// The trips of all sizes that a vehicle can serve.
#[derive(Drop)]
pub enum Grown {
    /// All rows.
    All(VehicleTrips),
    /// There are more rows than there is room for.
    TooMany,
}
