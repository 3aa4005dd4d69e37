//! The lines of a batch's block, one by one.
use plan_rules::Multipliers;
use pool_base::{RiderId, Sequence, VehicleId};
use request_book::{MoveLine, PlannedStop};

/// A vehicle, the seconds that its trip costs, and the trip's riders, of whom a line may name more than a trip has.
#[derive(Drop)]
pub struct TripRowText {
    pub vehicle: VehicleId,
    pub cost: u64,
    pub riders: Sequence<RiderId>,
}

/// A vehicle, the seconds that its trip costs, and the trip's stops, of which a line may name more than a trip has.
#[derive(Drop)]
pub struct TripText {
    pub vehicle: VehicleId,
    pub cost: u64,
    pub stops: Sequence<PlannedStop>,
}

/// A late vehicle, with its passengers' least delay and the order of its stops, of which a line may name more than its
/// passengers have; or with neither where the line says `none`.
#[derive(Drop)]
pub struct LateText {
    pub vehicle: VehicleId,
    pub delay: u64,
    pub stops: Option<Sequence<PlannedStop>>,
}

/// A line of a batch's block, by what it says.
#[derive(Drop)]
pub enum BlockLine {
    /// The batch's number.
    Batch(u64),
    /// A rider whose wait ran out.
    Expired(RiderId),
    /// There were too many rows.
    Overflow,
    /// A rider whose promise couldn't be kept.
    Lapsed(RiderId),
    Late(LateText),
    /// A vehicle and a rider who can ride alone with it.
    Alone((VehicleId, RiderId)),
    /// Two riders who can share a vehicle.
    Shared((RiderId, RiderId)),
    TripRow(TripRowText),
    Trip(TripText),
    /// A rider in no chosen trip.
    Out(RiderId),
    Move(MoveLine),
    Cost(u64),
    Bound(i128),
    /// How many nodes the tree has.
    Nodes(u64),
    /// A node that branches: the vehicle of a row, and which row line of the block it is.
    Branch((VehicleId, u32)),
    Leaf(Multipliers),
    Dead,
    End,
}
