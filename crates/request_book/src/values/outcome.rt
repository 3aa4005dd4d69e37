use arrayvec::ArrayVec;
use plan_rules::Tree;
use pool_base::{NodeId, RiderId, Sequence, VehicleId};

/// What came of a sealed batch. The book doesn't judge it.
#[derive(Drop)]
pub struct Outcome {
    /// Whose wait ended with the seal, by rising id.
    pub expired: Sequence<RiderId>,
    pub answer: Answer,
}

/// The answer of a batch.
#[derive(Drop)]
pub enum Answer {
    /// There are more rows than the settings allow; every rider keeps what they had.
    Overflow,
    Planned(Planned),
}

/// A plan with what it rests on. Lists stand by rising id.
#[derive(Drop)]
pub struct Planned {
    /// Whose promise can't be kept any more.
    pub lapsed: Sequence<RiderId>,
    pub late: Sequence<LateVehicle>,
    /// Who can ride alone with which vehicle, by vehicle, then rider.
    pub rv: Sequence<(VehicleId, RiderId)>,
    /// Who can share a vehicle, by first, then second.
    pub rr: Sequence<(RiderId, RiderId)>,
    /// All trips, by vehicle, then size, then riders.
    pub rows: Sequence<TripRowLine>,
    /// The trip of each vehicle that isn't late.
    pub chosen: Sequence<ChosenTrip>,
    /// Who is in no chosen trip.
    pub left: Sequence<RiderId>,
    pub moves: Sequence<MoveLine>,
    /// The plan's cost, in seconds.
    pub cost: u64,
    /// No lawful plan costs less.
    pub bound: i128,
    /// The search tree that shows the bound.
    pub tree: Tree,
}

/// A trip that a vehicle can serve, with its least delay in seconds.
#[derive(Drop)]
pub struct TripRowLine {
    pub vehicle: VehicleId,
    pub riders: ArrayVec<RiderId, 6>,
    pub cost: u64,
}

/// The trip that the plan gives a vehicle, with its stops and its delay in seconds.
#[derive(Drop)]
pub struct ChosenTrip {
    pub vehicle: VehicleId,
    pub cost: u64,
    pub stops: ArrayVec<PlannedStop, 22>,
}

/// A stop at a node, at a second: a pickup, or else a drop-off.
#[derive(Clone, Copy, Default, PartialEq, Eq)]
pub struct PlannedStop {
    pub pick: bool,
    pub rider: RiderId,
    pub node: NodeId,
    pub second: u64,
}

/// A vehicle whose passengers can't all be dropped in time, with an order of least delay; `None`, and
/// delay 0, where some place can't be reached.
#[derive(Drop)]
pub struct LateVehicle {
    pub vehicle: VehicleId,
    pub delay: u64,
    pub stops: Option<ArrayVec<PlannedStop, 10>>,
}

/// An idle vehicle that is sent to a rider who was left out.
#[derive(Clone, Copy)]
pub struct MoveLine {
    pub vehicle: VehicleId,
    pub rider: RiderId,
    pub seconds: u32,
}
