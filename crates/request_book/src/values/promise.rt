use pool_base::VehicleId;

/// What a rider was told: which vehicle comes, and at which second.
#[derive(Clone, Copy, PartialEq, Eq)]
pub struct Promise {
    pub vehicle: VehicleId,
    pub pickup: u64,
}
