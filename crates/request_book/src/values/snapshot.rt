ghost use Rattle.std.specs.Prelude.{◌≡◌, ◌↔◌, IsTrue, IfOk};

use crate::values::batch_rider::Rider;
use crate::values::vehicle::Vehicle;
use pool_base::{OutOfMemory, RiderId, Second, Sequence};
use std::alloc::Global;
use std::marker::Model;

/// All vehicles and the riders of a batch, at the second at which it was sealed.
#[derive(Drop)]
pub struct Snapshot {
    /// The number of the batch, from 1.
    pub batch: u64,
    pub now: Second,
    /// By rising id.
    pub vehicles: Sequence<Vehicle>,
    /// Who waits or has a promise, by rising id.
    pub riders: Sequence<Rider>,
    /// Whose wait ended with this seal, by rising id.
    pub expired: Sequence<RiderId>,
}

impl Model for Snapshot {
    ghost use Rattle.request_book.specs.values.Batch.{Batch};

    ghost Value = { Batch };

    ghost use Rattle.request_book.specs.values.Kept.{IsKept};

    ghost view = { λ s. record { number = s.batch; sealed_at = s.now; vehicles = s.vehicles; riders = s.riders; expired = s.expired } };

    ghost invariant = { λ s. IsKept (record { number = s.batch; sealed_at = s.now; vehicles = s.vehicles; riders = s.riders; expired = s.expired }) };
}

impl Snapshot {
    ghost use Rattle.request_book.specs.values.Kept.{IsKept};

    /// An equal snapshot.
    pub fn copy(&self, alloc: Global) -> Result<Snapshot, OutOfMemory>
        ensures copy { IfOk result (λ copy. copy ≡ self.entry.now) }
        ensures kept { IsKept self.entry.now }
    {
        Ok(Snapshot {
            batch: self.batch,
            now: self.now,
            vehicles: Sequence::of(copied_vehicles(alloc, self.vehicles.as_slice())?),
            riders: Sequence::of(Vec::from_slice(alloc, self.riders.as_slice())?),
            expired: Sequence::of(Vec::from_slice(alloc, self.expired.as_slice())?),
        })
    }

    /// Whether the two tell the same.
    pub fn same(&self, other: &Snapshot) -> bool
        ensures { IsTrue result ↔ (self.entry.now ≡ other.entry.now) }
    {
        if self.batch != other.batch || self.now != other.now {
            return false;
        }
        if !same_vehicles(self.vehicles.as_slice(), other.vehicles.as_slice()) {
            return false;
        }
        if !same_riders(self.riders.as_slice(), other.riders.as_slice()) {
            return false;
        }
        self.expired.as_slice() == other.expired.as_slice()
    }
}

/// Equal vehicles.
pub fn copied_vehicles(alloc: Global, vehicles: &[Vehicle]) -> Result<Vec<Vehicle>, OutOfMemory>
    ensures { IfOk result (λ copy. copy.items ≡ vehicles.now) }
{
    let mut copy = Vec::with_capacity(alloc, vehicles.len())?;
    for vehicle in vehicles {
        copy.push(vehicle.copied())?;
    }
    Ok(copy)
}

fn same_vehicles(a: &[Vehicle], b: &[Vehicle]) -> bool
    ensures { IsTrue result ↔ (a.now ≡ b.now) }
{
    a == b
}

fn same_riders(a: &[Rider], b: &[Rider]) -> bool
    ensures { IsTrue result ↔ (a.now ≡ b.now) }
{
    a == b
}
