ghost use Rattle.std.specs.Prelude.{◌≡◌, ◌+◌, ◌-◌, ◌<◌, ◌≤◌, ◌++◌, ◌∷◌, [], ◌↔◌, IsTrue, IsFalse, All, length, take, remove, slice_index_or};
ghost use Rattle.trip_graph.specs.vehicle.Trip.{trips_of};
ghost use Rattle.trip_graph.specs.work.vehicle.Level.{IsBelow};
ghost use Rattle.trip_graph.specs.work.vehicle.TripGrowth.{CanGrow, serves};

use crate::vehicle::growth::Growth;
use crate::vehicle::trip_of::TripOf;
use crate::vehicle::trip_search::has_trip;
use arrayvec::ArrayVec;

/// The trip with one more rider.
pub(crate) fn with_rider(riders: &[usize], rider: usize) -> ArrayVec<usize, 6>
    requires { length riders.now < 6 }
    ensures { result.items ≡ riders.now ++ rider ∷ [] }
{
    let mut trip = ArrayVec::new();
    trip.try_extend_from_slice(riders).unwrap();
    trip.push(rider);
    trip
}

/// The trip without the rider at this place.
pub(crate) fn without_rider(trip: &[usize], place: usize) -> ArrayVec<usize, 6>
    requires place { place < length trip.now }
    requires size { length trip.now ≤ 6 }
    ensures { result.items ≡ remove trip.now place }
{
    let mut rest = ArrayVec::new();
    rest.try_extend_from_slice(trip).unwrap();
    rest.remove(place);
    rest
}

/// Whether the first riders of two trips, so many of each, are the same.
pub(crate) fn have_same_front(one: &[usize], other: &[usize], front: usize) -> bool
    requires one { front ≤ length one.now }
    requires other { front ≤ length other.now }
    ensures { IsTrue result ↔ (take front one.now ≡ take front other.now) }
{
    one[..front] == other[..front]
}

/// Whether the row behind this one differs from it in the last rider alone; all have one rider more than the front.
pub(crate) fn has_sibling(rows: &[TripOf], row: usize, front: usize) -> bool
    requires row { row < length rows.now }
    requires sized { All (λ one. length one.riders.items ≡ front + 1) rows.now }
    ensures { IsFalse result → row + 1 < length rows.now
        → take front (slice_index_or (trips_of rows.now) (row + 1) []) ≡ take front (slice_index_or (trips_of rows.now) row []) → ⊥ }
{
    if row + 1 >= rows.len() {
        return false;
    }
    let riders = rows[row].riders.as_slice();
    let other = rows[row + 1].riders.as_slice();
    have_same_front(riders, other, front)
}

/// Whether the pairs leave it possible that the vehicle can serve these riders and one more: of trips of two they
/// tell. `near` is where they were looked up before.
pub(crate) fn may_share(
    growth: &Growth<'_>,
    near: &mut usize,
    riders: &[usize],
    rider: usize,
) -> bool
    requires { CanGrow growth.now }
    ensures { IsFalse result → serves growth.now (riders.now ++ rider ∷ []) → ⊥ }
{
    riders.len() != 1 || growth.pairs.has_near(near, riders[0], rider)
}

/// Whether the smaller trips leave it possible that the vehicle can serve the trip. The two smaller trips
/// without one of the last two riders are known to be rows.
pub(crate) fn is_possible(growth: &Growth<'_>, rows: &[TripOf], trip: &[usize]) -> bool
    requires can { CanGrow growth.now }
    requires below { IsBelow (serves growth.now) (length trip.now - 1) rows.now }
    requires some { 1 ≤ length trip.now }
    requires size { length trip.now ≤ 6 }
    ensures { IsFalse result → serves growth.now trip.now → ⊥ }
{
    for place in 0..trip.len().saturating_sub(2) {
        if !has_trip(rows, without_rider(trip, place).as_slice()) {
            return false;
        }
    }
    true
}
