ghost use Rattle.std.specs.Prelude.{◌≡◌, ◌↔◌, IsTrue, All, Contains, length};
ghost use Rattle.trip_graph.specs.vehicle.Trip.{IsRising, trips_of};

use crate::vehicle::trip_of::TripOf;
use std::cmp::Ordering;

/// Whether one of the rows, all of this trip's size and in order, has exactly these riders. A binary search.
pub(crate) fn has_trip(rows: &[TripOf], trip: &[usize]) -> bool
    requires sized { All (λ row. length row.riders.items ≡ length trip.now) rows.now }
    requires rising { IsRising (trips_of rows.now) }
    ensures { IsTrue result ↔ Contains (trips_of rows.now) trip.now }
{
    let mut low = 0;
    let mut high = rows.len();
    while low < high {
        let middle = low + (high - low) / 2;
        match rows[middle].riders.as_slice().cmp(trip) {
            Ordering::Less => low = middle + 1,
            Ordering::Greater => high = middle,
            Ordering::Equal => return true,
        }
    }
    false
}
