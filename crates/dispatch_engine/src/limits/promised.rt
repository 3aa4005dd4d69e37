ghost use Rattle.std.specs.Prelude.{◌≡◌, ◌+◌, ◌<◌, ◌≤◌, MatchOption, length};
ghost use Rattle.dispatch_engine.specs.limits.Promised.{promised_to};
ghost use Rattle.dispatch_engine.specs.lemmas.limits.NamedPromises.{is_promised_to};

use arrayvec::ArrayVec;
use pool_base::VehicleId;
use request_book::Rider;

/// The numbers of the riders whose promise names the vehicle; `None` where they are more than `most`.
pub(crate) fn riders_promised_to(
    requests: &[Rider],
    vehicle: VehicleId,
    most: usize,
) -> Option<ArrayVec<usize, 6>>
    requires { most ≤ 6 }
    ensures { MatchOption result (most < length (promised_to vehicle requests.now))
        (λ held. (held.items ≡ promised_to vehicle requests.now) × (length held.items ≤ most)) }
{
    let mut held = ArrayVec::new();
    for (number, request) in requests.iter().enumerate() {
        if !names(request, vehicle) {
            continue;
        }
        if held.len() >= most {
            return None;
        }
        held.push(number);
    }
    Some(held)
}

/// Whether the rider's promise names the vehicle.
fn names(request: &Rider, vehicle: VehicleId) -> bool
    ensures { result ≡ is_promised_to vehicle request.now }
{
    match request.promise {
        Some(promise) => promise.vehicle == vehicle,
        None => false,
    }
}
