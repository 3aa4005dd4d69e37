ghost use Rattle.std.specs.Prelude.{◌≡◌, [], All, IfOk};
ghost use Rattle.request_book.specs.Book.{opening};
ghost use Rattle.request_book.specs.Consistent.{IsNode};

use pool_base::OutOfMemory;
use request_book::{Book, Fleet, copied_vehicles};
use road_network::Network;
use std::alloc::Global;

/// The book of a fleet with which a run begins; the fleet stays the caller's.
pub fn opened_book(
    alloc: Global,
    network: &Network,
    fleet: &Fleet,
    wait: u32,
) -> Result<Book, OutOfMemory>
    requires { All (λ v. IsNode network.now.nodes v.node) fleet.now }
    ensures { IfOk result (λ book. book ≡ record { nodes = network.now.nodes; wait = wait; first = 0; base = opening fleet.now; entries = []; state = opening fleet.now; spare = 0 }) }
{
    let vehicles = copied_vehicles(alloc, fleet.vehicles())?;
    Book::new(alloc, network, Fleet::of(vehicles), wait)
}
