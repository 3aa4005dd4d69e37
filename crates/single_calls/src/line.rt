//! A line of five nodes, and the batch of two riders who ask for a ride on it.
use input_rows::{FLEET_HEADER, read_fleet};
use pool_base::{NodeId, Party, RiderId, Second};
use pool_io::rows;
use request_book::{Book, Command, Reply, Snapshot};
use rider_limits::{Mode, Settings, TimesWay};
use road_network::{NETWORK_HEADER, Network, read_network};
use std::alloc::Global;

/// Five nodes in a line, a minute between neighbours.
pub const LINE: &[u8] =
    b"from,to,seconds\n1,2,60\n2,1,60\n2,3,60\n3,2,60\n3,4,60\n4,3,60\n4,5,60\n5,4,60\n";

/// Vehicle 1 with two seats at node 1, from second 0 on.
const FLEET: &[u8] = b"vehicle,seats,node,second\n1,2,1,0\n";

/// The settings that words without options give.
pub fn settings() -> Settings {
    Settings {
        mode: Mode::Run,
        wait: 120,
        delay: 180,
        trip: 4,
        penalty: 10_000,
        budget: 200,
        pairs: 200_000,
        workers: 4,
        proof: false,
        dwell: 0,
        times: TimesWay::Rows,
    }
}

/// The network of a file; `None` where it is refused, and for want of memory.
pub fn network_of(alloc: Global, text: &[u8]) -> Option<Network> {
    match rows(alloc, text, NETWORK_HEADER) {
        Ok(table) => match read_network(alloc, &table) {
            Ok(network) => Some(network),
            Err(_) => None,
        },
        Err(_) => None,
    }
}

/// The batch in which riders 1 from node 2 to 4 and 2 from 3 to 5 ask for a ride, at second 0.
pub fn batch_on(alloc: Global, network: &Network) -> Option<Snapshot> {
    match book_on(alloc, network, FLEET) {
        Some(mut book) => asked(&mut book),
        None => None,
    }
}

/// The book of a fleet on the network, before its first round.
pub fn book_on(alloc: Global, network: &Network, fleet: &[u8]) -> Option<Book> {
    match rows(alloc, fleet, FLEET_HEADER) {
        Ok(table) => match read_fleet(alloc, &table, network) {
            Ok(fleet) => Book::new(alloc, network, fleet, 120).ok(),
            Err(_) => None,
        },
        Err(_) => None,
    }
}

fn asked(book: &mut Book) -> Option<Snapshot> {
    if submits(book, 1, 2, 4) && submits(book, 2, 3, 5) {
        book.would_seal(Second::default()).unwrap_or(None)
    } else {
        None
    }
}

/// Whether the book lets one person ask.
fn submits(book: &mut Book, rider: u64, origin: u64, destination: u64) -> bool {
    let command = Command::Submit {
        rider: RiderId::new(rider).unwrap_or(RiderId::default()),
        origin: node(origin),
        destination: node(destination),
        time: Second::default(),
        party: Party::ONE,
    };
    matches!(book.apply(0, command), Ok(Reply::Accepted))
}

fn node(name: u64) -> NodeId {
    NodeId::new(name).unwrap_or(NodeId::default())
}
