//! Worked scripts of commands on the line of five nodes, what the book replies, and what riders are told.
use crate::line::{LINE, book_on, network_of};
use arrayvec::ArrayVec;
use plan_rules::Tree;
use pool_base::{NodeId, OutOfMemory, Party, RiderId, Second, Sequence, VehicleId};
use request_book::{
    Answer, Book, BookRefusal, ChosenTrip, Command, MemoryNotifier, Notice, Outcome, Planned,
    PlannedStop, Reply, Status, tell_journal,
};
use road_network::Network;
use std::alloc::{AllocError, Global};

/// Vehicle 1 with four seats at node 1, from second 0 on.
const ONE: &[u8] = b"vehicle,seats,node,second\n1,4,1,0\n";

/// Two such vehicles.
const TWO: &[u8] = b"vehicle,seats,node,second\n1,4,1,0\n2,4,1,0\n";

fn rider(name: u64) -> RiderId {
    RiderId::new(name).unwrap_or(RiderId::default())
}

fn vehicle(name: u64) -> VehicleId {
    VehicleId::new(name).unwrap_or(VehicleId::default())
}

fn node(name: u64) -> NodeId {
    NodeId::new(name).unwrap_or(NodeId::default())
}

fn second(number: u64) -> Second {
    Second::new(number).unwrap_or(Second::default())
}

/// What is asked. A close's plan lets a vehicle pick a rider up at node 2 at this second, and drop them at node 4 two minutes
/// later; a close of vehicle 0 has no trip.
#[derive(Clone, Copy)]
enum Ask {
    Submit {
        rider: u64,
    },
    Cancel {
        rider: u64,
    },
    Pickup {
        vehicle: u64,
        rider: u64,
        time: u64,
    },
    Seal {
        time: u64,
    },
    Close {
        batch: u64,
        vehicle: u64,
        rider: u64,
        time: u64,
    },
}

/// A close without a trip.
const fn closing(batch: u64) -> Ask {
    Ask::Close {
        batch,
        vehicle: 0,
        rider: 0,
        time: 0,
    }
}

/// A plan of these trips and nothing else.
fn planned(alloc: Global, chosen: Vec<ChosenTrip>) -> Answer {
    Answer::Planned(Planned {
        lapsed: Sequence::empty(alloc),
        late: Sequence::empty(alloc),
        rv: Sequence::empty(alloc),
        rr: Sequence::empty(alloc),
        rows: Sequence::empty(alloc),
        chosen: Sequence::of(chosen),
        left: Sequence::empty(alloc),
        moves: Sequence::empty(alloc),
        cost: 0,
        bound: 0,
        tree: Tree::of(Vec::new(alloc)),
    })
}

fn stop(pick: bool, rider: RiderId, at: u64, time: u64) -> PlannedStop {
    PlannedStop {
        pick,
        rider,
        node: node(at),
        second: time,
    }
}

/// The trip of a vehicle that brings a rider from node 2 to node 4.
fn trip(named: u64, passenger: u64, time: u64) -> ChosenTrip {
    let mut stops = ArrayVec::new();
    stops.push(stop(true, rider(passenger), 2, time));
    stops.push(stop(false, rider(passenger), 4, time.saturating_add(120)));
    ChosenTrip {
        vehicle: vehicle(named),
        cost: 0,
        stops,
    }
}

fn close(
    alloc: Global,
    batch: u64,
    vehicle: u64,
    rider: u64,
    time: u64,
) -> Result<Command, AllocError> {
    let mut chosen = Vec::new(alloc);
    if vehicle > 0 {
        chosen.push(trip(vehicle, rider, time))?;
    }
    Ok(Command::Close {
        batch,
        outcome: Outcome {
            expired: Sequence::empty(alloc),
            answer: planned(alloc, chosen),
        },
    })
}

/// What is asked, as a command. Whoever asks goes from node 2 to node 4, at second 0.
fn command(alloc: Global, ask: Ask) -> Result<Command, AllocError> {
    match ask {
        Ask::Submit { rider: name } => Ok(Command::Submit {
            rider: rider(name),
            origin: node(2),
            destination: node(4),
            time: second(0),
            party: Party::ONE,
        }),
        Ask::Cancel { rider: name } => Ok(Command::Cancel { rider: rider(name) }),
        Ask::Pickup {
            vehicle: named,
            rider: name,
            time,
        } => Ok(Command::Pickup {
            vehicle: vehicle(named),
            rider: rider(name),
            time: second(time),
        }),
        Ask::Seal { time } => Ok(Command::Seal { now: second(time) }),
        Ask::Close {
            batch,
            vehicle,
            rider,
            time,
        } => close(alloc, batch, vehicle, rider, time),
    }
}

/// The reply in lane 0; none for want of memory.
fn applied(book: &mut Book, command: Command) -> Option<Reply> {
    match book.apply(0, command) {
        Ok(reply) => Some(reply),
        Err(_) => None,
    }
}

/// The same of what is asked.
fn replied(alloc: Global, book: &mut Book, ask: Ask) -> Option<Reply> {
    match command(alloc, ask) {
        Ok(command) => applied(book, command),
        Err(_) => None,
    }
}

/// Asks the book all this; its last reply.
fn last_reply(alloc: Global, book: &mut Book, asks: &[Ask]) -> Option<Reply> {
    let mut last = None;
    for ask in asks {
        last = replied(alloc, book, *ask);
    }
    last
}

/// The reply of a new book of this fleet to the last of so many that are asked.
fn reply_of(alloc: Global, fleet: &[u8], asks: &[Ask], count: usize) -> Option<Reply> {
    let network = network_of(alloc, LINE)?;
    match book_on(alloc, &network, fleet) {
        Some(mut book) => last_reply(alloc, &mut book, asks.get(..count).unwrap_or(&[])),
        None => None,
    }
}

/// A batch is open from its seal to its close, and a close names it.
#[test]
fn one_batch_is_open_at_a_time(rt: HostRuntime) {
    let asks = [
        Ask::Seal { time: 5 },
        Ask::Seal { time: 6 },
        closing(2),
        closing(1),
        closing(1),
    ];
    let alloc = rt.alloc();
    assert!(rt;
        matches!(
            reply_of(alloc, ONE, &asks, 1),
            Some(Reply::Sealed { batch: 1 })
        )
    );
    assert!(rt;
        matches!(
            reply_of(alloc, ONE, &asks, 2),
            Some(Reply::Refused(BookRefusal::BatchOpen { batch: 1 }))
        )
    );
    assert!(rt;
        matches!(
            reply_of(alloc, ONE, &asks, 3),
            Some(Reply::Refused(BookRefusal::NotThisBatch { current: Some(1) }))
        )
    );
    assert!(rt; matches!(reply_of(alloc, ONE, &asks, 4), Some(Reply::Closed)));
    assert!(rt;
        matches!(
            reply_of(alloc, ONE, &asks, 5),
            Some(Reply::Refused(BookRefusal::NotThisBatch { current: None }))
        )
    );
}

/// Who gave up while the batch was solved, and was promised a vehicle by its close.
const GIVEN_UP: [Ask; 5] = [
    Ask::Submit { rider: 1 },
    Ask::Seal { time: 0 },
    Ask::Cancel { rider: 1 },
    Ask::Close {
        batch: 1,
        vehicle: 1,
        rider: 1,
        time: 60,
    },
    Ask::Cancel { rider: 1 },
];

#[test]
fn who_gave_up_stays_so(rt: HostRuntime) {
    let alloc = rt.alloc();
    assert!(rt; matches!(reply_of(alloc, ONE, &GIVEN_UP, 1), Some(Reply::Accepted)));
    assert!(rt;
        matches!(
            reply_of(alloc, ONE, &GIVEN_UP, 2),
            Some(Reply::Sealed { batch: 1 })
        )
    );
    assert!(rt; matches!(reply_of(alloc, ONE, &GIVEN_UP, 3), Some(Reply::Cancelled)));
    assert!(rt; matches!(reply_of(alloc, ONE, &GIVEN_UP, 4), Some(Reply::Closed)));
    assert!(rt;
        matches!(
            reply_of(alloc, ONE, &GIVEN_UP, 5),
            Some(Reply::Refused(BookRefusal::Ended {
                status: Status::Cancelled
            }))
        )
    );
}

/// A rider who is promised vehicle 1, gets in while the next batch is solved, and is given to vehicle 2 by its close.
const GIVEN_AWAY: [Ask; 7] = [
    Ask::Submit { rider: 1 },
    Ask::Seal { time: 0 },
    Ask::Close {
        batch: 1,
        vehicle: 1,
        rider: 1,
        time: 60,
    },
    Ask::Seal { time: 0 },
    Ask::Pickup {
        vehicle: 1,
        rider: 1,
        time: 60,
    },
    Ask::Close {
        batch: 2,
        vehicle: 2,
        rider: 1,
        time: 60,
    },
    Ask::Pickup {
        vehicle: 2,
        rider: 1,
        time: 60,
    },
];

/// Whether the reply says that the rider is aboard of this vehicle.
fn is_aboard_of(reply: &Option<Reply>, named: VehicleId) -> bool {
    match reply {
        Some(Reply::Refused(BookRefusal::IsAboard { vehicle: carrier })) => *carrier == named,
        _ => false,
    }
}

#[test]
fn who_is_aboard_stays_so(rt: HostRuntime) {
    let alloc = rt.alloc();
    assert!(rt;
        matches!(
            reply_of(alloc, TWO, &GIVEN_AWAY, 4),
            Some(Reply::Sealed { batch: 2 })
        )
    );
    assert!(rt; matches!(reply_of(alloc, TWO, &GIVEN_AWAY, 5), Some(Reply::Picked)));
    assert!(rt; matches!(reply_of(alloc, TWO, &GIVEN_AWAY, 6), Some(Reply::Closed)));
    assert!(rt; is_aboard_of(&reply_of(alloc, TWO, &GIVEN_AWAY, 7), vehicle(1)));
}

/// A notifier with room for two notices of which this call fails.
fn notifier(alloc: Global, fail: u64) -> Result<MemoryNotifier, OutOfMemory> {
    let mut notifier = MemoryNotifier::new(alloc, Vec::from_slice(alloc, &[fail])?);
    notifier.reserve(2)?;
    Ok(notifier)
}

/// Three notifiers, of which the second fails this call.
fn three(alloc: Global, fail: u64) -> Result<Vec<MemoryNotifier>, OutOfMemory> {
    let mut notifiers = Vec::new(alloc);
    for call in [2, fail, 2] {
        notifiers.push(notifier(alloc, call)?)?;
    }
    Ok(notifiers)
}

/// What is left of three notifiers that were told the round of these commands.
fn told_by(
    alloc: Global,
    network: &Network,
    asks: &[Ask],
    fail: u64,
) -> Result<Vec<MemoryNotifier>, OutOfMemory> {
    let mut notifiers = three(alloc, fail)?;
    let Some(mut book) = book_on(alloc, network, ONE) else {
        return Err(OutOfMemory);
    };
    let _last = last_reply(alloc, &mut book, asks);
    let journal = book.take_round()?;
    tell_journal(alloc, &mut notifiers, &journal, network, 120)?;
    Ok(notifiers)
}

fn told(alloc: Global, asks: &[Ask], fail: u64) -> Option<Vec<MemoryNotifier>> {
    let network = network_of(alloc, LINE)?;
    told_by(alloc, &network, asks, fail).ok()
}

/// Whether this is what rider 1 is told of the trip.
fn is_the_promise(notices: &[Notice]) -> bool {
    match notices {
        [
            Notice::Promised {
                batch: 1,
                rider: who,
                vehicle: by,
                pickup: 60,
                dropoff: 180,
            },
        ] => *who == rider(1) && *by == vehicle(1),
        _ => false,
    }
}

#[test]
fn each_notifier_is_told_the_promise(rt: HostRuntime) {
    let asks = [
        Ask::Submit { rider: 1 },
        Ask::Seal { time: 0 },
        Ask::Close {
            batch: 1,
            vehicle: 1,
            rider: 1,
            time: 60,
        },
    ];
    let Some(all) = told(rt.alloc(), &asks, 2) else {
        panic!(rt; "no memory")
    };
    assert_eq!(rt; all.len(), 3);
    assert!(rt; all.iter().all(|notifier| is_the_promise(notifier.told())));
    let Some(some) = told(rt.alloc(), &asks, 0) else {
        panic!(rt; "no memory")
    };
    assert_eq!(rt; some.len(), 2);
    assert!(rt; some.iter().all(|notifier| is_the_promise(notifier.told())));
}

#[test]
fn who_gave_up_is_told_nothing(rt: HostRuntime) {
    let Some(all) = told(rt.alloc(), &GIVEN_UP, 2) else {
        panic!(rt; "no memory")
    };
    assert_eq!(rt; all.len(), 3);
    assert!(rt; all.iter().all(|notifier| notifier.told().is_empty()));
}
