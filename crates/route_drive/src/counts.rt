//! What is counted of a driven day.
ghost use Rattle.std.specs.Prelude.{◌≡◌, ◌∷◌, [], ℕ, List, All, IfOk, OnOk, map};
ghost use Rattle.std.specs.List.{AllZip};
ghost use Rattle.request_book.specs.Consistent.{IsNode};
ghost use Rattle.request_book.specs.declared.values.journal.Entry.{Entry as EntryValue};
ghost use Rattle.road_network.specs.Roads.{index_in};
ghost use Rattle.road_network.specs.Walk.{IsTimeBetween};
ghost use Rattle.route_drive.specs.Counts.{AreCounts, ideal_dropoff};
ghost use Rattle.route_drive.specs.work.Counting.{AddsServed, AreServed, IsDelayed, served_by, waited};
ghost use Rattle.stop_orders.specs.task.Settled.{greatest};

use dispatch_report::DayCounts;
use pool_base::{NodeId, OutOfMemory, RiderId, Second, Times};
use request_book::{Book, Command, Entry, Reply};
use road_network::Network;
use std::alloc::Global;
use travel_times::{Arcs, Search};

/// A rider who was picked up or dropped, and when.
#[derive(Clone, Copy)]
pub struct ServedRider {
    pub rider: RiderId,
    pub second: Second,
}

/// Who was picked up and who was dropped so far, in order.
#[derive(Drop)]
pub struct Served {
    pub picked: Vec<ServedRider>,
    pub dropped: Vec<ServedRider>,
}

impl Served {
    pub(crate) fn nobody(alloc: Global) -> Served
        ensures picked { result.picked.items ≡ [] }
        ensures dropped { result.dropped.items ≡ [] }
    {
        Served {
            picked: Vec::new(alloc),
            dropped: Vec::new(alloc),
        }
    }
}

/// Notes whom entries pick up or drop.
pub(crate) fn note_entries(served: &mut Served, entries: &[Entry]) -> Result<(), OutOfMemory>
    ensures { OnOk result (AddsServed entries.now served.old served.new) }
{
    for entry in entries {
        note_entry(served, entry)?;
    }
    Ok(())
}

/// Notes whom an entry picks up or drops, if it does.
fn note_entry(served: &mut Served, entry: &Entry) -> Result<(), OutOfMemory>
    ensures { OnOk result (AddsServed (entry.now ∷ []) served.old served.new) }
{
    match entry.reply {
        Reply::Picked => served.picked.push(served_by(&entry.command))?,
        Reply::Dropped => served.dropped.push(served_by(&entry.command))?,
        _ => {}
    }
    Ok(())
}

/// The rider of a pickup or drop-off, and its second.
fn served_by(command: &Command) -> ServedRider
    ensures { result ≡ served_by command.now }
{
    match command {
        Command::Pickup { rider, time, .. } => ServedRider {
            rider: *rider,
            second: *time,
        },
        Command::Dropoff { rider, time, .. } => ServedRider {
            rider: *rider,
            second: *time,
        },
        Command::Report { time, .. } => ServedRider {
            rider: RiderId::default(),
            second: *time,
        },
        _ => ServedRider {
            rider: RiderId::default(),
            second: Second::default(),
        },
    }
}

/// The counts of a day that led to a book over this network, where these were served.
pub(crate) fn counts_of(
    alloc: Global,
    book: &Book,
    served: &Served,
    network: &Network,
) -> Result<DayCounts, OutOfMemory>
    requires nodes { book.now.nodes ≡ network.now.nodes }
    ensures { IfOk result (λ run. (entries : List EntryValue) → AreServed entries served.now → AreCounts network.now book.now.state.riders entries run) }
{
    book.keeps();
    let arcs = Arcs::of(alloc, network)?;
    let mut search = Search::new(alloc)?;
    let worst = worst_delay(&mut search, book, &served.dropped, &arcs);
    drop(search);
    drop(arcs);
    match worst {
        Ok(delay) => Ok(DayCounts {
            picked: served.picked.len() as u64,
            dropped: served.dropped.len() as u64,
            worst_wait: worst_wait(book, &served.picked),
            worst_delay: delay,
        }),
        Err(_) => Err(OutOfMemory),
    }
}

/// The longest wait of those who were picked up.
fn worst_wait(book: &Book, picked: &[ServedRider]) -> u64
    ensures { result ≡ greatest (map (waited book.now.state.riders) picked.now) }
{
    let mut worst = 0u64;
    for served in picked {
        worst = worst.max(wait_of(book, *served));
    }
    worst
}

/// The longest delay of those who were dropped.
fn worst_delay(
    search: &mut Search,
    book: &Book,
    dropped: &[ServedRider],
    arcs: &Arcs<'_>,
) -> Result<u64, OutOfMemory>
    requires named { All (λ r. IsNode arcs.now.network.now.nodes r.origin × IsNode arcs.now.network.now.nodes r.destination) book.now.state.riders }
    ensures { IfOk result (λ worst. (delays : List ℕ) × AllZip (IsDelayed arcs.now.network.now book.now.state.riders) dropped.now delays × (worst ≡ greatest delays)) }
{
    let mut worst = 0u64;
    for served in dropped {
        match delay_of(search, book, *served, arcs) {
            Ok(delay) => worst = worst.max(delay),
            Err(_) => return Err(OutOfMemory),
        }
    }
    Ok(worst)
}

/// How long a rider who was picked up had waited.
fn wait_of(book: &Book, served: ServedRider) -> u64
    ensures { result ≡ waited book.now.state.riders served }
{
    match book.rider(served.rider) {
        Some(found) => (served.second.get() as u64).saturating_sub(found.time.get() as u64),
        None => 0,
    }
}

/// How long after the ideal second a rider was dropped.
fn delay_of(
    search: &mut Search,
    book: &Book,
    served: ServedRider,
    arcs: &Arcs<'_>,
) -> Result<u64, OutOfMemory>
    requires named { All (λ r. IsNode arcs.now.network.now.nodes r.origin × IsNode arcs.now.network.now.nodes r.destination) book.now.state.riders }
    ensures { IfOk result (IsDelayed arcs.now.network.now book.now.state.riders served) }
{
    match book.rider(served.rider) {
        Some(found) => {
            let seconds = seconds_between(search, found.origin, found.destination, arcs)?;
            let ideal = ideal_of(found.time, seconds);
            Ok((served.second.get() as u64).saturating_sub(ideal))
        }
        None => Ok(0),
    }
}

/// The ideal second of a drop-off.
fn ideal_of(time: Second, seconds: u32) -> u64
    ensures { result ≡ ideal_dropoff time seconds }
{
    let time = time.get() as u64;
    if seconds < Times::NEVER {
        time + seconds as u64
    } else {
        time
    }
}

/// The travel time between two nodes.
fn seconds_between(
    search: &mut Search,
    from: NodeId,
    to: NodeId,
    arcs: &Arcs<'_>,
) -> Result<u32, OutOfMemory>
    requires from { IsNode arcs.now.network.now.nodes from }
    requires to { IsNode arcs.now.network.now.nodes to }
    ensures { IfOk result (IsTimeBetween arcs.now.network.now.arcs (index_in arcs.now.network.now.nodes from) (index_in arcs.now.network.now.nodes to)) }
{
    let start = arcs.network.index_of(from).unwrap();
    let goal = arcs.network.index_of(to).unwrap();
    search.run(arcs, start, Some(goal))?;
    Ok(search.seconds[goal])
}
