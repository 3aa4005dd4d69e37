//! How long a table of shortest times takes on a network, by searches or by labels, between nodes spread evenly over it,
//! and the sum of each table's cells, by which another program's table can be compared.
ghost use Rattle.std.specs.Prelude.{◌≡◌, ◌<◌, ◌≤◌, IfOk, IfSome};
ghost use Rattle.travel_times.specs.labels.Labels.{AreLabelsOf};

use crate::fault::Fault;
use pool_base::{NodeId, OutOfMemory, Times, read_number_up_to};
use pool_io::{StdSource, read_all, rows};
use road_network::{NETWORK_HEADER, Network, read_network};
use std::alloc::Global;
use std::env;
use std::fs::File;
use std::thread::{Threads, available_parallelism};
use std::time::Instant;
use travel_times::{LabelWays, Labels, NetworkWays, Ways, are_known};

/// A file is no longer than this many bytes.
const LONGEST_FILE: u64 = 67_108_864;

const MOST_POINTS: u64 = 12_500;

/// What the words ask for.
#[derive(Drop)]
struct Wish {
    network: String,
    points: usize,
    repeats: u64,
    by_labels: bool,
}

/// Times the tables that the words behind the first ask for.
pub fn time_tables(rt: &HostRuntime, threads: &(impl Threads + Sync)) -> Result<(), Fault> {
    let Some(wish) = wish_of(rt) else {
        return Err(Fault::Words);
    };
    let network = network_of(rt, &wish.network)?;
    measure_on(rt, threads, &network, &wish)
}

fn measure_on(
    rt: &HostRuntime,
    threads: &(impl Threads + Sync),
    network: &Network,
    wish: &Wish,
) -> Result<(), Fault>
    requires { wish.now.points ≤ 12500 }
{
    let nodes = spread_nodes(rt.alloc(), network, wish.points)?;
    println!(rt; "threads {}", available_parallelism(threads)?)?;
    if wish.by_labels {
        let labels = labels_of(rt, network)?;
        let ways = LabelWays::of(network, labels, 4);
        measure_tables(rt, threads, network, &ways, &nodes, wish.repeats)
    } else {
        let ways = NetworkWays {
            network,
            workers: 4,
        };
        measure_tables(rt, threads, network, &ways, &nodes, wish.repeats)
    }
}

/// The labels of a network, timed.
fn labels_of(rt: &HostRuntime, network: &Network) -> Result<Labels, Fault>
    ensures { IfOk result (AreLabelsOf network.now) }
{
    let start = Instant::now(rt)?;
    let labels = Labels::build(rt.alloc(), network)?;
    let took = start.elapsed(rt)?.as_micros();
    println!(rt;
        "labels {took} microseconds, nodes {}, hubs {}",
        labels.len(),
        hubs_of(&labels)
    )?;
    Ok(labels)
}

/// How many hubs all labels have.
fn hubs_of(labels: &Labels) -> u64 {
    let mut hubs = 0u64;
    for node in 0..labels.len() {
        hubs = hubs.wrapping_add(labels.forward(node).len() as u64);
        hubs = hubs.wrapping_add(labels.backward(node).len() as u64);
    }
    hubs
}

fn measure_tables<W: Ways>(
    rt: &HostRuntime,
    threads: &(impl Threads + Sync),
    network: &Network,
    ways: &W,
    nodes: &[NodeId],
    repeats: u64,
) -> Result<(), Fault>
    requires { W.roads ways.now ≡ network.now }
{
    for _repeat in 0..repeats {
        let start = Instant::now(rt)?;
        let times = table_of(threads, rt.alloc(), network, ways, nodes)?;
        let took = start.elapsed(rt)?.as_micros();
        println!(rt; "{took} microseconds, cells {}", sum_of(&times))?;
    }
    Ok(())
}

/// What the words ask for; `None` where they aren't a path, two numbers and a way.
fn wish_of(rt: &HostRuntime) -> Option<Wish>
    ensures { IfSome result (λ wish. wish.points ≤ 12500) }
{
    let mut words = env::args(rt).ok()?.skip(2);
    let network = words.next()?;
    let points = read_number_up_to(words.next()?.as_bytes(), MOST_POINTS)? as usize;
    let repeats = read_number_up_to(words.next()?.as_bytes(), 1000)?;
    let way = words.next()?;
    if way.as_str() != "rows" && way.as_str() != "labels" {
        return None;
    }
    Some(Wish {
        network,
        points,
        repeats,
        by_labels: way.as_str() == "labels",
    })
}

fn network_of(rt: &HostRuntime, path: &str) -> Result<Network, Fault> {
    let Ok(file) = File::open(rt, path) else {
        return Err(Fault::Network);
    };
    let Ok(text) = read_all(rt.alloc(), &mut StdSource::over(file), LONGEST_FILE) else {
        return Err(Fault::Network);
    };
    let Ok(streets) = rows(rt.alloc(), &text, NETWORK_HEADER) else {
        return Err(Fault::Network);
    };
    match read_network(rt.alloc(), &streets) {
        Ok(network) => Ok(network),
        Err(_) => Err(Fault::Network),
    }
}

/// As many nodes, spread evenly over those of the network in their order there; the same one again where
/// there are fewer nodes than that.
fn spread_nodes(alloc: Global, network: &Network, count: usize) -> Result<Vec<NodeId>, OutOfMemory>
    requires { count ≤ 12500 }
{
    let all = network.node_count();
    let mut nodes = Vec::with_capacity(alloc, count)?;
    if all > 0 {
        for place in 0..count {
            nodes.push(network.node_at(spread_index(place, count, all)))?;
        }
    }
    Ok(nodes)
}

/// The index of the place among so many that are spread evenly.
fn spread_index(place: usize, count: usize, all: usize) -> usize
    requires place { place < count }
    requires count { count ≤ 12500 }
    requires some { 0 < all }
    requires few { all ≤ 100000 }
    ensures { result < all }
{
    place * all / count
}

/// The table of these nodes, if the network has them all.
fn table_of<W: Ways>(
    threads: &(impl Threads + Sync),
    alloc: Global,
    network: &Network,
    ways: &W,
    nodes: &[NodeId],
) -> Result<Times, Fault>
    requires { W.roads ways.now ≡ network.now }
{
    if nodes.len() <= 12_500 && are_known(network, nodes) {
        Ok(ways.table(threads, alloc, nodes)?)
    } else {
        Err(Fault::Network)
    }
}

/// The sum of all cells, modulo 2^64.
fn sum_of(times: &Times) -> u64 {
    let mut sum = 0u64;
    for a in 0..times.len() {
        for b in 0..times.len() {
            sum = sum.wrapping_add(u64::from(times.seconds(a, b)));
        }
    }
    sum
}
