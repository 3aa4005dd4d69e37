ghost use Rattle.std.specs.Prelude.{◌≡◌, ◌++◌, ◌+◌, ◌*◌, ◌≤◌, ◌↔◌, ℕ, length, slice_get, MatchOption, IfOk, OnOk, Contains};
ghost use Rattle.std.specs.List.{flat_map};
ghost use Rattle.std.specs.List.Sorted.{IsStrictlyIncreasing};
ghost use Rattle.request_book.specs.Points.{ArePoints, named_nodes};
ghost use Rattle.request_book.specs.lemmas.Points.{vehicle_nodes, rider_nodes};

use crate::values::batch_rider::Rider;
use crate::values::snapshot::Snapshot;
use crate::values::vehicle::Vehicle;
use pool_base::{NodeId, OutOfMemory};
use std::alloc::Global;
use std::marker::Model;

/// The distinct nodes of a snapshot, by rising name. The place of a node is its index in that list.
#[derive(Drop)]
pub struct Points {
    nodes: Vec<NodeId>,
}

impl Model for Points {
    ghost use Rattle.std.specs.Prelude.{ℕ, List};
    ghost use Rattle.std.specs.List.Sorted.{IsStrictlyIncreasing};

    ghost Value = { List ℕ };

    ghost view = { λ p. p.nodes.items };

    ghost invariant = { λ p. IsStrictlyIncreasing p.nodes.items };
}

impl Points {
    /// The nodes, by rising name.
    pub fn nodes(&self) -> &[NodeId]
        ensures nodes { result.now ≡ self.now }
        ensures rise { IsStrictlyIncreasing self.now }
    {
        self.nodes.as_slice()
    }

    /// Where a node stands in the list; `None` where it isn't there.
    pub fn place(&self, node: NodeId) -> Option<usize>
        ensures { MatchOption result (Contains self.now node → ⊥) (λ place. slice_get self.now place ≡ Some node) }
    {
        self.nodes.binary_search(&node).ok()
    }
}

impl Snapshot {
    /// The distinct nodes of vehicles, passengers and riders; at most 12,500.
    pub fn points(&self, alloc: Global) -> Result<Points, OutOfMemory>
        ensures points { IfOk result (λ points. ArePoints self.entry.now points) }
        ensures most { IfOk result (λ points. length points ≤ 12500) }
    {
        let mut nodes = named(alloc, self.vehicles.as_slice(), self.riders.as_slice())?;
        make_distinct(&mut nodes);
        Ok(Points { nodes })
    }
}

/// The nodes that vehicles, passengers and riders name, as they come.
fn named(alloc: Global, vehicles: &[Vehicle], riders: &[Rider]) -> Result<Vec<NodeId>, OutOfMemory>
    ensures nodes { IfOk result (λ nodes. nodes.items ≡ flat_map vehicle_nodes vehicles.now ++ flat_map rider_nodes riders.now) }
    ensures most { IfOk result (λ nodes. length nodes.items ≤ 21 * length vehicles.now + 2 * length riders.now) }
{
    let mut nodes = Vec::new(alloc);
    name_vehicles(&mut nodes, vehicles)?;
    name_riders(&mut nodes, riders)?;
    Ok(nodes)
}

fn name_vehicles(nodes: &mut Vec<NodeId>, vehicles: &[Vehicle]) -> Result<(), OutOfMemory>
    ensures nodes { OnOk result (nodes.new.items ≡ nodes.old.items ++ flat_map vehicle_nodes vehicles.now) }
    ensures most { OnOk result (length nodes.new.items ≤ length nodes.old.items + 21 * length vehicles.now) }
{
    for vehicle in vehicles {
        name_vehicle(nodes, vehicle)?;
    }
    Ok(())
}

fn name_vehicle(nodes: &mut Vec<NodeId>, vehicle: &Vehicle) -> Result<(), OutOfMemory>
    ensures nodes { OnOk result (nodes.new.items ≡ nodes.old.items ++ vehicle_nodes vehicle.now) }
    ensures most { OnOk result (length nodes.new.items ≤ length nodes.old.items + 21) }
{
    nodes.push(vehicle.node)?;
    for passenger in vehicle.aboard.as_slice() {
        nodes.push(passenger.origin)?;
        nodes.push(passenger.destination)?;
    }
    Ok(())
}

fn name_riders(nodes: &mut Vec<NodeId>, riders: &[Rider]) -> Result<(), OutOfMemory>
    ensures nodes { OnOk result (nodes.new.items ≡ nodes.old.items ++ flat_map rider_nodes riders.now) }
    ensures most { OnOk result (length nodes.new.items ≤ length nodes.old.items + 2 * length riders.now) }
{
    for rider in riders {
        nodes.push(rider.origin)?;
        nodes.push(rider.destination)?;
    }
    Ok(())
}

/// Sorts the nodes and drops what stands twice.
fn make_distinct(nodes: &mut Vec<NodeId>)
    ensures rise { IsStrictlyIncreasing nodes.new.items }
    ensures same { (node : ℕ) → Contains nodes.new.items node ↔ Contains nodes.old.items node }
    ensures most { length nodes.new.items ≤ length nodes.old.items }
{
    nodes.sort_unstable();
    nodes.dedup();
}
