//! The outcome as which a block is judged.
ghost use Rattle.std.specs.Prelude.{◌≡◌, ◌==◌, ℕ, true, false, IfOk, List, map};
ghost use Rattle.std.specs.List.{position};
ghost use Rattle.report_audit.specs.block.Judged.{at_most, late_of, judged_outcome, node_of, number_among, row_of, trip_of};
ghost use Rattle.report_audit.specs.work.block.BlockLists.{told_in};

use crate::block::block_lists::BlockLists;
use arrayvec::ArrayVec;
use dispatch_report::{BlockLine, LateText, TripRowText, TripText};
use plan_rules::{Multipliers, Node, Tree};
use pool_base::{OutOfMemory, RiderId, Sequence, VehicleId};
use request_book::{
    Answer, ChosenTrip, LateVehicle, Outcome, Planned, PlannedStop, TripRowLine, Vehicle,
};
use std::alloc::Global;

/// The outcome as which what is told is judged, a batch's vehicles numbered in their order.
pub(crate) fn outcome_of(
    alloc: Global,
    told: BlockLists,
    vehicles: &[Vehicle],
) -> Result<Outcome, OutOfMemory>
    ensures { IfOk result (λ outcome. outcome ≡ judged_outcome (map (λ v. v.id) vehicles.entry.now) (told_in told)) }
{
    if told.overflow {
        return Ok(overflow(told));
    }
    match parts_of(alloc, &told, vehicles) {
        Ok(parts) => Ok(planned(told, parts)),
        Err(fault) => {
            drop(told);
            Err(fault)
        }
    }
}

/// The parts of a plan that aren't kept as they are told.
#[derive(Drop)]
struct Parts {
    late: Vec<LateVehicle>,
    rows: Vec<TripRowLine>,
    chosen: Vec<ChosenTrip>,
    tree: Vec<Node>,
}

fn parts_of(alloc: Global, told: &BlockLists, vehicles: &[Vehicle]) -> Result<Parts, OutOfMemory>
    ensures late { IfOk result (λ parts. parts.late.items ≡ map late_of told.now.late.items) }
    ensures rows { IfOk result (λ parts. parts.rows.items ≡ map row_of told.now.rows.items) }
    ensures chosen { IfOk result (λ parts. parts.chosen.items ≡ map trip_of told.now.chosen.items) }
    ensures tree { IfOk result (λ parts. parts.tree.items ≡ map (node_of (map (λ v. v.id) vehicles.entry.now)) told.now.tree.items) }
{
    let ids = ids_of(alloc, vehicles)?;
    Ok(Parts {
        late: lates_of(alloc, &told.late)?,
        rows: rows_of(alloc, &told.rows)?,
        chosen: trips_of(alloc, &told.chosen)?,
        tree: nodes_of(alloc, &told.tree, &ids)?,
    })
}

fn overflow(told: BlockLists) -> Outcome
    requires { told.overflow ≡ true }
    ensures { (ids : List ℕ) → result ≡ judged_outcome ids (told_in told) }
{
    Outcome {
        expired: Sequence::of(told.expired),
        answer: Answer::Overflow,
    }
}

fn planned(told: BlockLists, parts: Parts) -> Outcome
    requires plan { told.overflow ≡ false }
    ensures { (ids : List ℕ) → parts.late.items ≡ map late_of told.late.items → parts.rows.items ≡ map row_of told.rows.items
        → parts.chosen.items ≡ map trip_of told.chosen.items → parts.tree.items ≡ map (node_of ids) told.tree.items → result ≡ judged_outcome ids (told_in told) }
{
    let plan = Planned {
        lapsed: Sequence::of(told.lapsed),
        late: Sequence::of(parts.late),
        rv: Sequence::of(told.rv),
        rr: Sequence::of(told.rr),
        rows: Sequence::of(parts.rows),
        chosen: Sequence::of(parts.chosen),
        left: Sequence::of(told.left),
        moves: Sequence::of(told.moves),
        cost: told.cost,
        bound: told.bound,
        tree: Tree::of(parts.tree),
    };
    Outcome {
        expired: Sequence::of(told.expired),
        answer: Answer::Planned(plan),
    }
}

fn lates_of(alloc: Global, lines: &[LateText]) -> Result<Vec<LateVehicle>, OutOfMemory>
    ensures { IfOk result (λ items. items.items ≡ map late_of lines.now) }
{
    let items = lines.iter().map(|line| late_of(line)).collect(alloc)?;
    Ok(items)
}

fn late_of(late: &LateText) -> LateVehicle
    ensures { result ≡ late_of late.now }
{
    LateVehicle {
        vehicle: late.vehicle,
        delay: late.delay,
        stops: match &late.stops {
            Some(stops) => Some(stops_kept(stops.as_slice())),
            None => None,
        },
    }
}

fn rows_of(alloc: Global, lines: &[TripRowText]) -> Result<Vec<TripRowLine>, OutOfMemory>
    ensures { IfOk result (λ items. items.items ≡ map row_of lines.now) }
{
    let items = lines.iter().map(|line| row_of(line)).collect(alloc)?;
    Ok(items)
}

fn row_of(row: &TripRowText) -> TripRowLine
    ensures { result ≡ row_of row.now }
{
    TripRowLine {
        vehicle: row.vehicle,
        riders: riders_kept(row.riders.as_slice()),
        cost: row.cost,
    }
}

fn trips_of(alloc: Global, lines: &[TripText]) -> Result<Vec<ChosenTrip>, OutOfMemory>
    ensures { IfOk result (λ items. items.items ≡ map trip_of lines.now) }
{
    let items = lines.iter().map(|line| trip_of(line)).collect(alloc)?;
    Ok(items)
}

fn trip_of(trip: &TripText) -> ChosenTrip
    ensures { result ≡ trip_of trip.now }
{
    ChosenTrip {
        vehicle: trip.vehicle,
        cost: trip.cost,
        stops: stops_kept(trip.stops.as_slice()),
    }
}

fn nodes_of(alloc: Global, lines: &[BlockLine], ids: &[VehicleId]) -> Result<Vec<Node>, OutOfMemory>
    ensures { IfOk result (λ items. items.items ≡ map (node_of ids.now) lines.now) }
{
    let mut items = Vec::new(alloc);
    for line in lines {
        items.push(node_of(alloc, line, ids)?)?;
    }
    Ok(items)
}

fn node_of(alloc: Global, line: &BlockLine, ids: &[VehicleId]) -> Result<Node, OutOfMemory>
    ensures { IfOk result (λ node. node ≡ node_of ids.now line.now) }
{
    match line {
        BlockLine::Branch((vehicle, row)) => Ok(Node::Branch {
            vehicle: number_among(ids, *vehicle),
            row: *row,
        }),
        BlockLine::Leaf(multipliers) => {
            let mut values = Vec::new(alloc);
            values.extend_from_slice(multipliers.as_slice())?;
            Ok(Node::Leaf {
                multipliers: Multipliers::of(values),
            })
        }
        _ => Ok(Node::Dead),
    }
}

/// The first place of an id among others, or their number.
fn number_among(ids: &[VehicleId], id: VehicleId) -> u32
    ensures { result ≡ number_among ids.now id }
{
    let place = place_among(ids, id).unwrap_or(ids.len());
    place.min(u32::MAX as usize) as u32
}

fn place_among(ids: &[VehicleId], id: VehicleId) -> Option<usize>
    ensures { result ≡ position (λ other. other == id) ids.now }
{
    ids.iter().position(|other| *other == id)
}

/// Stops, where there is room for all of them.
fn stops_kept<const N: usize>(stops: &[PlannedStop]) -> ArrayVec<PlannedStop, N>
    ensures { result.items ≡ at_most N stops.now }
{
    let mut kept = ArrayVec::new();
    if stops.len() <= N {
        kept.try_extend_from_slice(stops).unwrap();
    }
    kept
}

/// Riders, where there is room for all of them.
fn riders_kept(riders: &[RiderId]) -> ArrayVec<RiderId, 6>
    ensures { result.items ≡ at_most 6 riders.now }
{
    let mut kept = ArrayVec::new();
    if riders.len() <= 6 {
        kept.try_extend_from_slice(riders).unwrap();
    }
    kept
}

/// The ids of vehicles, in their order.
fn ids_of(alloc: Global, vehicles: &[Vehicle]) -> Result<Vec<VehicleId>, OutOfMemory>
    ensures { IfOk result (λ ids. ids.items ≡ map (λ v. v.id) vehicles.entry.now) }
{
    let ids = vehicles.iter().map(|vehicle| vehicle.id).collect(alloc)?;
    Ok(ids)
}
