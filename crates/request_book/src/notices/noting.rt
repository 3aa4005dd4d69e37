ghost use Rattle.std.specs.Prelude.{◌≡◌, ◌++◌, ◌∷◌, [], false, true, IfOk, OnOk, if◌then◌else◌};
ghost use Rattle.std.specs.Option.{option_map_or};
ghost use Rattle.request_book.specs.Consistent.{IsConsistent};
ghost use Rattle.request_book.specs.values.Rider.{is_active};
ghost use Rattle.request_book.specs.values.State.{find_rider};
ghost use Rattle.request_book.specs.declared.values.reply.Reply.TheVariants.{Closed};
ghost use Rattle.request_book.specs.work.register.Register.{state_of, IsIndexed};
ghost use Rattle.request_book.specs.notices.Notices.{notices, notices_from, entry_notices, batch_notices, notice_of, trip_notice, stop_second};

use crate::book::{Book, number_nodes};
use crate::notices::notice::Notice;
use crate::register::Register;
use crate::values::command::Command;
use crate::values::journal::{Entry, Journal};
use crate::values::outcome::{Answer, ChosenTrip, PlannedStop};
use crate::values::reply::Reply;
use crate::values::rider::is_active;
use crate::values::snapshot::Snapshot;
use pool_base::{Numbering, OutOfMemory, RiderId};
use road_network::Network;
use std::alloc::Global;

/// The notices of a journal over this network, where a rider waits for `wait` seconds at most.
///
/// For each batch that is closed with a plan, in order, each rider of its snapshot who waits or has a
/// promise as the close comes has one notice, by rising id: the pickup and the drop-off of the first
/// chosen trip that picks the rider up, or that no trip does. An overflow gives none.
pub fn notices_of(
    alloc: Global,
    journal: &Journal,
    network: &Network,
    wait: u32,
) -> Result<Vec<Notice>, OutOfMemory>
    requires { IsConsistent journal.now.base }
    ensures { IfOk result (λ told. told.items ≡ notices network.now.nodes wait journal.now) }
{
    let mut told = Vec::new(alloc);
    note_journal(alloc, &mut told, journal, network, wait)?;
    Ok(told)
}

/// The notices of a close, if the book takes it now; another command has none.
pub fn notices_of_close(
    alloc: Global,
    book: &Book,
    command: &Command,
) -> Result<Vec<Notice>, OutOfMemory>
    ensures { IfOk result (λ told. told.items ≡ entry_notices book.now.state command.now Closed) }
{
    let mut told = Vec::new(alloc);
    note_step(&mut told, &book.register, command, &Reply::Closed)?;
    Ok(told)
}

/// Notes what a journal tells: its commands are run again from the state that it begins with.
fn note_journal(
    alloc: Global,
    told: &mut Vec<Notice>,
    journal: &Journal,
    network: &Network,
    wait: u32,
) -> Result<(), OutOfMemory>
    requires { IsConsistent journal.now.base }
    ensures { OnOk result (told.new.items ≡ told.old.items ++ notices network.now.nodes wait journal.now) }
{
    let mut nodes = Numbering::new(alloc);
    number_nodes(&mut nodes, network)?;
    let mut register = Register::holding(alloc, &journal.base)?;
    let noted = note_entries(
        alloc,
        told,
        &mut register,
        &nodes,
        wait,
        journal.entries.as_slice(),
    );
    drop(register);
    noted
}

/// Notes what entries tell, as a register runs them from where it stands.
fn note_entries(
    alloc: Global,
    told: &mut Vec<Notice>,
    register: &mut Register,
    nodes: &Numbering,
    wait: u32,
    entries: &[Entry],
) -> Result<(), OutOfMemory>
    requires indexed { IsIndexed register.old }
    requires consistent { IsConsistent (state_of register.old) }
    ensures { OnOk result (told.new.items ≡ told.old.items ++ notices_from nodes.now.names wait (state_of register.old) entries.now) }
{
    for entry in entries {
        note_step(told, register, &entry.command, &entry.reply)?;
        register.reserve(1)?;
        register.run(alloc, nodes, wait, &entry.command)?;
    }
    Ok(())
}

/// Notes what a command that was answered so tells, in the state before it.
fn note_step(
    told: &mut Vec<Notice>,
    before: &Register,
    command: &Command,
    reply: &Reply,
) -> Result<(), OutOfMemory>
    requires { IsIndexed before.now }
    ensures { OnOk result (told.new.items ≡ told.old.items ++ entry_notices (state_of before.now) command.now reply.now) }
{
    match (command, reply) {
        (Command::Close { outcome, .. }, Reply::Closed) => match &before.sealed {
            Some(batch) => note_batch(told, before, batch, &outcome.answer),
            None => Ok(()),
        },
        _ => Ok(()),
    }
}

/// Notes what an answer tells the riders of its batch.
fn note_batch(
    told: &mut Vec<Notice>,
    before: &Register,
    batch: &Snapshot,
    answer: &Answer,
) -> Result<(), OutOfMemory>
    requires { IsIndexed before.now }
    ensures { OnOk result (told.new.items ≡ told.old.items ++ batch_notices (state_of before.now) batch.entry.now answer.now) }
{
    match answer {
        Answer::Overflow => Ok(()),
        Answer::Planned(plan) => {
            let chosen = plan.chosen.as_slice();
            for rider in batch.riders.as_slice() {
                note_rider(told, before, batch.batch, chosen, rider.id)?;
            }
            Ok(())
        }
    }
}

/// Notes the notice of a rider who waits or has a promise.
fn note_rider(
    told: &mut Vec<Notice>,
    before: &Register,
    batch: u64,
    chosen: &[ChosenTrip],
    rider: RiderId,
) -> Result<(), OutOfMemory>
    requires { IsIndexed before.now }
    ensures { OnOk result (told.new.items ≡ told.old.items ++ (if option_map_or (λ known. is_active known.status) (find_rider rider before.now.riders.items) false then notice_of batch chosen.now rider ∷ [] else [])) }
{
    if is_asking(before, rider) {
        told.push(notice_of(batch, chosen, rider))?;
    }
    Ok(())
}

/// Whether a rider waits or has a promise.
fn is_asking(register: &Register, rider: RiderId) -> bool
    requires { IsIndexed register.now }
    ensures { result ≡ option_map_or (λ known. is_active known.status) (find_rider rider register.now.riders.items) false }
{
    match register.rider(rider) {
        Some(known) => is_active(known.status),
        None => false,
    }
}

/// The notice of a rider: of the first trip that picks the rider up, if one does.
fn notice_of(batch: u64, chosen: &[ChosenTrip], rider: RiderId) -> Notice
    ensures { result ≡ notice_of batch chosen.now rider }
{
    for trip in chosen {
        if let Some(notice) = trip_notice(batch, trip, rider) {
            return notice;
        }
    }
    Notice::Unserved { batch, rider }
}

/// The notice of a trip to a rider, if it picks the rider up.
fn trip_notice(batch: u64, trip: &ChosenTrip, rider: RiderId) -> Option<Notice>
    ensures { result ≡ trip_notice batch trip.now rider }
{
    let stops = trip.stops.as_slice();
    let pickup = stop_second(true, rider, stops)?;
    let dropoff = stop_second(false, rider, stops).unwrap_or(pickup);
    Some(Notice::Promised {
        batch,
        rider,
        vehicle: trip.vehicle,
        pickup,
        dropoff,
    })
}

/// The second of the first stop that picks the rider up, or of the first that drops them.
fn stop_second(pick: bool, rider: RiderId, stops: &[PlannedStop]) -> Option<u64>
    ensures { result ≡ stop_second pick rider stops.now }
{
    for stop in stops {
        if stop.pick == pick && stop.rider == rider {
            return Some(stop.second);
        }
    }
    None
}
