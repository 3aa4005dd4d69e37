//! The rounds of a day, held until it is driven to its end.
ghost use Rattle.std.specs.Prelude.{◌≡◌, ◌≤◌, [], false, length, map, Bool, IfOk, List, MatchResult};
ghost use Rattle.dispatch_engine.specs.lanes.Run.{position_after_run};
ghost use Rattle.pool_io.specs.Views.{sink_seen};
ghost use Rattle.dispatch_report.specs.Written.{WritesText};
ghost use Rattle.request_book.specs.Consistent.{IsConsistent};
ghost use Rattle.rider_limits.specs.declared.settings.Settings.{Settings as SettingsValue};
ghost use Rattle.request_book.specs.notices.Seen.{notifier_seen};
ghost use Rattle.road_network.specs.Roads.{Roads};
ghost use Rattle.route_drive.specs.declared.day_run.DayRound.{DayRound as RoundValue};
ghost use Rattle.ridepool.specs.Report.{journals_of};
ghost use Rattle.ridepool.specs.work.Held.{HoldsRound, HoldsRounds};
ghost use Rattle.ridepool.specs.work.Writing.{HasPut, IsUnput, PutsRound, StopsIn, added_by};

use crate::status::RunStatus;
use crate::writing::{status_of, write_added};
use dispatch_report::ReportFault;
use pool_base::OutOfMemory;
use pool_io::{MemorySink, Sink, write_all};
use request_book::{Notice, Notifier, notices_of, tell_all};
use rider_limits::Settings;
use road_network::Network;
use route_drive::{DayRound, RoundKeeper};
use std::alloc::Global;

/// What a round adds to the report, what its riders are told, and how many entries it has.
#[derive(Drop)]
pub struct HeldRound {
    pub text: Vec<u8>,
    pub notices: Vec<Notice>,
    pub entries: u64,
}

/// The rounds of a day as they will be written. Each is a text, which takes less memory than its journal.
#[derive(Drop)]
pub struct HeldDay<'a> {
    pub settings: &'a Settings,
    pub network: &'a Network,
    /// Whether there is anybody to be told notices.
    pub told: bool,
    pub rounds: Vec<HeldRound>,
}

impl<'a> HeldDay<'a> {
    /// A day before its first round.
    pub(crate) fn empty(
        alloc: Global,
        settings: &'a Settings,
        network: &'a Network,
        told: bool,
    ) -> HeldDay<'a>
        ensures settings { result.settings.now ≡ settings.now }
        ensures network { result.network.now ≡ network.now }
        ensures told { result.told ≡ told }
        ensures rounds { result.rounds.items ≡ [] }
    {
        HeldDay {
            settings,
            network,
            told,
            rounds: Vec::new(alloc),
        }
    }
}

impl RoundKeeper for HeldDay<'_> {
    ghost use Rattle.std.specs.Prelude.{◌≡◌};
    ghost use Rattle.ridepool.specs.work.Held.{HoldsRounds};

    ghost took = { λ first now made. (now.settings.now ≡ first.settings.now) × (now.network.now ≡ first.network.now) × (now.told ≡ first.told)
        × HoldsRounds now.settings.now now.network.now now.told made now.rounds.items };

    fn keep(&mut self, alloc: Global, round: DayRound) -> Result<(), OutOfMemory> {
        let held = held_round(alloc, self.settings, self.network, self.told, &round);
        drop(round);
        self.rounds.push(held?)?;
        Ok(())
    }
}

/// What is held of a round.
fn held_round(
    alloc: Global,
    settings: &Settings,
    network: &Network,
    told: bool,
    round: &DayRound,
) -> Result<HeldRound, OutOfMemory>
    requires { IsConsistent round.now.journal.base }
    ensures { IfOk result (HoldsRound settings.now network.now told round.now) }
{
    let notices = if told {
        notices_of(alloc, &round.journal, network, settings.wait)?
    } else {
        Vec::new(alloc)
    };
    let text = text_of(alloc, settings, round)?;
    Ok(HeldRound {
        text,
        notices,
        entries: round.journal.entries.len() as u64,
    })
}

/// The text of a round, in as much memory as it has bytes.
fn text_of(alloc: Global, settings: &Settings, round: &DayRound) -> Result<Vec<u8>, OutOfMemory>
    ensures { IfOk result (λ text. text.items ≡ added_by settings.now round.now) }
{
    let mut sink = MemorySink::new(alloc, usize::MAX, Vec::new(alloc));
    match write_added(alloc, &mut sink, settings, round) {
        Ok(()) => copied(alloc, sink.written()),
        Err(_) => Err(OutOfMemory),
    }
}

fn copied(alloc: Global, bytes: &[u8]) -> Result<Vec<u8>, OutOfMemory>
    ensures { IfOk result (λ copy. copy.items ≡ bytes.now) }
{
    let mut copy = Vec::with_capacity(alloc, bytes.len())?;
    copy.extend_from_slice(bytes)?;
    Ok(copy)
}

/// Writes rounds of a day, each with its notices told, and gives the position behind their entries.
pub(crate) fn write_held<K: Sink>(
    out: &mut K,
    rounds: &[HeldRound],
    notifiers: &mut Vec<Box<dyn Notifier>>,
) -> Result<u64, RunStatus>
    ensures rounds { (settings : SettingsValue) (roads : Roads) (told : Bool) (made : List RoundValue) → HoldsRounds settings roads told made rounds.now → (told ≡ false → length notifiers.old.items ≡ 0) →
        let all = map (λ n. notifier_seen (⟦<dyn Notifier as Notifier>⟧ n.vtable) n.value) notifiers.old.items in
        let left = map (λ n. notifier_seen (⟦<dyn Notifier as Notifier>⟧ n.vtable) n.value) notifiers.new.items in
        MatchResult result
        (λ position. HasPut settings roads made (K.written out.old) (K.written out.new) all left × (position ≡ position_after_run 0 (journals_of made)))
        (StopsIn settings roads made (K.written out.old) (K.written out.new) all left (K.faults out.old) (K.faults out.new)) }
    ensures never_falls { K.faults out.old ≤ K.faults out.new }
{
    let mut position = 0u64;
    for round in rounds {
        put_held(out, round, notifiers)?;
        position = position.saturating_add(round.entries);
    }
    Ok(position)
}

/// Writes what a round adds, and tells its notices.
fn put_held<K: Sink>(
    out: &mut K,
    round: &HeldRound,
    notifiers: &mut Vec<Box<dyn Notifier>>,
) -> Result<(), RunStatus>
    ensures round { (settings : SettingsValue) (roads : Roads) (told : Bool) (made : RoundValue) → HoldsRound settings roads told made round.now → (told ≡ false → length notifiers.old.items ≡ 0) →
        let all = map (λ n. notifier_seen (⟦<dyn Notifier as Notifier>⟧ n.vtable) n.value) notifiers.old.items in
        let left = map (λ n. notifier_seen (⟦<dyn Notifier as Notifier>⟧ n.vtable) n.value) notifiers.new.items in
        MatchResult result
        (λ _. PutsRound settings roads made (K.written out.old) (K.written out.new) all left)
        (IsUnput settings roads made (K.written out.old) (K.written out.new) all left (K.faults out.old) (K.faults out.new)) }
    ensures fewer { length notifiers.new.items ≤ length notifiers.old.items }
    ensures never_falls { K.faults out.old ≤ K.faults out.new }
{
    match write_bytes(out, round.text.as_slice()) {
        Ok(()) => {
            tell_all(notifiers, &round.notices);
            Ok(())
        }
        Err(fault) => Err(status_of(fault)),
    }
}

/// Writes bytes.
fn write_bytes<K: Sink>(out: &mut K, bytes: &[u8]) -> Result<(), ReportFault>
    ensures { WritesText (sink_seen K.written K.faults out.old out.new) bytes.now result }
{
    write_all(out, bytes)?;
    Ok(())
}
