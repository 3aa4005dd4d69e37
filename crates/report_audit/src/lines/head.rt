ghost use Rattle.std.specs.Prelude.{◌≡◌, ℕ, ◌≤◌, List, [], ◌∷◌, drop, IfOk, IfErr, MatchResult, ◌<◌, ◌^◌, true};
ghost use Rattle.report_audit.specs.lines.HeadFault.{HeadFails, LinesFail, head_lines, sizes_of, HeadLine};
ghost use Rattle.report_audit.specs.lines.Head.{BeginsWithHead};
ghost use Rattle.report_audit.specs.lines.HeadLines.{AreSizes, settings_text, AreSettings, sizes_text};
ghost use Rattle.report_audit.specs.work.lines.Head.{HasHead, HasLines, LinesThen, fleet_line, sizes_lines, dwell_text, IsShortNumber, told_of};
ghost use Rattle.rider_limits.specs.declared.settings.Settings.{Settings};
ghost use Rattle.report_audit.specs.lines.Reading.{IsReadAs};
ghost use Rattle.report_audit.specs.lines.Settings.{AreSettingsOf, AreLawful};

use crate::lines::head_fault::HeadFault;
use crate::lines::words::{is_words, line_first, numbered_first, read_numbered};
use rider_limits::{Mode, Settings, TimesWay};
use road_network::Network;

/// The settings of a run that the head of its report tells, and what follows the head. A head tells neither the number
/// of workers, which is the caller's, nor how a batch comes by its travel times, which is by searches.
///
/// The lines are judged in their order, and the first fault is given.
pub fn read_head<'a>(
    text: &'a [u8],
    workers: u8,
    network: &Network,
    vehicles: u64,
) -> Result<(Settings, &'a [u8]), HeadFault>
    requires some { 1 ≤ workers }
    requires few { workers ≤ 64 }
    ensures read { IfOk result (λ r. BeginsWithHead workers network.now vehicles text.now r.0 r.1.now) }
    ensures only { IfOk result (λ r. (s : Settings) (rest : List ℕ) → BeginsWithHead workers network.now vehicles text.now s rest → (s ≡ r.0) × (rest ≡ r.1.now)) }
    ensures none { IfErr result (λ _. (s : Settings) (rest : List ℕ) → BeginsWithHead workers network.now vehicles text.now s rest → ⊥) }
    ensures fault { IfErr result (λ fault. HeadFails network.now vehicles text.now fault) }
{
    let (nodes, arcs) = sizes_of(network);
    match head_behind(text, nodes, arcs, vehicles) {
        Ok((told, rest)) => Ok((settings_of(&told, workers), rest)),
        Err(fault) => Err(fault),
    }
}

/// The numbers of the settings that a head tells, and what follows the head.
fn head_behind(
    text: &[u8],
    nodes: u64,
    arcs: u64,
    vehicles: u64,
) -> Result<(SettingsText, &[u8]), HeadFault>
    ensures { MatchResult result (λ r. HasHead r.0 (nodes, arcs) vehicles text.now r.1.now) (LinesFail (head_lines (nodes, arcs) vehicles) 1 text.now) }
{
    let Some((line, rest)) = line_first(text) else {
        return Err(HeadFault::Cut { line: 1 });
    };
    if !is_words(line, b"ridepool report 1") {
        return Err(HeadFault::Form { line: 1 });
    }
    settings_behind(rest, nodes, arcs, vehicles)
}

/// The numbers of the settings, and what follows the lines of settings, network and fleet.
fn settings_behind(
    text: &[u8],
    nodes: u64,
    arcs: u64,
    vehicles: u64,
) -> Result<(SettingsText, &[u8]), HeadFault>
    ensures { MatchResult result (λ r. HasLines (settings_text r.0 ∷ sizes_lines (nodes, arcs) vehicles) r.0 text.now r.1.now) (LinesFail (drop 1 (head_lines (nodes, arcs) vehicles)) 2 text.now) }
{
    let Some((line, rest)) = line_first(text) else {
        return Err(HeadFault::Cut { line: 2 });
    };
    let Some(told) = read_settings(line) else {
        return Err(HeadFault::Form { line: 2 });
    };
    if !is_lawful(&told) {
        return Err(HeadFault::Head { line: 2 });
    }
    match sizes_behind(rest, nodes, arcs, vehicles) {
        Ok(end) => Ok((told, end)),
        Err(fault) => Err(fault),
    }
}

/// What follows the lines of a network of these sizes and of the number of vehicles.
fn sizes_behind(text: &[u8], nodes: u64, arcs: u64, vehicles: u64) -> Result<&[u8], HeadFault>
    ensures { MatchResult result
        (λ rest. LinesThen (sizes_lines (nodes, arcs) vehicles) text.now rest.now)
        (LinesFail (drop 2 (head_lines (nodes, arcs) vehicles)) 3 text.now) }
{
    let Some((line, rest)) = line_first(text) else {
        return Err(HeadFault::Cut { line: 3 });
    };
    let Some(told) = read_sizes(line) else {
        return Err(HeadFault::Form { line: 3 });
    };
    if told != (nodes, arcs) {
        return Err(HeadFault::Head { line: 3 });
    }
    fleet_behind(rest, vehicles)
}

/// What follows the line of the number of vehicles.
fn fleet_behind(text: &[u8], vehicles: u64) -> Result<&[u8], HeadFault>
    ensures { MatchResult result (λ rest. LinesThen (fleet_line vehicles ∷ []) text.now rest.now) (LinesFail (HeadLine.fleet vehicles ∷ []) 4 text.now) }
{
    let Some((line, rest)) = line_first(text) else {
        return Err(HeadFault::Cut { line: 4 });
    };
    let Some(told) = read_numbered(line, b"fleet vehicles=", u64::MAX) else {
        return Err(HeadFault::Form { line: 4 });
    };
    if told == vehicles {
        Ok(rest)
    } else {
        Err(HeadFault::Head { line: 4 })
    }
}

/// How many nodes and arcs a network has.
fn sizes_of(network: &Network) -> (u64, u64)
    ensures sizes { result ≡ sizes_of network.now }
    ensures few { AreSizes (sizes_of network.now) }
{
    (network.node_count() as u64, network.arc_count() as u64)
}

/// The numbers of a report's line of settings, whether they are in their ranges or not.
#[derive(Clone, Copy)]
pub struct SettingsText {
    pub wait: u64,
    pub delay: u64,
    pub trip: u64,
    pub penalty: u64,
    pub budget: u64,
    pub pairs: u64,
    pub proof: u64,
    /// 0 where none is told.
    pub dwell: u64,
}

/// The settings of a line, each a number below 2^32.
pub fn read_settings(line: &[u8]) -> Option<SettingsText>
    ensures { IsReadAs settings_text AreSettings line.now result }
{
    let (wait, after_wait) = numbered_first(line, b"settings wait=", MOST)?;
    let (delay, after_delay) = numbered_first(after_wait, b" delay=", MOST)?;
    let (trip, after_trip) = numbered_first(after_delay, b" trip=", MOST)?;
    let (penalty, after_penalty) = numbered_first(after_trip, b" penalty=", MOST)?;
    let (budget, after_budget) = numbered_first(after_penalty, b" budget=", MOST)?;
    let (pairs, after_pairs) = numbered_first(after_budget, b" pairs=", MOST)?;
    let (proof, rest) = numbered_first(after_pairs, b" proof=", MOST)?;
    let dwell = read_dwell(rest)?;
    Some(SettingsText {
        wait,
        delay,
        trip,
        penalty,
        budget,
        pairs,
        proof,
        dwell,
    })
}

/// The numbers of nodes and arcs that the line of the network tells.
pub fn read_sizes(line: &[u8]) -> Option<(u64, u64)>
    ensures { IsReadAs sizes_text AreSizes line.now result }
{
    let (nodes, after) = numbered_first(line, b"network nodes=", u64::MAX)?;
    let arcs = read_numbered(after, b" arcs=", u64::MAX)?;
    Some((nodes, arcs))
}

/// The greatest number of a line of settings.
const MOST: u64 = u32::MAX as u64;

/// The dwell, where one is told.
#[tactic(auto, using(crate::proofs::lemmas::lines::HeadLemmas::dwell_not_zero))]
fn read_dwell(text: &[u8]) -> Option<u64>
    ensures { IsReadAs dwell_text IsShortNumber text.now result }
{
    if text.is_empty() {
        return Some(0);
    }
    match read_numbered(text, b" dwell=", MOST) {
        Some(0) => None,
        told => told,
    }
}

/// Whether numbers are those of a run's settings, with the search trees printed.
fn is_lawful(told: &SettingsText) -> bool
    ensures right { result ≡ true → AreLawful told.now }
    ensures whole { AreLawful told.now → result ≡ true }
{
    told.wait <= 7200
        && told.delay <= 7200
        && 1 <= told.trip
        && told.trip <= 6
        && told.penalty <= 1_000_000_000
        && 1 <= told.budget
        && told.budget <= 50_000
        && 1 <= told.pairs
        && told.pairs <= 2_000_000
        && told.proof == 1
        && told.dwell <= 600
}

/// The settings of these numbers, for so many workers.
fn settings_of(told: &SettingsText, workers: u8) -> Settings
    requires lawful { AreLawful told.now }
    requires some { 1 ≤ workers }
    requires few { workers ≤ 64 }
    ensures settings { AreSettingsOf workers result }
    ensures numbers { told_of result ≡ told.now }
{
    Settings {
        mode: Mode::Run,
        wait: told.wait as u32,
        delay: told.delay as u32,
        trip: told.trip as u8,
        penalty: told.penalty as u32,
        budget: told.budget as u32,
        pairs: told.pairs as u32,
        workers,
        proof: true,
        dwell: told.dwell as u16,
        times: TimesWay::Rows,
    }
}
