//! The audit of a report.
ghost use Rattle.std.specs.Prelude.{◌≡◌, ◌≢◌, ◌≤◌, All, IfErr, IfOk, MatchResult, length};
ghost use Rattle.request_book.specs.Consistent.{IsNode};
ghost use Rattle.report_audit.specs.report.Fault.{HasFault};
ghost use Rattle.report_audit.specs.report.Report.{IsAudited, IsReportOfRun};
ghost use Rattle.report_audit.specs.declared.report.fault.AuditFault.{AuditFault as OneFault};
ghost use Rattle.report_audit.specs.declared.report.fault.AuditFault.TheVariants.{OutOfMemory as NoMemory};
ghost use Rattle.report_audit.specs.work.report.Standing.{IsGiven, IsOpened};
ghost use Rattle.report_audit.specs.lines.Head.{BeginsWithHead};

use crate::lines::head::read_head;
use crate::lines::next::NextLine;
use crate::report::context::AuditContext;
use crate::report::fault::{AuditFault, Audited, of_head};
use crate::report::line::{behind_line, nothing_behind};
use crate::report::round::audit_round;
use dispatch_engine::opened_book;
use input_rows::Script;
use request_book::{Book, Fleet};
use road_network::Network;
use shared_work::Gate;
use std::alloc::Global;
use std::thread::Threads;

/// Whether a text is the report of a run of this script, from an empty book with these vehicles, printed with its search
/// trees: how many entries and batches it has, or its first fault.
///
/// The settings are those that the text tells. It is judged against a book of its own, line by line, and each block by
/// `audit_block`, with `workers` threads that grow trip graphs; no plan is searched for. At most one round is kept.
/// At most one fault holds of a text, and none of a report. `OutOfMemory` may come for any text.
pub fn audit<G: Gate>(
    rt: &(impl Threads + Sync),
    alloc: Global,
    report: &[u8],
    network: &Network,
    fleet: &Fleet,
    script: &Script,
    workers: u8,
    gate: &G,
) -> Result<Audited, AuditFault>
    requires nodes { All (λ vehicle. IsNode network.now.nodes vehicle.node) fleet.now }
    requires some { 1 ≤ workers }
    requires few { workers ≤ 64 }
    ensures accepted { IfOk result (IsAudited network.entry.now fleet.entry.now script.entry.now workers report.entry.now) }
    ensures refused { IfErr result (λ fault. fault ≢ NoMemory → ¬ (IsReportOfRun network.entry.now fleet.entry.now script.entry.now workers report.entry.now)) }
    ensures fault { IfErr result (HasFault network.entry.now fleet.entry.now script.entry.now workers report.entry.now) }
    ensures sound { IfOk result (λ _. (other : OneFault) → other ≢ NoMemory → HasFault network.entry.now fleet.entry.now script.entry.now workers report.entry.now other → ⊥) }
    ensures only { IfErr result (λ fault. fault ≢ NoMemory → (other : OneFault) → other ≢ NoMemory → HasFault network.entry.now fleet.entry.now script.entry.now workers report.entry.now other → other ≡ fault) }
{
    fetch_bounds(network, fleet, script);
    let vehicles = fleet.vehicles().len() as u64;
    let (settings, rest) = match read_head(report, workers, network, vehicles) {
        Ok(head) => head,
        Err(fault) => return Err(of_head(fault)),
    };
    let context = AuditContext {
        alloc,
        report,
        network,
        settings: &settings,
        gate,
    };
    let (entries, batches) = audit_behind(rt, rest, fleet, script, &context)?;
    Ok(Audited { entries, batches })
}

/// The same of what follows the head: how many entries and batches there are.
fn audit_behind<G: Gate>(
    rt: &(impl Threads + Sync),
    text: &[u8],
    fleet: &Fleet,
    script: &Script,
    context: &AuditContext<'_, G>,
) -> Result<(u64, u64), AuditFault>
    requires nodes { All (λ vehicle. IsNode context.now.network.now.nodes vehicle.node) fleet.now }
    requires head { BeginsWithHead context.now.settings.now.workers context.now.network.now (length fleet.now) context.now.report.now context.now.settings.now text.now }
    ensures { MatchResult result (λ r. IsAudited context.entry.now.network.now fleet.entry.now script.entry.now context.entry.now.settings.now.workers context.entry.now.report.now (record { entries = r.0; batches = r.1 }))
        (HasFault context.entry.now.network.now fleet.entry.now script.entry.now context.entry.now.settings.now.workers context.entry.now.report.now) }
{
    let mut book = opened_book(context.alloc, context.network, fleet, context.settings.wait)?;
    book.keeps();
    let audited = audit_rounds(rt, &mut book, text, fleet, script, context);
    drop(book);
    audited
}

/// The same by the book that these vehicles open.
fn audit_rounds<G: Gate>(
    rt: &(impl Threads + Sync),
    book: &mut Book,
    text: &[u8],
    fleet: &Fleet,
    script: &Script,
    context: &AuditContext<'_, G>,
) -> Result<(u64, u64), AuditFault>
    requires opened { IsOpened context.now.settings.now context.now.network.now fleet.now book.old }
    requires head { BeginsWithHead context.now.settings.now.workers context.now.network.now (length fleet.now) context.now.report.now context.now.settings.now text.now }
    ensures { MatchResult result (λ r. IsAudited context.entry.now.network.now fleet.entry.now script.entry.now context.entry.now.settings.now.workers context.entry.now.report.now (record { entries = r.0; batches = r.1 }))
        (HasFault context.entry.now.network.now fleet.entry.now script.entry.now context.entry.now.settings.now.workers context.entry.now.report.now) }
{
    fleet.keeps();
    let mut rest = text;
    let mut batches = 0u64;
    let mut first = true;
    for round in script.rounds() {
        match audit_round(rt, book, round, rest, first, context) {
            Ok(read) => {
                rest = read.rest;
                batches = batches.saturating_add(read.batches);
                first = false;
            }
            Err(fault) => return Err(fault),
        }
    }
    let entries = book.next_position();
    let behind = behind_line(context.report, rest, NextLine::Done { entries }, first)?;
    nothing_behind(context.report, behind)?;
    Ok((entries, batches))
}

/// Calls for what the inputs keep alone: their counts and numbers are in range.
fn fetch_bounds(network: &Network, fleet: &Fleet, script: &Script)
    ensures { IsGiven network.now fleet.now script.now }
{
    let _sizes = (network.node_count(), network.arc_count());
    fleet.keeps();
    script.keeps();
}
