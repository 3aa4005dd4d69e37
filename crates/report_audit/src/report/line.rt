//! The line with which the rest of a report begins.
ghost use Rattle.std.specs.Prelude.{◌≡◌, ◌∷◌, ◌↔◌, ◌==◌, ◌≤◌, [], ℕ, List, IfOk, IsTrue, MatchResult, OnOk, count_by, length};
ghost use Rattle.dispatch_report.specs.Entry.{entry_line};
ghost use Rattle.dispatch_report.specs.Fits.{IsCommand, IsReply, TellsEnd};
ghost use Rattle.report_audit.specs.report.Fault.{IsWrongLine};
ghost use Rattle.report_audit.specs.report.Place.{Extent};
ghost use Rattle.report_audit.specs.work.report.Standing.{IsFaultAt, IsOpen, OnlyFollows, line_left};
ghost use Rattle.report_audit.specs.lines.Line.{IsFirstLine};
ghost use Rattle.report_audit.specs.lines.Next.{IsNextLine};
ghost use Rattle.rider_limits.specs.declared.settings.Settings.{Settings};
ghost use Rattle.road_network.specs.Roads.{Roads};
ghost use Rattle.input_rows.specs.script.Round.{NumberedLanes};

use crate::lines::next::{NextLine, read_next};
use crate::lines::words::line_first;
use crate::report::fault::AuditFault;
use dispatch_report::put_entry;
use pool_base::OutOfMemory;
use request_book::Entry;
use std::alloc::Global;

/// A line that may stand between blocks.
#[derive(Drop)]
pub(crate) struct Between<'a> {
    pub(crate) next: NextLine,
    pub(crate) line: &'a [u8],
    pub(crate) after: &'a [u8],
}

/// The line with which the rest of a report begins, which has the form of one between blocks.
pub(crate) fn line_between<'a>(report: &[u8], rest: &'a [u8]) -> Result<Between<'a>, AuditFault>
    ensures { MatchResult result (λ r. IsFirstLine rest.entry.now r.line.now r.after.now × IsNextLine r.next r.line.now)
        (λ fault. (settings : Settings) (roads : Roads) (place : Extent) → IsOpen place → IsFaultAt settings roads report.entry.now place rest.entry.now fault) }
{
    let Some((line, after)) = line_first(rest) else {
        return Err(AuditFault::Cut {
            line: line_at(report, rest),
        });
    };
    match read_next(line) {
        Some(next) => Ok(Between { next, line, after }),
        None => Err(AuditFault::Form {
            line: line_at(report, rest),
        }),
    }
}

/// What follows the line of a round or of the end, with which the rest of a report begins. Before the first round the line
/// of an entry isn't in form.
pub(crate) fn behind_line<'a>(
    report: &[u8],
    rest: &'a [u8],
    expected: NextLine,
    first: bool,
) -> Result<&'a [u8], AuditFault>
    ensures { MatchResult result (λ after. (line : List ℕ) × IsFirstLine rest.entry.now line after.now × IsNextLine expected line)
        (λ fault. (settings : Settings) (roads : Roads) (before later : List NumberedLanes) (position : ℕ) → IsTrue first ↔ (before ≡ []) → OnlyFollows expected later position
        → IsFaultAt settings roads report.entry.now (Extent.between before later position) rest.entry.now fault) }
{
    let between = line_between(report, rest)?;
    if between.next == expected {
        return Ok(between.after);
    }
    match between.next {
        NextLine::Entry { .. } => if first {
            Err(AuditFault::Form {
                line: line_at(report, rest),
            })
        } else {
            Err(wrong_line(report, rest))
        },
        _ => Err(wrong_line(report, rest)),
    }
}

/// That nothing follows the last line.
pub(crate) fn nothing_behind(report: &[u8], rest: &[u8]) -> Result<(), AuditFault>
    ensures { MatchResult result (λ _. rest.now ≡ []) (λ fault. (settings : Settings) (roads : Roads) → IsFaultAt settings roads report.now Extent.finished rest.now fault) }
{
    if rest.is_empty() {
        return Ok(());
    }
    let line = line_at(report, rest);
    match line_first(rest) {
        Some(_line) => Err(AuditFault::Form { line }),
        None => Err(AuditFault::Cut { line }),
    }
}

/// The line is in form, but not one with which a run goes on.
pub(crate) fn wrong_line(report: &[u8], rest: &[u8]) -> AuditFault
    ensures { (settings : Settings) (roads : Roads) (place : Extent) → IsWrongLine settings roads place rest.now → IsFaultAt settings roads report.now place rest.now result }
{
    AuditFault::Entry {
        line: line_at(report, rest),
    }
}

/// The number of the line with which the rest of a report begins.
pub(crate) fn line_at(report: &[u8], rest: &[u8]) -> u64
    ensures { result ≡ line_left report.now rest.now }
{
    feeds(&report[..report.len().saturating_sub(rest.len())]) + 1
}

/// How many line feeds a text has.
fn feeds(text: &[u8]) -> u64
    ensures count { result ≡ count_by (λ c. c == 10) text.now }
    ensures few { result ≤ length text.now }
{
    let mut count = 0;
    for byte in text {
        if *byte == b'\n' {
            count += 1;
        }
    }
    count
}

/// Whether this is the line of an entry at its position.
pub fn is_entry_line(
    alloc: Global,
    line: &[u8],
    position: u64,
    entry: &Entry,
) -> Result<bool, OutOfMemory>
    ensures line { IfOk result (λ yes. IsTrue yes ↔ (line.now ≡ entry_line position entry.now)) }
    ensures command { OnOk result (IsCommand entry.now.command) }
    ensures reply { OnOk result (TellsEnd entry.now.reply → IsReply entry.now.reply) }
{
    let mut expected = Vec::new(alloc);
    put_entry(&mut expected, position, entry)?;
    Ok(is_same(line, &expected))
}

fn is_same(line: &[u8], expected: &[u8]) -> bool
    ensures { IsTrue result ↔ (line.now ≡ expected.now) }
{
    line == expected
}
