//! The items of a report: an entry's line, behind the line of its round where it begins.
ghost use Rattle.std.specs.Prelude.{◌≡◌, ◌<◌, ◌^◌, ◌++◌, ◌∷◌, ℕ, IfErr, IfOk, IfSome, List, MatchOption, None, codes, true};
ghost use Rattle.dispatch_report.specs.Words.{numbered};
ghost use Rattle.report_audit.specs.declared.lines.next.NextLine.TheVariants.{Round as RoundLine};
ghost use Rattle.report_audit.specs.lines.Cut.{is_one_line};
ghost use Rattle.report_audit.specs.lines.Next.{IsNextLine};
ghost use Rattle.report_past.specs.work.Left.{HasNoNextLine, IsItem, IsLeftNowhere};
ghost use Rattle.report_past.specs.work.Reading.{IsDropped, start_text};

use crate::fault::line_at;
use report_audit::{
    AuditFault, NextLine, a_line_between_blocks_has_no_feed, a_line_is_of_one_kind, line_first,
    read_next,
};

/// An entry of a report.
#[derive(Drop)]
pub(crate) struct Item<'a> {
    /// The number of the round that begins before it.
    pub(crate) round: Option<u32>,
    pub(crate) lane: u8,
    /// The rest of the report from its line on.
    pub(crate) at: &'a [u8],
    pub(crate) line: &'a [u8],
    pub(crate) after: &'a [u8],
}

/// The item with which the rest of a text begins; `None` where nothing is left but what is dropped.
pub(crate) fn item_first<'a>(text: &[u8], rest: &'a [u8]) -> Result<Option<Item<'a>>, AuditFault>
    ensures found { IfOk result (λ found. MatchOption found (IsDropped rest.entry.now) (λ item.
        (rest.entry.now ≡ start_text item.round ++ (item.line.now ++ 10 ∷ item.after.now)) × IsItem item.round item.lane item.line.now)) }
    ensures refused { IfErr result (λ _. IsLeftNowhere rest.entry.now) }
{
    a_line_is_of_one_kind();
    a_line_between_blocks_has_no_feed();
    let (round, at) = round_first(rest);
    if at.is_empty() {
        return Ok(None);
    }
    let next = next_line(text, at)?;
    match next.next {
        NextLine::Entry { lane } => Ok(Some(Item {
            round,
            lane,
            at,
            line: next.line,
            after: next.after,
        })),
        NextLine::Done { .. } => if next.after.is_empty() {
            Ok(None)
        } else {
            Err(AuditFault::Form {
                line: line_at(text, next.after),
            })
        },
        NextLine::Round { number: _number } => Err(AuditFault::Entry {
            line: line_at(text, at),
        }),
    }
}

/// The number of the round whose line comes first, and what follows it; or nothing, and the text.
fn round_first(text: &[u8]) -> (Option<u32>, &[u8])
    ensures start { text.now ≡ start_text result.0 ++ result.1.now }
    ensures low { IfSome result.0 (λ n. n < 2 ^ 32) }
    ensures none { result.0 ≡ None → (n : ℕ) (after : List ℕ) → n < 2 ^ 32 → text.now ≡ numbered (codes "round ") n ++ 10 ∷ after → ⊥ }
{
    a_line_between_blocks_has_no_feed();
    match line_first(text) {
        Some((line, after)) => match round_number(line) {
            Some(number) => (Some(number), after),
            None => (None, text),
        },
        None => (None, text),
    }
}

/// The number of the round whose line this is.
fn round_number(line: &[u8]) -> Option<u32>
    ensures { MatchOption result ((n : ℕ) → IsNextLine (RoundLine n) line.now → ⊥) (λ n. IsNextLine (RoundLine n) line.now) }
{
    a_line_is_of_one_kind();
    match read_next(line) {
        Some(NextLine::Round { number }) => Some(number),
        Some(NextLine::Done { entries: _ }) => None,
        Some(NextLine::Entry { lane: _ }) => None,
        None => None,
    }
}

/// A line that may stand between blocks.
#[derive(Drop)]
struct Line<'a> {
    next: NextLine,
    line: &'a [u8],
    after: &'a [u8],
}

/// The line with which the rest of a text begins, which has the form of one between blocks.
fn next_line<'a>(text: &[u8], rest: &'a [u8]) -> Result<Line<'a>, AuditFault>
    ensures first { IfOk result (λ r. (rest.entry.now ≡ r.line.now ++ 10 ∷ r.after.now) × (is_one_line r.line.now ≡ true) × IsNextLine r.next r.line.now) }
    ensures none { IfErr result (λ _. HasNoNextLine rest.entry.now) }
{
    let Some((line, after)) = line_first(rest) else {
        return Err(AuditFault::Cut {
            line: line_at(text, rest),
        });
    };
    match read_next(line) {
        Some(next) => Ok(Line { next, line, after }),
        None => Err(AuditFault::Form {
            line: line_at(text, rest),
        }),
    }
}
