ghost use Rattle.std.specs.Prelude.{ℕ, ◌<◌, MatchOption, ◌↔◌, map, IsTrue};
ghost use Rattle.report_audit.specs.lines.Next.{IsNextLine};
ghost use Rattle.report_audit.specs.declared.lines.next.NextLine.TheVariants.{Entry as EntryOf};
ghost use Rattle.report_audit.specs.work.lines.Entries.{IsToldByAny, IsToldBy, fields_of, IsAnyReply, replies};

use crate::lines::words::{ID_MOST, is_words, number_first, numbered_first, read_numbered};

/// What a line between blocks is.
#[derive(Clone, Copy, PartialEq, Eq)]
pub enum NextLine {
    /// A round begins.
    Round { number: u32 },
    /// The report is at its end, after so many entries.
    Done { entries: u64 },
    /// A lane's command and the reply to it.
    Entry { lane: u8 },
}

/// What a line is; `None` where it is none of these in form.
#[tactic(auto, using(crate::proofs::lemmas::lines::NextLemmas::no_line))]
pub fn read_next(line: &[u8]) -> Option<NextLine>
    ensures { MatchOption result ((x : NextLine) → IsNextLine x line.now → ⊥) (λ x. IsNextLine x line.now) }
{
    if let Some(number) = read_numbered(line, b"round ", u32::MAX as u64) {
        return Some(NextLine::Round {
            number: number as u32,
        });
    }
    if let Some(entries) = read_numbered(line, b"done ", u64::MAX) {
        return Some(NextLine::Done { entries });
    }
    let lane = read_entry(line)?;
    Some(NextLine::Entry { lane })
}

/// A number of a line: the words before it, and the least and the most that it may be.
type Field = (&'static [u8], u64, u64);

/// An id or a second behind a space.
const ID: Field = (b" ", 0, ID_MOST);

/// The numbers of a command of each kind; of a request with one person and with more.
const COMMANDS: [&[Field]; 8] = [
    &[(b" submit ", 0, ID_MOST), ID, ID, ID],
    &[(b" submit ", 0, ID_MOST), ID, ID, ID, (b" ", 2, 6)],
    &[(b" cancel ", 0, ID_MOST)],
    &[(b" report ", 0, ID_MOST), ID, ID],
    &[(b" pickup ", 0, ID_MOST), ID, ID],
    &[(b" dropoff ", 0, ID_MOST), ID, ID],
    &[(b" seal ", 0, ID_MOST)],
    &[(b" close ", 0, u64::MAX)],
];

/// The words of each reply, behind a space, and the most that the number behind them may be.
const REPLIES: [(&[u8], Option<u64>); 27] = [
    (b" sealed ", Some(u64::MAX)),
    (b" refused is-aboard ", Some(ID_MOST)),
    (b" refused time-back ", Some(ID_MOST)),
    (b" refused not-promised ", Some(ID_MOST)),
    (b" refused batch-open ", Some(u64::MAX)),
    (b" refused clock-back ", Some(ID_MOST)),
    (b" refused not-this-batch ", Some(u64::MAX)),
    (b" accepted", None),
    (b" cancelled", None),
    (b" placed", None),
    (b" picked", None),
    (b" dropped", None),
    (b" closed", None),
    (b" refused duplicate-rider", None),
    (b" refused unknown-node", None),
    (b" refused same-place", None),
    (b" refused pool-full", None),
    (b" refused book-full", None),
    (b" refused unknown-rider", None),
    (b" refused unknown-vehicle", None),
    (b" refused vehicle-full", None),
    (b" refused not-aboard", None),
    (b" refused not-promised none", None),
    (b" refused not-this-batch none", None),
    (b" refused ended cancelled", None),
    (b" refused ended delivered", None),
    (b" refused ended expired", None),
];

/// The lane of an entry's line: position, lane, command and reply, apart by spaces.
fn read_entry(line: &[u8]) -> Option<u8>
    ensures { MatchOption result ((lane : ℕ) → IsNextLine (EntryOf lane) line.now → ⊥) (λ lane. IsNextLine (EntryOf lane) line.now) }
{
    let (_, after) = number_first(line, u64::MAX)?;
    let (lane, told) = numbered_first(after, b" ", u8::MAX as u64)?;
    if is_told_by_any(told, &COMMANDS) {
        Some(lane as u8)
    } else {
        None
    }
}

/// Whether a text is the numbers of one of these kinds, and a reply.
fn is_told_by_any(text: &[u8], kinds: &[&[Field]]) -> bool
    ensures { IsTrue result ↔ IsToldByAny (map (λ k. fields_of k.now) kinds.now) text.now }
{
    match kinds.split_first() {
        Some((kind, others)) => is_told_by(text, kind) || is_told_by_any(text, others),
        None => false,
    }
}

/// Whether a text is these numbers, each behind its words, and a reply.
fn is_told_by(text: &[u8], fields: &[Field]) -> bool
    ensures { IsTrue result ↔ IsToldBy (fields_of fields.now) text.now }
{
    let Some(((words, least, most), others)) = fields.split_first() else {
        return is_reply(text);
    };
    let Some((n, after)) = numbered_first(text, words, *most) else {
        return false;
    };
    if n < *least {
        return false;
    }
    is_told_by(after, others)
}

/// Whether a text is a reply behind a space.
fn is_reply(text: &[u8]) -> bool
    ensures { IsTrue result ↔ IsAnyReply replies text.now }
{
    is_reply_of_any(text, &REPLIES)
}

/// Whether a text is a reply of one of these kinds.
fn is_reply_of_any(text: &[u8], kinds: &[(&[u8], Option<u64>)]) -> bool
    ensures { IsTrue result ↔ IsAnyReply (map (λ k. (k.0.now, k.1)) kinds.now) text.now }
{
    match kinds.split_first() {
        Some(((words, Some(most)), others)) => {
            read_numbered(text, words, *most).is_some() || is_reply_of_any(text, others)
        }
        Some(((words, None), others)) => is_words(text, words) || is_reply_of_any(text, others),
        None => false,
    }
}
