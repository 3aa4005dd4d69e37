//! The command that the line of an entry tells.
ghost use Rattle.std.specs.Prelude.{◌≡◌, ◌≤◌, ◌++◌, ℕ, IfSome, MatchOption, Some, codes};
ghost use Rattle.dispatch_report.specs.Entry.{entry_line};
ghost use Rattle.dispatch_report.specs.Fits.{IsCommand, IsId};
ghost use Rattle.dispatch_report.specs.Words.{numbered, spaced};
ghost use Rattle.report_audit.specs.lines.Next.{IsEntry};
ghost use Rattle.report_audit.specs.lines.Reading.{BeginsWith, BeginsWithNone, BothAre, both_texts};
ghost use Rattle.report_audit.specs.work.lines.Entries.{party_text, spaced_reply, told_text};
ghost use Rattle.request_book.specs.declared.values.command.Command.TheVariants.{Submit};
ghost use Rattle.request_book.specs.declared.values.journal.Entry.{Entry};
ghost use Rattle.request_book.specs.declared.values.reply.Reply.{Reply};
ghost use Rattle.request_book.specs.values.Command.{IsNoClose};

use crate::lines::words::{
    ID_MOST, node, number_first, numbered_first, pair_first, rider, vehicle,
};
use pool_base::{Party, Second};
use request_book::Command;

/// The lane and the command of an entry's line, unless it is a close: that of each line that a book prints, and maybe one of
/// a line that none prints. The reply isn't read: whether the line is the one that a book prints is asked of the line, once
/// the book has answered the command.
pub fn read_command(line: &[u8]) -> Option<(u8, Command)>
    ensures no_close { IfSome result (λ told. IsNoClose told.1) }
    ensures exact { (position : ℕ) (e : Entry) → IsEntry position e → IsNoClose e.command → line.now ≡ entry_line position e → result ≡ Some (e.lane, e.command) }
{
    let (_, after) = number_first(line, u64::MAX)?;
    let (lane, told) = numbered_first(after, b" ", u8::MAX as u64)?;
    let command = command_first(told)?;
    Some((lane as u8, command))
}

/// The command with which a text begins.
fn command_first(text: &[u8]) -> Option<Command>
    ensures no_close { IfSome result IsNoClose }
    ensures exact { (command : Command) (reply : Reply) → IsCommand command → IsNoClose command → text.now ≡ told_text (command, reply) → result ≡ Some command }
{
    if let Some((told, _)) = numbered_first(text, b" cancel ", ID_MOST) {
        return Some(Command::Cancel { rider: rider(told) });
    }
    if let Some((told, _)) = numbered_first(text, b" seal ", ID_MOST) {
        return Some(Command::Seal { now: second(told) });
    }
    if let Some(((ids, time), _)) = three_first(text, b" report ") {
        return Some(Command::Report {
            vehicle: vehicle(ids.0),
            node: node(ids.1),
            time: second(time),
        });
    }
    if let Some(((ids, time), _)) = three_first(text, b" pickup ") {
        return Some(Command::Pickup {
            vehicle: vehicle(ids.0),
            rider: rider(ids.1),
            time: second(time),
        });
    }
    if let Some(((ids, time), _)) = three_first(text, b" dropoff ") {
        return Some(Command::Dropoff {
            vehicle: vehicle(ids.0),
            rider: rider(ids.1),
            time: second(time),
        });
    }
    submit_first(text)
}

/// The three numbers behind words, of a vehicle's command.
fn three_first<'a>(text: &'a [u8], words: &[u8]) -> Option<(((u64, u64), u64), &'a [u8])>
    ensures { MatchOption result
        (BeginsWithNone (both_texts (both_texts (numbered words.now) spaced) spaced) (BothAre (BothAre IsId IsId) IsId) text.now)
        (λ r. BeginsWith (both_texts (both_texts (numbered words.now) spaced) spaced) (BothAre (BothAre IsId IsId) IsId) text.now r.0 r.1.now) }
{
    let (ids, after) = pair_first(text, words, ID_MOST, ID_MOST)?;
    let (time, rest) = numbered_first(after, b" ", ID_MOST)?;
    Some(((ids, time), rest))
}

/// A request, of one person where no party is told.
fn submit_first(text: &[u8]) -> Option<Command>
    ensures no_close { IfSome result IsNoClose }
    ensures exact { (rider origin destination time party : ℕ) (reply : Reply) → IsCommand (Submit rider origin destination time party)
        → text.now ≡ told_text (Submit rider origin destination time party, reply) → result ≡ Some (Submit rider origin destination time party) }
{
    let ((ids, (destination, time)), rest) = four_first(text)?;
    Some(Command::Submit {
        rider: rider(ids.0),
        origin: node(ids.1),
        destination: node(destination),
        time: second(time),
        party: party_first(rest),
    })
}

/// The four numbers that each request has.
fn four_first(text: &[u8]) -> Option<(((u64, u64), (u64, u64)), &[u8])>
    ensures { MatchOption result
        (BeginsWithNone (both_texts (both_texts (numbered (codes " submit ")) spaced) (both_texts spaced spaced)) (BothAre (BothAre IsId IsId) (BothAre IsId IsId)) text.now)
        (λ r. BeginsWith (both_texts (both_texts (numbered (codes " submit ")) spaced) (both_texts spaced spaced)) (BothAre (BothAre IsId IsId) (BothAre IsId IsId)) text.now r.0 r.1.now) }
{
    let (ids, after) = pair_first(text, b" submit ", ID_MOST, ID_MOST)?;
    let (next, rest) = pair_first(after, b" ", ID_MOST, ID_MOST)?;
    Some(((ids, next), rest))
}

/// The party that a request tells behind its numbers.
fn party_first(text: &[u8]) -> Party
    ensures { (party : ℕ) (reply : Reply) → 1 ≤ party → party ≤ 6 → text.now ≡ party_text party ++ spaced_reply reply → result ≡ party }
{
    match numbered_first(text, b" ", 6) {
        Some((persons, _)) => Party::new(persons).unwrap_or(Party::ONE),
        None => Party::ONE,
    }
}

fn second(n: u64) -> Second
    requires { n ≤ 1000000000 }
    ensures { result ≡ n }
{
    Second::new(n).unwrap_or_default()
}
