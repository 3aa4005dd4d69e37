ghost use Rattle.std.specs.Prelude.{◌≡◌, ◌++◌, ℕ, Option, OnOk, codes};
ghost use Rattle.dispatch_report.specs.Entry.{refusal_text, reply_text};
ghost use Rattle.dispatch_report.specs.Fits.{IsRefusal, IsReply, TellsEnd};
ghost use Rattle.dispatch_report.specs.lemmas.Named.{spaced_or_none};
ghost use Rattle.dispatch_report.specs.work.Named.{ended_words, refusal_words, reply_words, told_number};
ghost use Rattle.request_book.specs.declared.values.reply.Reply.TheVariants.{Refused};

use crate::words::put_spaced;
use pool_base::{OutOfMemory, put_bytes};
use request_book::{BookRefusal, Reply, Status};

/// Appends a space and the words of a reply.
pub(crate) fn put_reply(line: &mut Vec<u8>, reply: &Reply) -> Result<(), OutOfMemory>
    ensures printed { OnOk result (line.new.items ≡ line.old.items ++ (codes " " ++ reply_text reply.now)) }
    ensures fits { OnOk result (TellsEnd reply.now → IsReply reply.now) }
{
    put_bytes(line, reply_words(reply))?;
    match reply {
        Reply::Sealed { batch } => put_spaced(line, *batch),
        Reply::Refused(refusal) => put_refusal(line, refusal),
        _ => Ok(()),
    }
}

/// The words of a reply, behind a space, up to what it tells.
fn reply_words(reply: &Reply) -> &'static [u8]
    ensures { result.now ≡ reply_words reply.now }
{
    match reply {
        Reply::Accepted => b" accepted",
        Reply::Cancelled => b" cancelled",
        Reply::Placed => b" placed",
        Reply::Picked => b" picked",
        Reply::Dropped => b" dropped",
        Reply::Sealed { .. } => b" sealed",
        Reply::Closed => b" closed",
        Reply::Refused(_) => b" refused ",
    }
}

fn put_refusal(line: &mut Vec<u8>, refusal: &BookRefusal) -> Result<(), OutOfMemory>
    ensures printed { OnOk result (line.new.items ≡ line.old.items ++ refusal_text refusal.now) }
    ensures fits { OnOk result (TellsEnd (Refused refusal.now) → IsRefusal refusal.now) }
{
    put_bytes(line, refusal_words(refusal))?;
    match told_number(refusal) {
        Some(number) => put_spaced_or_none(line, number),
        None => Ok(()),
    }
}

/// The words of a refusal, up to the number that it tells.
fn refusal_words(refusal: &BookRefusal) -> &'static [u8]
    ensures { result.now ≡ refusal_words refusal.now }
{
    match refusal {
        BookRefusal::DuplicateRider => b"duplicate-rider",
        BookRefusal::UnknownNode => b"unknown-node",
        BookRefusal::SamePlace => b"same-place",
        BookRefusal::PoolFull => b"pool-full",
        BookRefusal::BookFull => b"book-full",
        BookRefusal::UnknownRider => b"unknown-rider",
        BookRefusal::IsAboard { .. } => b"is-aboard",
        BookRefusal::Ended { status } => ended_words(status),
        BookRefusal::UnknownVehicle => b"unknown-vehicle",
        BookRefusal::TimeBack { .. } => b"time-back",
        BookRefusal::NotPromised { .. } => b"not-promised",
        BookRefusal::VehicleFull => b"vehicle-full",
        BookRefusal::NotAboard => b"not-aboard",
        BookRefusal::BatchOpen { .. } => b"batch-open",
        BookRefusal::ClockBack { .. } => b"clock-back",
        BookRefusal::NotThisBatch { .. } => b"not-this-batch",
    }
}

fn ended_words(status: &Status) -> &'static [u8]
    ensures { result.now ≡ ended_words status.now }
{
    match status {
        Status::Waiting => b"ended waiting",
        Status::Promised(_) => b"ended promised",
        Status::Aboard(_) => b"ended aboard",
        Status::Cancelled => b"ended cancelled",
        Status::Delivered => b"ended delivered",
        Status::Expired => b"ended expired",
    }
}

/// The number that a refusal tells behind its words, or that there is none.
fn told_number(refusal: &BookRefusal) -> Option<Option<u64>>
    ensures number { result ≡ told_number refusal.now }
    ensures fits { TellsEnd (Refused refusal.now) → IsRefusal refusal.now }
{
    match refusal {
        BookRefusal::IsAboard { vehicle } => Some(Some(u64::from(vehicle.get()))),
        BookRefusal::TimeBack { last } => Some(Some(u64::from(last.get()))),
        BookRefusal::NotPromised { holder } => match holder {
            Some(vehicle) => Some(Some(u64::from(vehicle.get()))),
            None => Some(None),
        },
        BookRefusal::BatchOpen { batch } => Some(Some(*batch)),
        BookRefusal::ClockBack { last } => Some(Some(u64::from(last.get()))),
        BookRefusal::NotThisBatch { current } => match current {
            Some(batch) => Some(Some(*batch)),
            None => Some(None),
        },
        _ => None,
    }
}

fn put_spaced_or_none(line: &mut Vec<u8>, number: Option<u64>) -> Result<(), OutOfMemory>
    ensures { OnOk result (line.new.items ≡ line.old.items ++ spaced_or_none number) }
{
    match number {
        Some(n) => put_spaced(line, n),
        None => put_bytes(line, b" none"),
    }
}
