ghost use Rattle.std.specs.Prelude.{◌≡◌, ◌==◌, ◌++◌, [], OnOk, codes, if◌then◌else◌};
ghost use Rattle.dispatch_report.specs.Entry.{command_text, entry_line};
ghost use Rattle.dispatch_report.specs.Fits.{IsCommand, IsReply, TellsEnd};
ghost use Rattle.dispatch_report.specs.Words.{numbered, spaced};
ghost use Rattle.request_book.specs.declared.values.command.Command.TheVariants.{Submit};

use crate::reply::put_reply;
use crate::words::{put_fields, put_numbered, put_spaced};
use pool_base::{NodeId, OutOfMemory, Party, RiderId, Second};
use request_book::{Command, Entry};

/// Appends the line of an entry at its position, without its end. It fails only for want of memory.
pub fn put_entry(line: &mut Vec<u8>, position: u64, entry: &Entry) -> Result<(), OutOfMemory>
    ensures printed { OnOk result (line.new.items ≡ line.old.items ++ entry_line position entry.now) }
    ensures command { OnOk result (IsCommand entry.now.command) }
    ensures reply { OnOk result (TellsEnd entry.now.reply → IsReply entry.now.reply) }
{
    put_fields(line, &[(b"", position), (b" ", u64::from(entry.lane))])?;
    put_command(line, &entry.command)?;
    put_reply(line, &entry.reply)
}

/// Appends a space and a command.
#[tactic(auto, unfolding(crate::specs::Words::numbered))]
fn put_command(line: &mut Vec<u8>, command: &Command) -> Result<(), OutOfMemory>
    ensures printed { OnOk result (line.new.items ≡ line.old.items ++ (codes " " ++ command_text command.now)) }
    ensures fits { OnOk result (IsCommand command.now) }
{
    match command {
        Command::Submit {
            rider,
            origin,
            destination,
            time,
            party,
        } => put_submit(line, *rider, *origin, *destination, *time, *party),
        Command::Cancel { rider } => put_numbered(line, b" cancel ", u64::from(rider.get())),
        Command::Report {
            vehicle,
            node,
            time,
        } => put_three(line, b" report ", vehicle.get(), node.get(), time.get()),
        Command::Pickup {
            vehicle,
            rider,
            time,
        } => put_three(line, b" pickup ", vehicle.get(), rider.get(), time.get()),
        Command::Dropoff {
            vehicle,
            rider,
            time,
        } => put_three(line, b" dropoff ", vehicle.get(), rider.get(), time.get()),
        Command::Seal { now } => put_numbered(line, b" seal ", u64::from(now.get())),
        Command::Close { batch, .. } => put_numbered(line, b" close ", *batch),
    }
}

fn put_submit(
    line: &mut Vec<u8>,
    rider: RiderId,
    origin: NodeId,
    destination: NodeId,
    time: Second,
    party: Party,
) -> Result<(), OutOfMemory>
    ensures printed { OnOk result (line.new.items ≡ line.old.items ++ (numbered (codes " submit ") rider ++ spaced origin ++ spaced destination ++ spaced time ++ (if party == 1 then [] else spaced party))) }
    ensures fits { OnOk result (IsCommand (Submit rider origin destination time party)) }
{
    put_fields(
        line,
        &[
            (b" submit ", u64::from(rider.get())),
            (b" ", u64::from(origin.get())),
            (b" ", u64::from(destination.get())),
            (b" ", u64::from(time.get())),
        ],
    )?;
    put_party(line, party.get())
}

fn put_three(
    line: &mut Vec<u8>,
    words: &[u8],
    first: u32,
    second: u32,
    third: u32,
) -> Result<(), OutOfMemory>
    ensures { OnOk result (line.new.items ≡ line.old.items ++ (numbered words.now first ++ spaced second ++ spaced third)) }
{
    put_fields(
        line,
        &[
            (words, u64::from(first)),
            (b" ", u64::from(second)),
            (b" ", u64::from(third)),
        ],
    )
}

fn put_party(line: &mut Vec<u8>, persons: u8) -> Result<(), OutOfMemory>
    ensures { OnOk result (line.new.items ≡ line.old.items ++ (if persons == 1 then [] else spaced persons)) }
{
    if persons == 1 {
        return Ok(());
    }
    put_spaced(line, u64::from(persons))
}
