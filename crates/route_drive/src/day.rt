ghost use Rattle.std.specs.Prelude.{◌≡◌, None, Some, drop, length, max, not, unwrap_or, MatchResult};
ghost use Rattle.std.specs.List.{list_any};
ghost use Rattle.pool_base.specs.InOrder.{first_fault};
ghost use Rattle.route_drive.specs.Day.{day_fault, first_seal, is_of_day, is_seal_command, lane_fault, round_fault, seal_of, seals_fault};

use input_rows::{Round, Script};
use pool_base::Second;
use request_book::Command;

/// Why a script is no day.
#[derive(Clone, Copy)]
pub enum DayFault {
    /// The lane has a command other than a submit or a seal.
    Command { round: u32, lane: u8 },
    /// Lane 0 has a seal that isn't its first command.
    Seals { round: u32 },
    /// The seal's second is below that of an earlier round.
    SealBack { round: u32 },
}

/// Whether a script is a day: submits and seals alone, at most one seal a round, which lane 0 begins with, and no
/// seal before an earlier round's. Else the first fault, by rounds and in each round in the order of `DayFault`.
pub fn is_day(script: &Script) -> Result<(), DayFault>
    ensures { MatchResult result (λ _. day_fault script.now ≡ None) (λ fault. day_fault script.now ≡ Some fault) }
{
    let mut latest = 0;
    for round in script.rounds() {
        match check_round(round, latest) {
            Ok(next) => latest = next,
            Err(fault) => return Err(fault),
        }
    }
    Ok(())
}

/// Judges a round behind seals up to a second, and says up to which second they are with its own.
fn check_round(round: &Round, latest: u32) -> Result<u32, DayFault>
    ensures { MatchResult result
        (λ next. (round_fault latest round.now ≡ None) × (next ≡ max (unwrap_or (seal_of round.now) 0) latest))
        (λ fault. round_fault latest round.now ≡ Some fault) }
{
    if let Err(fault) = check_lanes(round) {
        return Err(fault);
    }
    if let Err(fault) = check_seals(round) {
        return Err(fault);
    }
    match first_seal(round.lane(0)) {
        None => Ok(latest),
        Some(now) => {
            let now = now.get();
            if now < latest {
                Err(DayFault::SealBack {
                    round: round.number(),
                })
            } else {
                Ok(now)
            }
        }
    }
}

fn check_lanes(round: &Round) -> Result<(), DayFault>
    ensures { MatchResult result
        (λ _. first_fault (lane_fault round.now) (length round.now.lanes) ≡ None)
        (λ fault. first_fault (lane_fault round.now) (length round.now.lanes) ≡ Some fault) }
{
    round.keeps();
    for lane in 0..16u8 {
        if has_foreign(round.lane(lane as usize)) {
            return Err(DayFault::Command {
                round: round.number(),
                lane,
            });
        }
    }
    Ok(())
}

fn check_seals(round: &Round) -> Result<(), DayFault>
    ensures { MatchResult result (λ _. seals_fault round.now ≡ None) (λ fault. seals_fault round.now ≡ Some fault) }
{
    if has_later_seal(round.lane(0)) {
        return Err(DayFault::Seals {
            round: round.number(),
        });
    }
    Ok(())
}

/// Whether a command may not stand in a day.
fn has_foreign(commands: &[Command]) -> bool
    ensures { result ≡ list_any (λ c. not (is_of_day c)) commands.now }
{
    for command in commands {
        if !is_of_day(command) {
            return true;
        }
    }
    false
}

/// Whether a command behind the first is a seal.
fn has_later_seal(commands: &[Command]) -> bool
    ensures { result ≡ list_any is_seal_command (drop 1 commands.now) }
{
    for k in 1..commands.len() {
        if is_seal(&commands[k]) {
            return true;
        }
    }
    false
}

/// The second of the seal with which commands begin, if they do.
pub(crate) fn first_seal(commands: &[Command]) -> Option<Second>
    ensures { result ≡ first_seal commands.now }
{
    match commands {
        [Command::Seal { now }, ..] => Some(*now),
        _ => None,
    }
}

fn is_of_day(command: &Command) -> bool
    ensures { result ≡ is_of_day command.now }
{
    matches!(command, Command::Submit { .. } | Command::Seal { .. })
}

fn is_seal(command: &Command) -> bool
    ensures { result ≡ is_seal_command command.now }
{
    matches!(command, Command::Seal { .. })
}
