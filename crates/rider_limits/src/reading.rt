ghost use Rattle.std.specs.Prelude.{◌≡◌, ◌≢◌, ◌↔◌, None, Some, codes, map, IfOk, IfErr};
ghost use Rattle.std.specs.String.{string_bytes};
ghost use Rattle.rider_limits.specs.Key.{about};
ghost use Rattle.rider_limits.specs.work.Taken.{IsNumber, IsAccepted};
ghost use Rattle.rider_limits.specs.Words.{text_given, fault_of};
ghost use Rattle.rider_limits.specs.work.Named.{words_fault};
ghost use Rattle.rider_limits.specs.Settings.{number_given, IsModeGiven, AreGivenBehind, AreGiven};
ghost use Rattle.rider_limits.specs.declared.subcommand.Subcommand.TheVariants.{Load};
ghost use Rattle.rider_limits.specs.declared.key.Key.TheVariants.{Times};
ghost use Rattle.rider_limits.specs.declared.settings.TimesWay.TheVariants.{Labels};

use crate::key::Key;
use crate::load_shape::LoadShape;
use crate::settings::{Mode, Settings, TimesWay};
use crate::subcommand::Subcommand;
use crate::word_fault::WordFault;
use crate::words::{first_fault, missing_file, value_of};
use pool_base::read_number_up_to;

/// The number that words without a fault give a key.
pub(crate) fn number(command: Subcommand, options: &[String], key: Key) -> u64
    requires faultless { words_fault command (map string_bytes options.now) ≡ None }
    requires number { IsNumber (about key).takes }
    ensures value { result ≡ number_given key (map string_bytes options.now) }
    ensures within { IsAccepted (about key).takes result }
{
    match value_of(options, key.name()) {
        None => key.default_number(),
        Some(text) => read_number_up_to(text.as_bytes(), u64::MAX).unwrap(),
    }
}

/// The shape that words without a fault give.
fn shape(options: &[String]) -> LoadShape
    requires { words_fault Subcommand.Load (map string_bytes options.now) ≡ None }
    ensures { IsModeGiven (Some Load) (map string_bytes options.now) (Mode.Load result) }
{
    LoadShape {
        seed: number(Subcommand::Load, options, Key::Seed),
        side: number(Subcommand::Load, options, Key::Side) as u32,
        vehicles: number(Subcommand::Load, options, Key::Vehicles) as u32,
        riders: number(Subcommand::Load, options, Key::Riders) as u32,
        rounds: number(Subcommand::Load, options, Key::Rounds) as u32,
    }
}

/// The settings that words without a fault give.
fn settings(command: Subcommand, options: &[String]) -> Settings
    requires faultless { words_fault command (map string_bytes options.now) ≡ None }
    requires first { command ≢ Subcommand.Resume }
    ensures { AreGivenBehind (Some command) (map string_bytes options.now) result }
{
    Settings {
        mode: match command {
            Subcommand::Run => Mode::Run,
            Subcommand::Load => Mode::Load(shape(options)),
            Subcommand::Drive => Mode::Drive,
            Subcommand::Audit => Mode::Audit,
            Subcommand::Resume => unreachable!(),
        },
        wait: number(command, options, Key::Wait) as u32,
        delay: number(command, options, Key::Delay) as u32,
        trip: number(command, options, Key::Trip) as u8,
        penalty: number(command, options, Key::Penalty) as u32,
        budget: number(command, options, Key::Budget) as u32,
        pairs: number(command, options, Key::Pairs) as u32,
        workers: number(command, options, Key::Workers) as u8,
        proof: number(command, options, Key::Proof) == 1,
        dwell: number(command, options, Key::Dwell) as u16,
        times: way(options),
    }
}

/// The way to come by travel times that words give.
pub(crate) fn way(options: &[String]) -> TimesWay
    ensures { (result ≡ Labels) ↔ (text_given (about Times).name (map string_bytes options.now) ≡ Some (codes "labels")) }
{
    match value_of(options, Key::Times.name()) {
        Some("labels") => TimesWay::Labels,
        _ => TimesWay::Rows,
    }
}

/// The settings that words give: a command, `run`, `drive`, `load` or `audit`, then `key=value` in any order, each
/// key once. Words count from 1.
///
/// `run`, `drive` and `audit` need the keys `network`, `fleet` and `script`, and `audit` needs `report` too. `audit`
/// takes `workers` beside these. `run` and `drive` take `notices` and `proof`; `load` takes `seed`, `side`,
/// `vehicles`, `riders` and `rounds`; these three take all other keys. It takes no memory.
///
/// The first fault is given: no command, then word for word an unknown key, a repeated key, a bad value,
/// and after the last word the first missing file.
pub fn read_words(words: &[String]) -> Result<Settings, WordFault>
    ensures accepted { IfOk result (λ settings. (fault_of (map string_bytes words.now) ≡ None)
        × AreGiven (map string_bytes words.now) settings) }
    ensures refused { IfErr result (λ fault. fault_of (map string_bytes words.now) ≡ Some fault) }
{
    let Some((word, options)) = words.split_first() else {
        return Err(WordFault::NoCommand);
    };
    let Some(command) = Subcommand::of(word.as_str()) else {
        return Err(WordFault::NoCommand);
    };
    if let Some(fault) = first_fault(command, options) {
        return Err(fault);
    }
    if let Some(which) = missing_file(command, options) {
        return Err(WordFault::MissingFile { which });
    }
    Ok(settings(command, options))
}
