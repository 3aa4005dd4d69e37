ghost use Rattle.std.specs.Prelude.{◌≡◌, None, Some, map, MatchOption};
ghost use Rattle.std.specs.List.{find};
ghost use Rattle.std.specs.String.{string_bytes};
ghost use Rattle.std.specs.Option.{option_copied};
ghost use Rattle.rider_limits.specs.Words.{after_key, text_given, option_of, option_fault};
ghost use Rattle.rider_limits.specs.work.Named.{is_missing, missing_file, words_fault};

use crate::key::Key;
use crate::subcommand::Subcommand;
use crate::word_fault::WordFault;
use pool_base::Which;

/// What stands behind the key and `=`, where a word begins with them.
fn after_key<'a>(word: &'a str, key: &str) -> Option<&'a str>
    ensures { option_copied result ≡ after_key key.now word.now }
{
    word.strip_prefix(key)?.strip_prefix('=')
}

/// The text behind the first word that begins with the key and `=`.
pub fn value_of<'a>(words: &'a [String], key: &str) -> Option<&'a str>
    ensures { option_copied result ≡ text_given key.now (map string_bytes words.now) }
{
    for word in words {
        if let Some(text) = after_key(word.as_str(), key) {
            return Some(text);
        }
    }
    None
}

/// The command's key before a word's first `=`, and the text behind it.
fn option_of(command: Subcommand, word: &str) -> Option<(Key, &str)>
    ensures { MatchOption result (option_of command word.now ≡ None)
        (λ x. option_of command word.now ≡ Some (x.0, x.1.now)) }
{
    let (name, text) = word.split_once('=')?;
    let key = Key::of(command, name)?;
    Some((key, text))
}

/// What is wrong with the word of a number, where these stand before it.
fn word_fault(command: Subcommand, earlier: &[String], word: &str, number: u64) -> Option<WordFault>
    ensures { result ≡ option_fault (map string_bytes earlier.now) number (option_of command word.now) }
{
    let Some((key, text)) = option_of(command, word) else {
        return Some(WordFault::UnknownKey { word: number });
    };
    if value_of(earlier, key.name()).is_some() {
        return Some(WordFault::Repeated { word: number });
    }
    if key.takes().accepts(text) {
        None
    } else {
        Some(WordFault::BadValue { word: number })
    }
}

/// The first fault of the words behind a command.
pub(crate) fn first_fault(command: Subcommand, options: &[String]) -> Option<WordFault>
    ensures { result ≡ words_fault command (map string_bytes options.now) }
{
    for (index, word) in options.iter().enumerate() {
        if let Some(fault) = word_fault(
            command,
            &options[..index],
            word.as_str(),
            index as u64 + 2,
        ) {
            return Some(fault);
        }
    }
    None
}

fn is_missing(options: &[String], which: Which) -> bool
    ensures { result ≡ is_missing (map string_bytes options.now) which }
{
    value_of(options, which.name()).is_none()
}

/// The first of these files that the words don't name.
fn first_missing(options: &[String], files: &[Which]) -> Option<Which>
    ensures { result ≡ find (is_missing (map string_bytes options.now)) files.now }
{
    files
        .iter()
        .copied()
        .find(|which| is_missing(options, *which))
}

/// The first file that a command needs and these words don't name.
pub(crate) fn missing_file(command: Subcommand, options: &[String]) -> Option<Which>
    ensures { result ≡ missing_file command (map string_bytes options.now) }
{
    let files = [Which::Network, Which::Fleet, Which::Script, Which::Report];
    match command {
        Subcommand::Run | Subcommand::Drive => first_missing(options, &files[..3]),
        Subcommand::Audit => first_missing(options, &files),
        Subcommand::Resume => first_missing(
            options,
            &[Which::Network, Which::Fleet, Which::Report],
        ),
        Subcommand::Load => None,
    }
}
