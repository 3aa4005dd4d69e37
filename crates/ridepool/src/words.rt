//! The words of a call of `live`, as words of `run`.
ghost use Rattle.std.specs.Prelude.{◌≡◌, ◌++◌, ◌∷◌, [], map, MatchResult, IfOk, OnOk};
ghost use Rattle.std.specs.String.{string_bytes};
ghost use Rattle.ridepool.specs.Inputs.{AreGood};
ghost use Rattle.ridepool.specs.Live.{words_of_run};
ghost use Rattle.ridepool.specs.work.Live.{RefusesWords};

use crate::status::RunStatus;
use pool_base::OutOfMemory;
use rider_limits::{Settings, read_words, value_of};
use std::alloc::Global;

/// The settings of a call of `live`.
pub(crate) fn live_settings(alloc: Global, words: &[String]) -> Result<Settings, RunStatus>
    ensures { let run = words_of_run (map string_bytes words.now) in MatchResult result (AreGood run) (RefusesWords run) }
{
    match words_of_run(alloc, words) {
        Ok(words) => settings_of(words),
        Err(OutOfMemory) => Err(RunStatus::OutOfMemory),
    }
}

fn settings_of(words: Vec<String>) -> Result<Settings, RunStatus>
    ensures { MatchResult result (AreGood (map string_bytes words.items)) (RefusesWords (map string_bytes words.items)) }
{
    let read = read_words(&words);
    drop(words);
    match read {
        Ok(settings) => Ok(settings),
        Err(fault) => Err(RunStatus::Words(fault)),
    }
}

/// The words of `run` for which the words of a call of `live` stand: its options, with a name for the script where they
/// give none.
pub fn words_of_run(alloc: Global, words: &[String]) -> Result<Vec<String>, OutOfMemory>
    ensures { IfOk result (λ run. map string_bytes run.items ≡ words_of_run (map string_bytes words.now)) }
{
    let mut run = Vec::new(alloc);
    if let Some((_, options)) = words.split_first() {
        put_word(alloc, &mut run, "run")?;
        put_words(&mut run, options)?;
        if value_of(options, "script").is_none() {
            put_word(alloc, &mut run, "script=-")?;
        }
    }
    Ok(run)
}

fn put_word(alloc: Global, run: &mut Vec<String>, word: &str) -> Result<(), OutOfMemory>
    ensures { OnOk result (map string_bytes run.new.items ≡ map string_bytes run.old.items ++ word.now ∷ []) }
{
    run.push(String::from_str(alloc, word)?)?;
    Ok(())
}

fn put_words(run: &mut Vec<String>, words: &[String]) -> Result<(), OutOfMemory>
    ensures { OnOk result (map string_bytes run.new.items ≡ map string_bytes run.old.items ++ map string_bytes words.now) }
{
    for word in words {
        run.push(word.clone()?)?;
    }
    Ok(())
}
