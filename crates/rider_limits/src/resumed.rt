//! The words of `resume`.
ghost use Rattle.std.specs.Prelude.{◌≡◌, None, Some, map, IfOk, IfErr};
ghost use Rattle.std.specs.String.{string_bytes};
ghost use Rattle.rider_limits.specs.Settings.{AreResumed, AreResumedBy};
ghost use Rattle.rider_limits.specs.Words.{resume_fault};
ghost use Rattle.rider_limits.specs.work.Named.{words_fault};
ghost use Rattle.rider_limits.specs.declared.subcommand.Subcommand.TheVariants.{Resume};

use crate::key::Key;
use crate::reading::{number, way};
use crate::resume_words::ResumeWords;
use crate::subcommand::Subcommand;
use crate::word_fault::WordFault;
use crate::words::{first_fault, missing_file};

/// What the words of `resume` say: its name, then `key=value` in any order, each key once. Words count from 1.
///
/// It needs the keys `network`, `fleet` and `report`, and takes `script`, `workers`, `times`, `notices` and `judge`. Faults
/// are found as by `read_words`, but that any word counts as the name. It takes no memory.
pub fn read_resume(words: &[String]) -> Result<ResumeWords, WordFault>
    ensures accepted { IfOk result (λ said. (resume_fault (map string_bytes words.now) ≡ None) × AreResumedBy (map string_bytes words.now) said) }
    ensures refused { IfErr result (λ fault. resume_fault (map string_bytes words.now) ≡ Some fault) }
{
    let Some((_, options)) = words.split_first() else {
        return Err(WordFault::NoCommand);
    };
    if let Some(fault) = first_fault(Subcommand::Resume, options) {
        return Err(fault);
    }
    if let Some(which) = missing_file(Subcommand::Resume, options) {
        return Err(WordFault::MissingFile { which });
    }
    Ok(resumed(options))
}

/// What words without a fault say.
fn resumed(options: &[String]) -> ResumeWords
    requires { words_fault Resume (map string_bytes options.now) ≡ None }
    ensures { AreResumed (map string_bytes options.now) result }
{
    ResumeWords {
        workers: number(Subcommand::Resume, options, Key::Workers) as u8,
        times: way(options),
        judge: number(Subcommand::Resume, options, Key::Judge) == 1,
    }
}
