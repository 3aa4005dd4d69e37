//! Words with numbers between them, as faults are told.
ghost use Rattle.std.specs.Prelude.{◌≡◌, ◌++◌, OnOk};
ghost use Rattle.dispatch_report.specs.Words.{numbered};
ghost use Rattle.ridepool.specs.work.Phrase.{phrase_text};

use pool_base::{OutOfMemory, Which, put_bytes, put_number};

#[derive(Clone, Copy)]
pub enum Phrase {
    Words(&'static [u8]),
    /// Words and a number.
    At(&'static [u8], u64),
    /// Words, a number, and words behind it.
    Within(&'static [u8], u64, &'static [u8]),
    /// Words and a number, twice.
    Both(&'static [u8], u64, &'static [u8], u64),
    /// Words and the name of an input.
    Name(&'static [u8], Which),
}

pub(crate) fn put_phrase(text: &mut Vec<u8>, phrase: Phrase) -> Result<(), OutOfMemory>
    ensures { OnOk result (text.new.items ≡ text.old.items ++ phrase_text phrase) }
{
    match phrase {
        Phrase::Words(words) => put_bytes(text, words),
        Phrase::At(words, number) => put_at(text, words, number),
        Phrase::Within(words, number, end) => {
            put_at(text, words, number)?;
            put_bytes(text, end)
        }
        Phrase::Both(words, number, more, next) => {
            put_at(text, words, number)?;
            put_at(text, more, next)
        }
        Phrase::Name(words, which) => {
            put_bytes(text, words)?;
            put_bytes(text, which.name().as_bytes())
        }
    }
}

#[tactic(auto, unfolding(dispatch_report::specs::Words::numbered))]
fn put_at(text: &mut Vec<u8>, words: &[u8], number: u64) -> Result<(), OutOfMemory>
    ensures { OnOk result (text.new.items ≡ text.old.items ++ numbered words.now number) }
{
    put_bytes(text, words)?;
    put_number(text, number)
}
