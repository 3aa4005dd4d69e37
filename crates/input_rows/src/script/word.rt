ghost use Rattle.std.specs.Prelude.{◌≡◌};
ghost use Rattle.std.specs.List.{find};
ghost use Rattle.input_rows.specs.work.script.Words.{is_named};

use crate::script::version::ScriptVersion;

/// The word of a command.
#[derive(Clone, Copy)]
pub(crate) enum Word {
    Submit,
    Cancel,
    Report,
    Pickup,
    Dropoff,
    Seal,
}

impl Word {
    ghost use Rattle.input_rows.specs.script.Word.{command_word, word_of, used_by};
    ghost use Rattle.input_rows.specs.work.script.Words.{is_named};

    fn name(self) -> &'static str
        ensures { result.now ≡ command_word self }
    {
        match self {
            Word::Submit => "submit",
            Word::Cancel => "cancel",
            Word::Report => "report",
            Word::Pickup => "pickup",
            Word::Dropoff => "dropoff",
            Word::Seal => "seal",
        }
    }

    fn is_named(self, field: &[u8]) -> bool
        ensures { result ≡ is_named field.now self }
    {
        self.name().as_bytes() == field
    }

    /// The command that a field names.
    #[tactic(auto, unfolding(crate::specs::script::Word::word_of))]
    pub(crate) fn of(field: &[u8]) -> Option<Word>
        ensures { result ≡ word_of field.now }
    {
        let words = [
            Word::Submit,
            Word::Cancel,
            Word::Report,
            Word::Pickup,
            Word::Dropoff,
            Word::Seal,
        ];
        first_named(&words, field)
    }

    /// How many of the columns behind its word a command uses.
    pub(crate) fn used(self, version: ScriptVersion) -> usize
        ensures { result ≡ used_by version self }
    {
        match self {
            Word::Submit => match version {
                ScriptVersion::One => 4,
                ScriptVersion::Two => 5,
            },
            Word::Report | Word::Pickup | Word::Dropoff => 3,
            Word::Cancel | Word::Seal => 1,
        }
    }
}

fn first_named(words: &[Word], field: &[u8]) -> Option<Word>
    ensures { result ≡ find (is_named field.now) words.now }
{
    words.iter().copied().find(|word| word.is_named(field))
}
