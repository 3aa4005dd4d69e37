ghost use Rattle.std.specs.Prelude.{◌≡◌};
ghost use Rattle.std.specs.Str.{bytes_eq};

/// What the program is told to do: the first word. `resume` is a call of its own, and no word of the others.
#[derive(Clone, Copy)]
pub(crate) enum Subcommand {
    Run,
    Load,
    Drive,
    Audit,
    Resume,
}

impl Subcommand {
    ghost use Rattle.rider_limits.specs.Key.{command_name, command_of};

    fn word(self) -> &'static str
        ensures { result.now ≡ command_name self }
    {
        match self {
            Subcommand::Run => "run",
            Subcommand::Load => "load",
            Subcommand::Drive => "drive",
            Subcommand::Audit => "audit",
            Subcommand::Resume => "resume",
        }
    }

    fn is_named(self, word: &str) -> bool
        ensures { result ≡ bytes_eq (command_name self) word.now }
    {
        self.word() == word
    }

    /// The command of a word; `None` where there is none.
    pub(crate) fn of(word: &str) -> Option<Subcommand>
        ensures { result ≡ command_of word.now }
    {
        [
            Subcommand::Run,
            Subcommand::Load,
            Subcommand::Drive,
            Subcommand::Audit,
        ]
        .into_iter()
        .find(|command| command.is_named(word))
    }
}
