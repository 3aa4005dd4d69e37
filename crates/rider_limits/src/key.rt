ghost use Rattle.std.specs.Prelude.{◌≡◌};
ghost use Rattle.std.specs.List.{find};
ghost use Rattle.rider_limits.specs.work.Taken.{is_key};

use crate::subcommand::Subcommand;
use pool_base::{Which, read_number_up_to};

/// What stands before a word's `=`.
#[derive(Clone, Copy)]
pub(crate) enum Key {
    Input(Which),
    Notices,
    Wait,
    Delay,
    Trip,
    Penalty,
    Budget,
    Pairs,
    Workers,
    Proof,
    Dwell,
    Times,
    Seed,
    Side,
    Vehicles,
    Riders,
    Rounds,
    Judge,
}

/// What may stand behind a key's `=`: a file's name, a number of a range, or a way to come by travel times.
#[derive(Clone, Copy)]
pub(crate) enum Takes {
    FileName,
    Number(u64, u64),
    Way,
}

impl Key {
    ghost use Rattle.rider_limits.specs.Key.{about, key_of};
    ghost use Rattle.rider_limits.specs.work.Taken.{is_key};

    pub(crate) fn name(self) -> &'static str
        ensures { result.now ≡ (about self).name }
    {
        match self {
            Key::Input(which) => which.name(),
            Key::Notices => "notices",
            Key::Wait => "wait",
            Key::Delay => "delay",
            Key::Trip => "trip",
            Key::Penalty => "penalty",
            Key::Budget => "budget",
            Key::Pairs => "pairs",
            Key::Workers => "workers",
            Key::Proof => "proof",
            Key::Dwell => "dwell",
            Key::Times => "times",
            Key::Seed => "seed",
            Key::Side => "side",
            Key::Vehicles => "vehicles",
            Key::Riders => "riders",
            Key::Rounds => "rounds",
            Key::Judge => "judge",
        }
    }

    fn is_of(self, command: Subcommand) -> bool
        ensures { result ≡ (about self).has command }
    {
        match self {
            Key::Input(Which::Report) => matches!(command, Subcommand::Audit | Subcommand::Resume),
            Key::Input(_) => command != Subcommand::Load,
            Key::Notices => matches!(
                command,
                Subcommand::Run | Subcommand::Drive | Subcommand::Resume
            ),
            Key::Proof => matches!(command, Subcommand::Run | Subcommand::Drive),
            Key::Seed | Key::Side | Key::Vehicles | Key::Riders | Key::Rounds => command
                == Subcommand::Load,
            Key::Workers => true,
            Key::Times => command != Subcommand::Audit,
            Key::Judge => command == Subcommand::Resume,
            _ => !matches!(command, Subcommand::Audit | Subcommand::Resume),
        }
    }

    fn is_named(self, command: Subcommand, name: &str) -> bool
        ensures { result ≡ is_key command name.now self }
    {
        self.is_of(command) && self.name() == name
    }

    /// The key of this name that a command has.
    #[tactic(auto, unfolding(crate::specs::Key::key_of))]
    pub(crate) fn of(command: Subcommand, name: &str) -> Option<Key>
        ensures { result ≡ key_of command name.now }
    {
        let keys = [
            Key::Input(Which::Network),
            Key::Input(Which::Fleet),
            Key::Input(Which::Script),
            Key::Input(Which::Report),
            Key::Notices,
            Key::Wait,
            Key::Delay,
            Key::Trip,
            Key::Penalty,
            Key::Budget,
            Key::Pairs,
            Key::Workers,
            Key::Proof,
            Key::Dwell,
            Key::Times,
            Key::Seed,
            Key::Side,
            Key::Vehicles,
            Key::Riders,
            Key::Rounds,
            Key::Judge,
        ];
        first_named(&keys, command, name)
    }

    pub(crate) fn takes(self) -> Takes
        ensures { result ≡ (about self).takes }
    {
        match self {
            Key::Input(_) | Key::Notices => Takes::FileName,
            Key::Wait | Key::Delay => Takes::Number(0, 7_200),
            Key::Trip => Takes::Number(1, 6),
            Key::Penalty => Takes::Number(0, 1_000_000_000),
            Key::Budget => Takes::Number(1, 50_000),
            Key::Pairs => Takes::Number(1, 2_000_000),
            Key::Workers => Takes::Number(1, 64),
            Key::Proof => Takes::Number(0, 1),
            Key::Dwell => Takes::Number(0, 600),
            Key::Times => Takes::Way,
            Key::Seed => Takes::Number(0, 1_000_000_000),
            Key::Side => Takes::Number(2, 100),
            Key::Vehicles => Takes::Number(1, 500),
            Key::Riders => Takes::Number(1, 1_000),
            Key::Rounds => Takes::Number(1, 100),
            Key::Judge => Takes::Number(0, 1),
        }
    }

    /// The number where no word gives one.
    pub(crate) fn default_number(self) -> u64
        ensures { result ≡ (about self).default_number }
    {
        match self {
            Key::Input(_) | Key::Notices | Key::Proof | Key::Dwell | Key::Times | Key::Judge => 0,
            Key::Wait => 120,
            Key::Delay => 180,
            Key::Trip | Key::Workers | Key::Rounds => 4,
            Key::Penalty => 10_000,
            Key::Budget => 200,
            Key::Pairs => 200_000,
            Key::Seed => 1,
            Key::Side => 20,
            Key::Vehicles => 100,
            Key::Riders => 150,
        }
    }
}

/// The first of these keys that a command has under this name.
fn first_named(keys: &[Key], command: Subcommand, name: &str) -> Option<Key>
    ensures { result ≡ find (is_key command name.now) keys.now }
{
    keys.iter().copied().find(|key| key.is_named(command, name))
}

impl Takes {
    ghost use Rattle.rider_limits.specs.Key.{accepts};

    pub(crate) fn accepts(self, text: &str) -> bool
        ensures { result ≡ accepts self text.now }
    {
        match self {
            Takes::FileName => !text.is_empty(),
            Takes::Number(least, greatest) => {
                read_number_up_to(text.as_bytes(), greatest).is_some_and(|n| least <= n)
            }
            Takes::Way => "rows" == text || "labels" == text,
        }
    }
}
