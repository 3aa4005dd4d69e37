//! The rows of a script, read into rounds of sixteen lanes of commands. The crates above call it, and so do
//! the rooms `live` and `made`. It names `cells`.

pub(crate) mod fault;
mod fields;
pub(crate) mod reading;
pub(crate) mod round;
pub(crate) mod script_row;
pub(crate) mod version;
mod word;

ghost use Rattle.std.specs.Prelude.{◌≡◌, All};
ghost use Rattle.input_rows.specs.script.Round.{IsRound};

use crate::script::round::Round;
use std::marker::Model;

/// The rounds of a script, in the order of its rows.
#[derive(Drop)]
pub struct Script {
    rounds: Vec<Round>,
}

impl Model for Script {
    ghost use Rattle.std.specs.Prelude.{All, List};
    ghost use Rattle.input_rows.specs.script.Round.{IsRound, NumberedLanes};

    ghost Value = { List NumberedLanes };

    ghost view = { λ script. script.rounds.items };

    ghost invariant = { λ script. All IsRound script.rounds.items };
}

impl Script {
    /// A script of these rounds.
    pub fn of(rounds: Vec<Round>) -> Script
        requires { All IsRound rounds.items }
        ensures { result ≡ rounds.items }
    {
        Script { rounds }
    }

    /// A law: what every script keeps.
    pub fn keeps(&self)
        ensures { All IsRound self.now }
    {
        let _ = &self.rounds;
    }

    /// The rounds, in the order of the rows.
    pub fn rounds(&self) -> &[Round]
        ensures rounds { result.now ≡ self.now }
        ensures kept { All IsRound self.now }
    {
        self.rounds.as_slice()
    }
}
