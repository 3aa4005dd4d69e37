ghost use Rattle.std.specs.Prelude.{◌≡◌, ◌<◌, ◌≤◌, ◌++◌, ◌∷◌, [], replicate, IfOk, IfErr, OnOk, OnErr};

use crate::script::fault::ScriptFault;
use request_book::Command;
use std::alloc::Global;
use std::marker::Model;

/// The commands of one lane, in order. Contracts see it as the list.
#[derive(Drop)]
struct Lane {
    commands: Vec<Command>,
}

impl Model for Lane {
    ghost use Rattle.std.specs.Prelude.{List};
    ghost use Rattle.request_book.specs.declared.values.command.Command.{Command};

    ghost Value = { List Command };

    ghost view = { λ lane. lane.commands.items };
}

impl Lane {
    fn push(&mut self, command: Command) -> Result<(), ScriptFault>
        ensures pushed { OnOk result (self.new ≡ self.old ++ command ∷ []) }
        ensures unchanged { OnErr result (self.new ≡ self.old) }
        ensures refused { IfErr result (λ fault. fault ≡ ScriptFault.OutOfMemory) }
    {
        self.commands.push(command)?;
        Ok(())
    }
}

/// The rows of one number, which is at most 1,000,000,000: sixteen lanes, each with its commands in order.
///
/// A seal stands in lane 0 alone, and no lane has a close.
#[derive(Drop)]
pub struct Round {
    number: u32,
    lanes: Vec<Lane>,
}

impl Model for Round {
    ghost use Rattle.input_rows.specs.script.Round.{NumberedLanes, IsRound};

    ghost Value = { NumberedLanes };

    ghost view = { λ round. record { number = round.number; lanes = round.lanes.items } };

    ghost invariant = { λ round. IsRound (record { number = round.number; lanes = round.lanes.items }) };
}

impl Round {
    ghost use Rattle.input_rows.specs.script.Round.{IsRound, MayStand, empty_round, lane_at, with_command};

    /// How many lanes a round has.
    pub const LANES: usize = 16;

    /// A law: what every round keeps.
    pub fn keeps(&self)
        ensures { IsRound self.now }
    {
        let _ = &self.lanes;
    }

    /// The number of the round's rows, at most 1,000,000,000.
    pub fn number(&self) -> u32
        ensures value { result ≡ self.now.number }
        ensures within { self.now.number ≤ 1000000000 }
    {
        self.number
    }

    /// The commands of a lane, in order.
    pub fn lane(&self, lane: usize) -> &[Command]
        requires { lane < 16 }
        ensures commands { result.now ≡ lane_at self.now lane }
        ensures kept { IsRound self.now }
    {
        self.lanes[lane].commands.as_slice()
    }

    /// The round of a number, without commands. It fails only for want of memory.
    pub fn new(alloc: Global, number: u32) -> Result<Round, ScriptFault>
        requires { number ≤ 1000000000 }
        ensures empty { IfOk result (λ round. round ≡ empty_round number) }
        ensures refused { IfErr result (λ fault. fault ≡ ScriptFault.OutOfMemory) }
    {
        let mut lanes = Vec::with_capacity(alloc, Round::LANES)?;
        for _ in 0..Round::LANES {
            lanes.push_reserved(Lane {
                commands: Vec::new(alloc),
            });
        }
        Ok(Round { number, lanes })
    }

    /// Puts a command at the end of a lane. It fails only for want of memory, and has then changed nothing.
    pub fn add(&mut self, lane: u8, command: Command) -> Result<(), ScriptFault>
        requires lane { lane < 16 }
        requires stands { MayStand lane command }
        ensures added { OnOk result (self.new ≡ with_command self.old lane command) }
        ensures unchanged { OnErr result (self.new ≡ self.old) }
        ensures refused { IfErr result (λ fault. fault ≡ ScriptFault.OutOfMemory) }
    {
        self.lanes[lane as usize].push(command)
    }
}
