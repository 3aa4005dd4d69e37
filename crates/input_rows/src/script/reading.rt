ghost use Rattle.std.specs.Prelude.{◌≡◌, ◌≢◌, ◌+◌, ◌<◌, length, IsTrue, Ok, Err, IfOk, IfErr, OnOk};
ghost use Rattle.pool_io.specs.Table.{record_at};
ghost use Rattle.input_rows.specs.script.Word.{columns_of};
ghost use Rattle.input_rows.specs.work.script.Row.{IsScriptRow};
ghost use Rattle.input_rows.specs.script.ScriptRow.{script_row_in, IsBehind};
ghost use Rattle.input_rows.specs.script.Round.{empty_round, with_command};
ghost use Rattle.input_rows.specs.work.script.Building.{joins, with_script_row};
ghost use Rattle.input_rows.specs.script.Script.{script_of};

use crate::cells::number;
use crate::script::Script;
use crate::script::fault::ScriptFault;
use crate::script::fields::{command, leaves_empty};
use crate::script::round::Round;
use crate::script::script_row::ScriptRow;
use crate::script::version::ScriptVersion;
use crate::script::word::Word;
use pool_io::Rows;
use std::alloc::Global;

/// A row, behind a row of round `last`.
#[tactic(auto, unfolding(crate::specs::script::ScriptRow::script_row_in))]
fn read_script_row(
    rows: &Rows,
    row: usize,
    version: ScriptVersion,
    last: u32,
) -> Result<ScriptRow, ScriptFault>
    requires { IsScriptRow rows.now row version }
    ensures { result ≡ script_row_in version (row + 1) last (record_at rows.now row) }
{
    let place = row as u64 + 1;
    let round = number::<ScriptFault>(rows, row, 0)?;
    let lane = number::<ScriptFault>(rows, row, 1)?;
    if lane > 15 {
        return Err(ScriptFault::LaneRange { row: place });
    }
    if round < last {
        return Err(ScriptFault::RoundBack { row: place });
    }
    let Some(word) = Word::of(rows.field(row, 2)) else {
        return Err(ScriptFault::UnknownCommand { row: place });
    };
    let command = command(rows, row, version, word)?;
    if !leaves_empty(rows, row, version, word) {
        drop(command);
        return Err(ScriptFault::ExtraField { row: place });
    }
    if word == Word::Seal && lane != 0 {
        drop(command);
        return Err(ScriptFault::SealLane { row: place });
    }
    Ok(ScriptRow {
        round,
        lane: lane as u8,
        command,
    })
}

/// The one row of a table, read behind a row of round `last`. A fault names it as row 1.
pub fn read_row(rows: &Rows, version: ScriptVersion, last: u32) -> Result<ScriptRow, ScriptFault>
    requires one { length rows.now.records ≡ 1 }
    requires columns { rows.now.columns ≡ columns_of version }
    ensures { result ≡ script_row_in version 1 last (record_at rows.now 0) }
{
    read_script_row(rows, 0, version, last)
}

/// Whether the last round has this number.
fn joins(rounds: &[Round], number: u32) -> bool
    ensures value { result ≡ joins rounds.now number }
    ensures some { IsTrue result → 0 < length rounds.now }
{
    match rounds.last() {
        Some(round) => round.number() == number,
        None => false,
    }
}

/// Puts a row's command into the last round, where it has the row's number, or else into a new round.
fn add_script_row(
    alloc: Global,
    rounds: &mut Vec<Round>,
    script_row: ScriptRow,
) -> Result<(), ScriptFault>
    requires { IsBehind 0 script_row }
    ensures added { OnOk result (rounds.new.items ≡ with_script_row rounds.old.items script_row) }
    ensures refused { IfErr result (λ fault. fault ≡ ScriptFault.OutOfMemory) }
{
    if joins(rounds, script_row.round) {
        let last = rounds.len() - 1;
        return rounds[last].add(script_row.lane, script_row.command);
    }
    let round = begun(alloc, script_row)?;
    rounds.push(round)?;
    Ok(())
}

/// A new round with a row's command.
fn begun(alloc: Global, script_row: ScriptRow) -> Result<Round, ScriptFault>
    requires { IsBehind 0 script_row }
    ensures begun { IfOk result (λ round. round ≡ with_command (empty_round script_row.round) script_row.lane script_row.command) }
    ensures refused { IfErr result (λ fault. fault ≡ ScriptFault.OutOfMemory) }
{
    match Round::new(alloc, script_row.round) {
        Ok(mut round) => match round.add(script_row.lane, script_row.command) {
            Ok(()) => Ok(round),
            Err(fault) => {
                drop(round);
                Err(fault)
            }
        },
        Err(fault) => {
            drop(script_row);
            Err(fault)
        }
    }
}

/// The script that rows give: of the first version without a party, of the second with one.
///
/// More than 200,000 rows are refused. Else the first fault is given, row for row, and in each row in
/// this order: the number of the round, the number of the lane, a lane above 15, a round below the round
/// of the row before, an unknown command, the numbers of the fields that the command uses, from the left,
/// a party that is not 1 to 6, a field that the command doesn't use and that isn't empty, a seal in
/// another lane than 0.
pub fn read_script(
    alloc: Global,
    rows: &Rows,
    version: ScriptVersion,
) -> Result<Script, ScriptFault>
    requires { rows.now.columns ≡ columns_of version }
    ensures accepted { IfOk result (λ script. script_of version rows.now.records ≡ Ok script) }
    ensures refused { IfErr result (λ fault. fault ≢ ScriptFault.OutOfMemory → script_of version rows.now.records ≡ Err fault) }
{
    if rows.len() > 200_000 {
        return Err(ScriptFault::TooManyRows);
    }
    let mut rounds = Vec::new(alloc);
    let mut last = 0;
    for row in 0..rows.len() {
        let script_row = read_script_row(rows, row, version, last)?;
        last = script_row.round;
        add_script_row(alloc, &mut rounds, script_row)?;
    }
    Ok(Script::of(rounds))
}
