ghost use Rattle.std.specs.Prelude.{◌≡◌, ◌+◌, ◌-◌, ◌<◌, ◌≤◌, length};
ghost use Rattle.std.specs.List.{list_all, range_with_len};
ghost use Rattle.pool_io.specs.Table.{record_at};
ghost use Rattle.input_rows.specs.work.script.Row.{IsScriptRow};
ghost use Rattle.input_rows.specs.script.ScriptRow.{party_in, three_in, command_in, leaves_empty};
ghost use Rattle.input_rows.specs.work.script.Words.{is_empty_in};

use crate::cells::{node, number, rider, second, vehicle};
use crate::script::fault::ScriptFault;
use crate::script::version::ScriptVersion;
use crate::script::word::Word;
use pool_base::Party;
use pool_io::Rows;
use request_book::Command;

/// The party of a request: one person in the first version, and the last column in the second.
#[tactic(auto, unfolding(crate::specs::script::ScriptRow::party_in))]
fn party(rows: &Rows, row: usize, version: ScriptVersion) -> Result<Party, ScriptFault>
    requires { IsScriptRow rows.now row version }
    ensures { result ≡ party_in version (row + 1) (record_at rows.now row) }
{
    match version {
        ScriptVersion::One => Ok(Party::ONE),
        ScriptVersion::Two => {
            let n = number::<ScriptFault>(rows, row, 7)?;
            match Party::new(u64::from(n)) {
                Some(party) => Ok(party),
                None => Err(ScriptFault::Party {
                    row: row as u64 + 1,
                }),
            }
        }
    }
}

#[tactic(auto, unfolding(crate::specs::script::ScriptRow::command_in))]
fn submit(rows: &Rows, row: usize, version: ScriptVersion) -> Result<Command, ScriptFault>
    requires { IsScriptRow rows.now row version }
    ensures { result ≡ command_in version (row + 1) (record_at rows.now row) Word.Submit }
{
    Ok(Command::Submit {
        rider: rider::<ScriptFault>(rows, row, 3)?,
        origin: node::<ScriptFault>(rows, row, 4)?,
        destination: node::<ScriptFault>(rows, row, 5)?,
        time: second::<ScriptFault>(rows, row, 6)?,
        party: party(rows, row, version)?,
    })
}

#[tactic(auto, unfolding(crate::specs::script::ScriptRow::three_in))]
fn report(rows: &Rows, row: usize, version: ScriptVersion) -> Result<Command, ScriptFault>
    requires { IsScriptRow rows.now row version }
    ensures { result ≡ three_in Command.Report (row + 1) (record_at rows.now row) }
{
    Ok(Command::Report {
        vehicle: vehicle::<ScriptFault>(rows, row, 3)?,
        node: node::<ScriptFault>(rows, row, 4)?,
        time: second::<ScriptFault>(rows, row, 5)?,
    })
}

#[tactic(auto, unfolding(crate::specs::script::ScriptRow::three_in))]
fn pickup(rows: &Rows, row: usize, version: ScriptVersion) -> Result<Command, ScriptFault>
    requires { IsScriptRow rows.now row version }
    ensures { result ≡ three_in Command.Pickup (row + 1) (record_at rows.now row) }
{
    Ok(Command::Pickup {
        vehicle: vehicle::<ScriptFault>(rows, row, 3)?,
        rider: rider::<ScriptFault>(rows, row, 4)?,
        time: second::<ScriptFault>(rows, row, 5)?,
    })
}

#[tactic(auto, unfolding(crate::specs::script::ScriptRow::three_in))]
fn dropoff(rows: &Rows, row: usize, version: ScriptVersion) -> Result<Command, ScriptFault>
    requires { IsScriptRow rows.now row version }
    ensures { result ≡ three_in Command.Dropoff (row + 1) (record_at rows.now row) }
{
    Ok(Command::Dropoff {
        vehicle: vehicle::<ScriptFault>(rows, row, 3)?,
        rider: rider::<ScriptFault>(rows, row, 4)?,
        time: second::<ScriptFault>(rows, row, 5)?,
    })
}

/// The command of a row, by its word.
#[tactic(auto, unfolding(crate::specs::script::ScriptRow::command_in))]
pub(crate) fn command(
    rows: &Rows,
    row: usize,
    version: ScriptVersion,
    word: Word,
) -> Result<Command, ScriptFault>
    requires { IsScriptRow rows.now row version }
    ensures { result ≡ command_in version (row + 1) (record_at rows.now row) word }
{
    match word {
        Word::Submit => submit(rows, row, version),
        Word::Cancel => Ok(Command::Cancel {
            rider: rider::<ScriptFault>(rows, row, 3)?,
        }),
        Word::Report => report(rows, row, version),
        Word::Pickup => pickup(rows, row, version),
        Word::Dropoff => dropoff(rows, row, version),
        Word::Seal => Ok(Command::Seal {
            now: second::<ScriptFault>(rows, row, 3)?,
        }),
    }
}

/// Whether every column that a command doesn't use is empty.
#[tactic(auto, unfolding(crate::specs::script::ScriptRow::leaves_empty))]
pub(crate) fn leaves_empty(rows: &Rows, row: usize, version: ScriptVersion, word: Word) -> bool
    requires { IsScriptRow rows.now row version }
    ensures { result ≡ leaves_empty version (record_at rows.now row) word }
{
    are_empty(rows, row, 3 + word.used(version), version.columns())
}

/// Whether the columns from the first to below the second are empty.
fn are_empty(rows: &Rows, row: usize, first: usize, end: usize) -> bool
    requires row { row < length rows.now.records }
    requires columns { end ≤ rows.now.columns }
    ensures { result ≡ list_all (is_empty_in (record_at rows.now row)) (range_with_len first (end - first)) }
{
    for column in first..end {
        if !rows.field(row, column).is_empty() {
            return false;
        }
    }
    true
}
