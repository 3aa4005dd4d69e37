use crate::row::Row;
use crate::row_reader::RowReader;
use crate::wrong::placed;
use std::alloc::{AllocError, Global};
use std::io::Read;

/// Why a script is no day, or can't be driven.
#[derive(Clone, Copy)]
pub enum DayWrong {
    /// The lane has a command other than a submit or a seal.
    Command { round: u64, lane: u64 },
    /// Lane 0 has a seal that isn't its first command.
    Seals { round: u64 },
    SealBack { round: u64 },
    /// A second above the greatest would be entered.
    TooLate { round: u64 },
}

impl DayWrong {
    fn round(self) -> u64 {
        match self {
            DayWrong::Command { round, .. }
            | DayWrong::Seals { round }
            | DayWrong::SealBack { round }
            | DayWrong::TooLate { round } => round,
        }
    }

    fn lane(self) -> u64 {
        match self {
            DayWrong::Command { lane, .. } => lane,
            _ => 0,
        }
    }

    /// Whether a row of this round and lane is the one that is meant.
    fn is_at(self, alloc: Global, row: &Row, is_first: bool) -> Result<bool, AllocError> {
        let is_seal = row.has(alloc, 3, b"seal")?;
        match self {
            DayWrong::Command { .. } => Ok(!is_seal && !row.has(alloc, 3, b"submit")?),
            DayWrong::Seals { .. } => Ok(is_seal && !is_first),
            DayWrong::SealBack { .. } | DayWrong::TooLate { .. } => Ok(is_seal),
        }
    }

    fn text(self) -> &'static str {
        match self {
            DayWrong::Command { .. } => "a day's script has submit and seal alone",
            DayWrong::Seals { .. } => {
                "in a day's script seals stand in lane 0 and requests in lanes 1 to 15"
            }
            DayWrong::SealBack { .. } => "the second is below that of an earlier seal",
            DayWrong::TooLate { .. } => "a vehicle would stop at a second above 1000000000",
        }
    }
}

/// The row of a day that is meant; `None` where there is none.
pub fn day_row<R: Read + Drop>(
    alloc: Global,
    rows: &mut RowReader<R>,
    wrong: DayWrong,
) -> Result<Option<Row>, AllocError> {
    let mut is_first = true;
    for _ in 0..u64::MAX {
        let Some(row) = rows.next_row(alloc)? else {
            break;
        };
        let is_here = row.number_in(alloc, 1)? == Some(wrong.round())
            && row.number_in(alloc, 2)? == Some(wrong.lane());
        if is_here && wrong.is_at(alloc, &row, is_first)? {
            return Ok(Some(row));
        }
        is_first = is_first && !is_here;
    }
    Ok(None)
}

/// The hint on a day.
pub fn day_hint(
    alloc: Global,
    path: &str,
    wrong: DayWrong,
    row: Option<&Row>,
) -> Result<String, AllocError> {
    let text = wrong.text();
    match row {
        Some(row) => placed(alloc, path, row, text),
        None => {
            let round = wrong.round();
            format!(in alloc; "{path}, round {round}: {text}")
        }
    }
}
