use crate::key::nearest;
use crate::row::Row;
use crate::shown::{listed, shown};
use crate::table::InputTable;
use std::alloc::{AllocError, Global};

/// What is wrong with a row. Columns count from 1.
#[derive(Clone, Copy)]
pub enum Wrong {
    /// The row has another number of fields than the header has.
    FieldCount,
    Number { column: u64 },
    StreetTooLong,
    TooManyNodes,
    Seats,
    UnknownNode,
    RepeatedVehicle,
    Lane,
    RoundBack,
    UnknownCommand,
    Party,
    /// A field that the command doesn't use isn't empty.
    ExtraField,
    SealLane,
    /// The row has more than 65,536 bytes.
    TooLong,
}

const COMMANDS: [&str; 6] = ["submit", "cancel", "report", "pickup", "dropoff", "seal"];

/// The hint on a row: where it stands, its text, and what would be right. Without the row itself it tells the number.
pub fn row_hint(
    alloc: Global,
    path: &str,
    table: InputTable,
    number: u64,
    wrong: &Wrong,
    row: Option<&Row>,
) -> Result<String, AllocError> {
    let Some(row) = row else {
        let right = rule(alloc, table, wrong)?;
        return format!(in alloc; "{path}, row {number}: {right}");
    };
    let found = found(alloc, table, wrong, row)?;
    placed(alloc, path, row, found.as_str())
}

/// A text behind the place of a row and the row's own text.
pub(crate) fn placed(
    alloc: Global,
    path: &str,
    row: &Row,
    told: &str,
) -> Result<String, AllocError> {
    let text = shown(alloc, &row.text)?;
    let line = row.line;
    format!(in alloc; "{path}, line {line}: {text}: {told}")
}

/// What is wrong with a row that is known.
fn found(alloc: Global, table: InputTable, wrong: &Wrong, row: &Row) -> Result<String, AllocError> {
    match wrong {
        Wrong::FieldCount => {
            let wanted = row.header_fields;
            let count = row.field_count();
            format!(in alloc; "expected {wanted} fields, found {count}")
        }
        Wrong::Number { column } => number_found(alloc, table, *column, row),
        Wrong::UnknownNode => {
            let node = shown_field(alloc, row, 3)?;
            format!(in alloc; "node {node} is not in the network")
        }
        Wrong::RepeatedVehicle => {
            let vehicle = shown_field(alloc, row, 1)?;
            format!(in alloc; "vehicle {vehicle} is in an earlier row too")
        }
        Wrong::UnknownCommand => command_found(alloc, row),
        Wrong::RoundBack => {
            let round = shown_field(alloc, row, 1)?;
            format!(in alloc; "round {round} is below the round of an earlier row")
        }
        Wrong::ExtraField => {
            let command = shown_field(alloc, row, 3)?;
            let used = used(command.as_str());
            format!(in alloc; "{command} uses {used}, the fields behind must be empty")
        }
        _ => rule(alloc, table, wrong),
    }
}

fn shown_field(alloc: Global, row: &Row, column: u64) -> Result<String, AllocError> {
    let field = row.field(alloc, column)?;
    shown(alloc, &field)
}

/// What is wrong with the number in a column.
fn number_found(
    alloc: Global,
    table: InputTable,
    column: u64,
    row: &Row,
) -> Result<String, AllocError> {
    let field = row.field(alloc, column)?;
    let text = shown(alloc, &field)?;
    let name = table.column_name(column);
    let greatest = table.greatest(column);
    if field.is_empty() {
        return format!(in alloc; "{name} is empty: a whole number from 0 to {greatest}");
    }
    if field.iter().all(|byte| byte.is_ascii_digit()) {
        return format!(in alloc; "{text} is above {greatest}");
    }
    format!(in alloc; "{text} is no whole number from 0 to {greatest}")
}

/// What is wrong with a command that there isn't.
fn command_found(alloc: Global, row: &Row) -> Result<String, AllocError> {
    let field = row.field(alloc, 3)?;
    let text = shown(alloc, &field)?;
    match nearest(alloc, text.as_str(), &COMMANDS)? {
        Some(name) => format!(in alloc; "did you mean {name}?"),
        None => rule(alloc, InputTable::Script, &Wrong::UnknownCommand),
    }
}

/// The columns that a command uses.
fn used(command: &str) -> &'static str {
    match command {
        "submit" => "a, b, c and d",
        "report" | "pickup" | "dropoff" => "a, b and c",
        _ => "a alone",
    }
}

/// What would be right.
fn rule(alloc: Global, table: InputTable, wrong: &Wrong) -> Result<String, AllocError> {
    let text = match wrong {
        Wrong::Number { column } => {
            let name = table.column_name(*column);
            let greatest = table.greatest(*column);
            return format!(in alloc; "{name} is a whole number from 0 to {greatest}");
        }
        Wrong::UnknownCommand => {
            let names = listed(alloc, &COMMANDS)?;
            return format!(in alloc; "the commands are {names}");
        }
        Wrong::FieldCount => "a row has as many fields as the header",
        Wrong::StreetTooLong => "seconds are 0 to 10000",
        Wrong::TooManyNodes => "a network has at most 100000 nodes",
        Wrong::Seats => "seats are 1 to 10",
        Wrong::UnknownNode => "the node is not in the network",
        Wrong::RepeatedVehicle => "each vehicle has one row",
        Wrong::Lane => "lanes are 0 to 15",
        Wrong::RoundBack => "rounds never go back",
        Wrong::Party => "a party is 1 to 6",
        Wrong::ExtraField => "fields that the command does not use must be empty",
        Wrong::SealLane => "a seal stands in lane 0",
        Wrong::TooLong => "a row has at most 65536 bytes",
    };
    String::from_str(alloc, text)
}
