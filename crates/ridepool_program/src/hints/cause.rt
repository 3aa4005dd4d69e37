//! What is wrong with an input, by the answers of the crates that judge it.

use input_hints::{ArgumentWrong, AuditWrong, DayWrong, Wrong};
use input_rows::{FleetFault, RowRefusal, ScriptFault};
use pool_io::{Input, RowFault};
use report_audit::{AuditFault, point_place};
use rider_limits::WordFault;
use road_network::NetworkFault;
use route_drive::DayFault;

/// What is wrong with one of the three tables.
#[derive(Clone, Copy)]
pub(crate) enum Cause {
    Header,
    TooManyRows,
    /// Rows count from 1 behind the header.
    Row(u64, Wrong),
    /// There was no memory: the input is not to blame.
    None,
}

fn row_cause(fault: &RowFault) -> Cause {
    match fault {
        RowFault::Header { .. } => Cause::Header,
        RowFault::UnequalLength { row } => Cause::Row(*row, Wrong::FieldCount),
        RowFault::OutOfMemory => Cause::None,
    }
}

pub(crate) fn network_cause(fault: &Input<NetworkFault>) -> Cause {
    match fault {
        Input::Rows(fault) => row_cause(fault),
        Input::Own(NetworkFault::TooManyArcs) => Cause::TooManyRows,
        Input::Own(NetworkFault::Number { row, column }) => {
            Cause::Row(*row, Wrong::Number { column: *column })
        }
        Input::Own(NetworkFault::ArcTooLong { row }) => Cause::Row(*row, Wrong::StreetTooLong),
        Input::Own(NetworkFault::TooManyNodes { row }) => Cause::Row(*row, Wrong::TooManyNodes),
        Input::Own(NetworkFault::OutOfMemory) => Cause::None,
    }
}

pub(crate) fn fleet_cause(fault: &Input<FleetFault>) -> Cause {
    match fault {
        Input::Rows(fault) => row_cause(fault),
        Input::Own(FleetFault::TooManyVehicles) => Cause::TooManyRows,
        Input::Own(FleetFault::Number { row, column }) => {
            Cause::Row(*row, Wrong::Number { column: *column })
        }
        Input::Own(FleetFault::Seats { row }) => Cause::Row(*row, Wrong::Seats),
        Input::Own(FleetFault::UnknownNode { row }) => Cause::Row(*row, Wrong::UnknownNode),
        Input::Own(FleetFault::Duplicate { row }) => Cause::Row(*row, Wrong::RepeatedVehicle),
        Input::Own(FleetFault::OutOfMemory) => Cause::None,
    }
}

pub(crate) fn script_cause(fault: &Input<ScriptFault>) -> Cause {
    match fault {
        Input::Rows(fault) => row_cause(fault),
        Input::Own(fault) => own_cause(*fault),
    }
}

fn own_cause(fault: ScriptFault) -> Cause {
    match fault {
        ScriptFault::TooManyRows => Cause::TooManyRows,
        ScriptFault::Number { row, column } => Cause::Row(row, Wrong::Number { column }),
        ScriptFault::LaneRange { row } => Cause::Row(row, Wrong::Lane),
        ScriptFault::RoundBack { row } => Cause::Row(row, Wrong::RoundBack),
        ScriptFault::UnknownCommand { row } => Cause::Row(row, Wrong::UnknownCommand),
        ScriptFault::Party { row } => Cause::Row(row, Wrong::Party),
        ScriptFault::ExtraField { row } => Cause::Row(row, Wrong::ExtraField),
        ScriptFault::SealLane { row } => Cause::Row(row, Wrong::SealLane),
        ScriptFault::OutOfMemory => Cause::None,
    }
}

/// What is wrong with a row that came alone and has this number.
pub(crate) fn refusal_cause(row: u64, refusal: &RowRefusal) -> Cause {
    match refusal {
        RowRefusal::TooLong => Cause::Row(row, Wrong::TooLong),
        RowRefusal::UnequalLength => Cause::Row(row, Wrong::FieldCount),
        RowRefusal::Own(fault) => match own_cause(*fault) {
            Cause::Row(_, wrong) => Cause::Row(row, wrong),
            other => other,
        },
    }
}

/// What is wrong with the arguments, and which is meant, from 1.
pub(crate) fn argument_cause(fault: WordFault) -> (u64, ArgumentWrong) {
    match fault {
        WordFault::NoCommand => (1, ArgumentWrong::NoCommand),
        WordFault::UnknownKey { word } => (word, ArgumentWrong::UnknownKey),
        WordFault::Repeated { word } => (word, ArgumentWrong::Repeated),
        WordFault::BadValue { word } => (word, ArgumentWrong::BadValue),
        WordFault::MissingFile { which } => (1, ArgumentWrong::MissingFile(which.name())),
    }
}

pub(crate) fn day_cause(fault: DayFault) -> DayWrong {
    match fault {
        DayFault::Command { round, lane } => DayWrong::Command {
            round: u64::from(round),
            lane: u64::from(lane),
        },
        DayFault::Seals { round } => DayWrong::Seals {
            round: u64::from(round),
        },
        DayFault::SealBack { round } => DayWrong::SealBack {
            round: u64::from(round),
        },
    }
}

/// The line of a report that is meant, and what is wrong with it; `None` where there was no memory.
pub(crate) fn audit_cause(fault: AuditFault) -> Option<(u64, AuditWrong)> {
    match fault {
        AuditFault::Cut { line } => Some((line, AuditWrong::Cut)),
        AuditFault::Form { line } => Some((line, AuditWrong::Form)),
        AuditFault::Head { line } => Some((line, AuditWrong::Head)),
        AuditFault::Entry { line } => Some((line, AuditWrong::Entry)),
        AuditFault::Batch { line, point } => Some((line, AuditWrong::Batch(point_place(point)))),
        AuditFault::OutOfMemory => None,
    }
}
