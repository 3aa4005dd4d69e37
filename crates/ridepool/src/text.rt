ghost use Rattle.std.specs.Prelude.{◌≡◌, ◌++◌, IfOk, codes};
ghost use Rattle.ridepool.specs.Text.{word_text, row_text, network_text, fleet_text, script_text, refused_row_text, at_place, at_row, day_text, audit_text, input_text, status_text};
ghost use Rattle.ridepool.specs.work.Phrase.{phrase_text};

use crate::phrase::{Phrase, put_phrase};
use crate::reading::most_bytes;
use crate::status::RunStatus;
use input_rows::{FleetFault, RowRefusal, ScriptFault};
use pool_base::{OutOfMemory, put_bytes};
use pool_io::{Input, RowFault};
use report_audit::{AuditFault, point_place};
use rider_limits::WordFault;
use road_network::NetworkFault;
use route_drive::DayFault;
use std::alloc::Global;

/// The line that tells why a run ended, without the program's name and without its end; empty where all
/// is done.
pub fn fault_text(alloc: Global, status: &RunStatus) -> Result<Vec<u8>, OutOfMemory>
    ensures { IfOk result (λ text. text.items ≡ status_text status.now) }
{
    let (front, phrase) = status_phrase(status);
    line_of(alloc, front, phrase)
}

/// The line that tells why a row that came alone is refused, without the program's name and without its end.
pub fn refusal_text(alloc: Global, row: u64, refusal: &RowRefusal) -> Result<Vec<u8>, OutOfMemory>
    ensures { IfOk result (λ text. text.items ≡ codes "script: " ++ refused_row_text row refusal.now) }
{
    line_of(alloc, b"script: ", refusal_phrase(row, refusal))
}

/// A line of what it is about and of what it says.
fn line_of(alloc: Global, front: &[u8], phrase: Phrase) -> Result<Vec<u8>, OutOfMemory>
    ensures { IfOk result (λ line. line.items ≡ front.now ++ phrase_text phrase) }
{
    let mut line = Vec::new(alloc);
    put_bytes(&mut line, front)?;
    put_phrase(&mut line, phrase)?;
    Ok(line)
}

fn refusal_phrase(row: u64, refusal: &RowRefusal) -> Phrase
    ensures { phrase_text result ≡ refused_row_text row refusal.now }
{
    match refusal {
        RowRefusal::TooLong => Phrase::Within(b"row ", row, b" is too long"),
        RowRefusal::UnequalLength => row_phrase(RowFault::UnequalLength { row }),
        RowRefusal::Own(fault) => script_phrase(at_row(*fault, row)),
    }
}

// The same fault of another row.
fn at_row(fault: ScriptFault, row: u64) -> ScriptFault
    ensures { result ≡ at_row row fault }
{
    match fault {
        ScriptFault::Number { column, .. } => ScriptFault::Number { row, column },
        ScriptFault::LaneRange { .. } => ScriptFault::LaneRange { row },
        ScriptFault::RoundBack { .. } => ScriptFault::RoundBack { row },
        ScriptFault::UnknownCommand { .. } => ScriptFault::UnknownCommand { row },
        ScriptFault::Party { .. } => ScriptFault::Party { row },
        ScriptFault::ExtraField { .. } => ScriptFault::ExtraField { row },
        ScriptFault::SealLane { .. } => ScriptFault::SealLane { row },
        ScriptFault::TooManyRows => ScriptFault::TooManyRows,
        ScriptFault::OutOfMemory => ScriptFault::OutOfMemory,
    }
}

/// What the line of a status is about, and what it says.
#[tactic(auto, unfolding(crate::specs::Text::longer_than))]
fn status_phrase(status: &RunStatus) -> (&'static [u8], Phrase)
    ensures { result.0.now ++ phrase_text result.1 ≡ status_text status.now }
{
    match status {
        RunStatus::Done => (b"", Phrase::Words(b"")),
        RunStatus::Words(fault) => (b"words: ", word_phrase(*fault)),
        RunStatus::Network(fault) => (b"network: ", network_phrase(fault)),
        RunStatus::Fleet(fault) => (b"fleet: ", fleet_phrase(fault)),
        RunStatus::Script(fault) => (b"script: ", script_input_phrase(fault)),
        RunStatus::LongHeader => {
            let phrase = Phrase::Within(b"longer than ", 65_536, b" bytes");
            (b"script: header: ", phrase)
        }
        RunStatus::TooLong(which) => {
            let phrase = Phrase::Within(b": longer than ", most_bytes(*which), b" bytes");
            (which.name().as_bytes(), phrase)
        }
        RunStatus::ReadFault(which) => (which.name().as_bytes(), Phrase::Words(b": read failed")),
        RunStatus::WriteFault => (b"report: ", Phrase::Words(b"write failed")),
        RunStatus::OutOfMemory => (b"", Phrase::Words(b"out of memory")),
        RunStatus::Day(fault) => (b"script: ", day_phrase(*fault)),
        RunStatus::TooLate { round, .. } => {
            let phrase = Phrase::At(b"script: day too late at round ", u64::from(*round));
            (b"", phrase)
        }
        RunStatus::Report(fault) => (b"report: ", audit_phrase(*fault)),
    }
}

fn word_phrase(fault: WordFault) -> Phrase
    ensures { phrase_text result ≡ word_text fault }
{
    match fault {
        WordFault::NoCommand => Phrase::Words(b"no command"),
        WordFault::UnknownKey { word } => Phrase::At(b"unknown key at word ", word),
        WordFault::Repeated { word } => Phrase::At(b"repeated key at word ", word),
        WordFault::BadValue { word } => Phrase::At(b"bad value at word ", word),
        WordFault::MissingFile { which } => Phrase::Name(b"missing ", which),
    }
}

fn audit_phrase(fault: AuditFault) -> Phrase
    ensures { phrase_text result ≡ audit_text fault }
{
    match fault {
        AuditFault::Cut { line } => Phrase::At(b"cut at line ", line),
        AuditFault::Form { line } => Phrase::At(b"bad form at line ", line),
        AuditFault::Head { line } => Phrase::At(b"wrong head at line ", line),
        AuditFault::Entry { line } => Phrase::At(b"wrong entry at line ", line),
        AuditFault::Batch { line, point } => {
            Phrase::Both(
                b"wrong batch at line ",
                line,
                b" point ",
                point_place(point),
            )
        }
        AuditFault::OutOfMemory => Phrase::Words(b"out of memory"),
    }
}

fn row_phrase(fault: RowFault) -> Phrase
    ensures { phrase_text result ≡ row_text fault }
{
    match fault {
        RowFault::Header { fields } => Phrase::Within(b"wrong header of ", fields, b" fields"),
        RowFault::UnequalLength { row } => Phrase::Within(b"row ", row, b" has another length"),
        RowFault::OutOfMemory => Phrase::Words(b"out of memory"),
    }
}

/// A number that isn't one, by its row and its column.
#[tactic(auto, unfolding(crate::specs::Text::at_place))]
fn place_phrase(row: u64, column: u64) -> Phrase
    ensures { phrase_text result ≡ at_place row column }
{
    Phrase::Both(b"bad number at row ", row, b" column ", column)
}

fn network_phrase(fault: &Input<NetworkFault>) -> Phrase
    ensures { phrase_text result ≡ input_text network_text fault.now }
{
    match fault {
        Input::Rows(fault) => row_phrase(*fault),
        Input::Own(NetworkFault::TooManyArcs) => Phrase::Words(b"more than 400000 arcs"),
        Input::Own(NetworkFault::Number { row, column }) => place_phrase(*row, *column),
        Input::Own(NetworkFault::ArcTooLong { row }) => Phrase::At(b"arc too long at row ", *row),
        Input::Own(NetworkFault::TooManyNodes { row }) => {
            Phrase::At(b"more than 100000 nodes at row ", *row)
        }
        Input::Own(NetworkFault::OutOfMemory) => Phrase::Words(b"out of memory"),
    }
}

fn fleet_phrase(fault: &Input<FleetFault>) -> Phrase
    ensures { phrase_text result ≡ input_text fleet_text fault.now }
{
    match fault {
        Input::Rows(fault) => row_phrase(*fault),
        Input::Own(FleetFault::TooManyVehicles) => Phrase::Words(b"more than 500 vehicles"),
        Input::Own(FleetFault::Number { row, column }) => place_phrase(*row, *column),
        Input::Own(FleetFault::Seats { row }) => Phrase::At(b"bad seats at row ", *row),
        Input::Own(FleetFault::UnknownNode { row }) => Phrase::At(b"unknown node at row ", *row),
        Input::Own(FleetFault::Duplicate { row }) => Phrase::At(b"repeated vehicle at row ", *row),
        Input::Own(FleetFault::OutOfMemory) => Phrase::Words(b"out of memory"),
    }
}

fn script_input_phrase(fault: &Input<ScriptFault>) -> Phrase
    ensures { phrase_text result ≡ input_text script_text fault.now }
{
    match fault {
        Input::Rows(fault) => row_phrase(*fault),
        Input::Own(fault) => script_phrase(*fault),
    }
}

fn script_phrase(fault: ScriptFault) -> Phrase
    ensures { phrase_text result ≡ script_text fault }
{
    match fault {
        ScriptFault::TooManyRows => Phrase::Words(b"more than 200000 rows"),
        ScriptFault::Number { row, column } => place_phrase(row, column),
        ScriptFault::LaneRange { row } => Phrase::At(b"lane above 15 at row ", row),
        ScriptFault::RoundBack { row } => Phrase::At(b"round goes back at row ", row),
        ScriptFault::UnknownCommand { row } => Phrase::At(b"unknown command at row ", row),
        ScriptFault::ExtraField { row } => Phrase::At(b"field not empty at row ", row),
        ScriptFault::SealLane { row } => Phrase::At(b"seal outside lane 0 at row ", row),
        ScriptFault::Party { row } => Phrase::At(b"bad party at row ", row),
        ScriptFault::OutOfMemory => Phrase::Words(b"out of memory"),
    }
}

fn day_phrase(fault: DayFault) -> Phrase
    ensures { phrase_text result ≡ day_text fault }
{
    match fault {
        DayFault::Command { round, lane } => Phrase::Both(
            b"command at round ",
            u64::from(round),
            b" lane ",
            u64::from(lane),
        ),
        DayFault::Seals { round } => Phrase::At(b"seals at round ", u64::from(round)),
        DayFault::SealBack { round } => {
            Phrase::At(b"seal goes back at round ", u64::from(round))
        }
    }
}
