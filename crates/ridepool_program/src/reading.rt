//! What a line of a report or a summary says of a batch.

/// What came of a batch.
#[derive(Clone, Copy)]
pub(crate) enum Closed {
    Overflow,
    /// A plan over so many rows, whose cost is so far above its bound.
    Planned { trip_rows: u64, gap: i64 },
}

/// What a line says.
#[derive(Clone, Copy)]
pub(crate) enum Line {
    /// The last before the first round.
    HeadEnd,
    /// A round's text begins.
    Round,
    /// A batch's block begins.
    Batch,
    TripRow,
    Cost(i64),
    Bound(i64),
    Overflow,
    /// A batch in one line, the whole text of its round.
    Summed(Closed),
    Done,
    Other,
}

/// Reads the front of a line.
pub(crate) fn read_line(bytes: &[u8]) -> Line {
    match str::from_utf8(bytes) {
        Ok(text) => line_of(text),
        Err(_) => Line::Other,
    }
}

/// The lines of which the first word says all.
const WORDS: [(&str, Line); 5] = [
    ("fleet", Line::HeadEnd),
    ("load", Line::HeadEnd),
    ("round", Line::Round),
    ("row", Line::TripRow),
    ("done", Line::Done),
];

fn line_of(text: &str) -> Line {
    let Some((word, rest)) = text.split_once(' ') else {
        return if text == "overflow" {
            Line::Overflow
        } else {
            Line::Other
        };
    };
    for (name, line) in &WORDS {
        if *name == word {
            return *line;
        }
    }
    match word {
        "batch" => batch_line(rest),
        "cost" => number(rest).map_or(Line::Other, Line::Cost),
        "bound" => number(rest).map_or(Line::Other, Line::Bound),
        _ => Line::Other,
    }
}

/// What a batch's first line says behind its word: the number alone, or the whole batch.
fn batch_line(rest: &str) -> Line {
    match rest.split_once(' ') {
        None => Line::Batch,
        Some((_, "overflow")) => Line::Summed(Closed::Overflow),
        Some((_, sums)) => planned(sums).map_or(Line::Other, Line::Summed),
    }
}

fn planned(sums: &str) -> Option<Closed> {
    let trip_rows = behind(sums, " rows ")?;
    let cost = behind(sums, " cost ")?;
    let bound = behind(sums, " bound ")?;
    Some(Closed::Planned {
        trip_rows: trip_rows.unsigned_abs(),
        gap: cost.saturating_sub(bound),
    })
}

/// The number that stands behind a name.
fn behind(text: &str, name: &str) -> Option<i64> {
    let (_, rest) = text.split_once(name)?;
    match rest.split_once(' ') {
        Some((word, _)) => number(word),
        None => number(rest),
    }
}

fn number(word: &str) -> Option<i64> {
    word.parse().ok()
}
