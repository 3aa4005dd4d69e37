use crate::reading::{Closed, Line, read_line};
use arrayvec::ArrayVec;
use std::alloc::{AllocError, Global};

/// As many bytes of a line are read: no line that counts has more.
const FRONT: usize = 128;

/// How far a run is, by what was written so far.
#[derive(Drop)]
pub(crate) struct Progress {
    /// The front of the line that is begun.
    front: ArrayVec<u8, FRONT>,
    /// The rounds that were run.
    rounds: u64,
    batches: u64,
    last: Option<Closed>,
    /// Of the batch that is being written.
    trip_rows: u64,
    cost: i64,
    /// Whether a round is being run.
    pub(crate) runs: bool,
}

impl Progress {
    pub(crate) fn new() -> Progress {
        Progress {
            front: ArrayVec::new(),
            rounds: 0,
            batches: 0,
            last: None,
            trip_rows: 0,
            cost: 0,
            runs: false,
        }
    }

    /// Reads what was written.
    pub(crate) fn read(&mut self, bytes: &[u8]) {
        for &byte in bytes {
            if byte == b'\n' {
                let line = read_line(&self.front);
                self.front.clear();
                self.note(line);
            } else if !self.front.is_full() {
                self.front.push(byte);
            }
        }
    }

    fn note(&mut self, line: Line) {
        match line {
            Line::HeadEnd => self.runs = true,
            Line::Round => self.end_round(),
            Line::Batch => self.trip_rows = 0,
            Line::TripRow => self.trip_rows = self.trip_rows.saturating_add(1),
            Line::Cost(cost) => self.cost = cost,
            Line::Bound(bound) => self.close(Closed::Planned {
                trip_rows: self.trip_rows,
                gap: self.cost.saturating_sub(bound),
            }),
            Line::Overflow => self.close(Closed::Overflow),
            Line::Summed(closed) => {
                self.end_round();
                self.close(closed);
            }
            Line::Done => self.runs = false,
            Line::Other => {}
        }
    }

    /// Counts a round whose text begins: it was run, since a round is run before it is written.
    fn end_round(&mut self) {
        self.rounds = self.rounds.saturating_add(1);
    }

    fn close(&mut self, closed: Closed) {
        self.batches = self.batches.saturating_add(1);
        self.last = Some(closed);
    }

    /// The line that says how far the run is.
    pub(crate) fn text(&self, alloc: Global) -> Result<String, AllocError> {
        let round = self.rounds.saturating_add(1);
        let batches = self.batches;
        match self.last {
            None => format!(in alloc; "round {round}, batches closed: {batches}"),
            Some(Closed::Overflow) => {
                format!(in alloc; "round {round}, batches closed: {batches}, last: overflow")
            }
            Some(Closed::Planned { trip_rows, gap }) => {
                format!(in alloc;
                    "round {round}, batches closed: {batches}, last: {trip_rows} rows, gap {gap}"
                )
            }
        }
    }
}
