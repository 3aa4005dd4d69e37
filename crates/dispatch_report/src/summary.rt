ghost use Rattle.std.specs.Prelude.{◌≡◌, ◌≤◌, ◌++◌, ◌∷◌, [], OnOk, codes, length, count_by, sum_by};
ghost use Rattle.std.specs.List.{flat_map, list_any};
ghost use Rattle.dispatch_report.specs.Summary.{answer_text, batch_lines, load_text, summary_text};
ghost use Rattle.dispatch_report.specs.work.Named.{pickups};
ghost use Rattle.dispatch_report.specs.Words.{numbered, signed};
ghost use Rattle.pool_io.specs.Views.{sink_seen};
ghost use Rattle.dispatch_report.specs.Written.{WritesText};
ghost use Rattle.dispatch_report.specs.work.Lines.{WritesLines};

use crate::fault::ReportFault;
use crate::lines::{Line, Page, write_item, write_rest};
use crate::words::{put_fields, put_numbered, put_signed};
use pool_base::{OutOfMemory, RiderId, Sequence, put_bytes};
use pool_io::Sink;
use request_book::{
    Answer, ChosenTrip, Command, Entry, Journal, Outcome, Planned, Reply, TripRowLine,
};
use rider_limits::LoadShape;
use std::alloc::Global;

/// Writes the first line of a made workload's text: its shape.
///
/// After either fault a part of the text was written, from its front and not the whole.
#[tactic(auto, unfolding(crate::specs::Summary::load_text))]
pub fn write_load<K: Sink>(
    alloc: Global,
    sink: &mut K,
    shape: &LoadShape,
) -> Result<(), ReportFault>
    ensures { WritesText (sink_seen K.written K.faults sink.old sink.new) (load_text shape.now) result }
{
    let mut piece = Vec::new(alloc);
    let mut page = Page {
        piece: &mut piece,
        so_far: Ok(()),
    };
    write_item(sink, &mut page, &Shape, shape);
    write_rest(sink, page)
}

/// Writes what a round adds to a made workload's text: for each close that was answered `closed` a line
/// of its batch, with how many riders are served and left out, how many trips there could be and how many
/// are made, the plan's cost and the bound; or that there were too many rows.
///
/// After either fault a part of the text was written, from its front and not the whole.
#[tactic(auto, unfolding(crate::specs::Summary::summary_text))]
pub fn write_summary<K: Sink>(
    alloc: Global,
    sink: &mut K,
    journal: &Journal,
) -> Result<(), ReportFault>
    ensures { WritesText (sink_seen K.written K.faults sink.old sink.new) (summary_text journal.now) result }
{
    let mut piece = Vec::new(alloc);
    let mut page = Page {
        piece: &mut piece,
        so_far: Ok(()),
    };
    write_batches(sink, &mut page, journal.entries.as_slice());
    write_rest(sink, page)
}

fn write_batches<K: Sink>(sink: &mut K, page: &mut Page<'_>, entries: &[Entry])
    ensures { WritesLines (sink_seen K.written K.faults sink.old sink.new) page.old.piece.now.items page.new.piece.now.items page.old.so_far page.new.so_far (flat_map (λ e. batch_lines e.command e.reply) entries.now) }
{
    for entry in entries {
        write_entry_summary(sink, page, entry);
    }
}

fn write_entry_summary<K: Sink>(sink: &mut K, page: &mut Page<'_>, entry: &Entry)
    ensures { WritesLines (sink_seen K.written K.faults sink.old sink.new) page.old.piece.now.items page.new.piece.now.items page.old.so_far page.new.so_far (batch_lines entry.now.command entry.now.reply) }
{
    match &entry.command {
        Command::Close { batch, outcome } => {
            write_closed(sink, page, *batch, outcome, entry.reply);
        }
        _ => {}
    }
}

fn write_closed<K: Sink>(
    sink: &mut K,
    page: &mut Page<'_>,
    batch: u64,
    outcome: &Outcome,
    reply: Reply,
)
    ensures { WritesLines (sink_seen K.written K.faults sink.old sink.new) page.old.piece.now.items page.new.piece.now.items page.old.so_far page.new.so_far (batch_lines (Command.Close batch outcome.now) reply) }
{
    match reply {
        Reply::Closed => write_item(sink, page, &Closed { batch }, &outcome.answer),
        _ => {}
    }
}

/// What came of a batch.
#[derive(Drop)]
struct Closed {
    batch: u64,
}

impl Line for Closed {
    type Item = Answer;

    ghost text = { λ kind answer. numbered (codes "batch ") kind.batch ++ answer_text answer };

    fn put(&self, line: &mut Vec<u8>, answer: &Answer) -> Result<(), OutOfMemory> {
        put_numbered(line, b"batch ", self.batch)?;
        put_answer(line, answer)
    }
}

#[derive(Drop)]
struct Shape;

impl Line for Shape {
    type Item = LoadShape;

    ghost text = { λ _ shape. (numbered (codes "load seed=") shape.seed ++ numbered (codes " side=") shape.side) ++ (numbered (codes " vehicles=") shape.vehicles ++ numbered (codes " riders=") shape.riders ++ numbered (codes " rounds=") shape.rounds) };

    fn put(&self, line: &mut Vec<u8>, shape: &LoadShape) -> Result<(), OutOfMemory> {
        put_fields(
            line,
            &[
                (b"load seed=", shape.seed),
                (b" side=", u64::from(shape.side)),
                (b" vehicles=", u64::from(shape.vehicles)),
                (b" riders=", u64::from(shape.riders)),
                (b" rounds=", u64::from(shape.rounds)),
            ],
        )
    }
}

fn put_answer(line: &mut Vec<u8>, answer: &Answer) -> Result<(), OutOfMemory>
    ensures { OnOk result (line.new.items ≡ line.old.items ++ answer_text answer.now) }
{
    match answer {
        Answer::Overflow => put_bytes(line, b" overflow"),
        Answer::Planned(plan) => put_plan(line, plan),
    }
}

fn put_plan(line: &mut Vec<u8>, plan: &Planned) -> Result<(), OutOfMemory>
    ensures { OnOk result (line.new.items ≡ line.old.items ++ ((numbered (codes " served ") (sum_by pickups plan.now.chosen) ++ numbered (codes " out ") (length plan.now.left)) ++ (numbered (codes " rows ") (length plan.now.rows) ++ numbered (codes " trips ") (count_by (λ trip. list_any (λ stop. stop.pick) trip.stops.items) plan.now.chosen)) ++ (numbered (codes " cost ") plan.now.cost ++ signed (codes " bound ") plan.now.bound))) }
{
    put_fields(
        line,
        &[
            (b" served ", served(&plan.chosen)),
            (b" out ", left_count(&plan.left)),
            (b" rows ", row_count(&plan.rows)),
            (b" trips ", trips_with_riders(&plan.chosen)),
            (b" cost ", plan.cost),
        ],
    )?;
    put_signed(line, b" bound ", &plan.bound)
}

fn left_count(riders: &Sequence<RiderId>) -> u64
    ensures { result ≡ length riders.now }
{
    riders.len() as u64
}

fn row_count(rows: &Sequence<TripRowLine>) -> u64
    ensures { result ≡ length rows.now }
{
    rows.len() as u64
}

/// How many riders the trips pick up.
fn served(trips: &Sequence<ChosenTrip>) -> u64
    ensures { result ≡ sum_by pickups trips.now }
{
    pickups_of(trips.as_slice())
}

fn pickups_of(trips: &[ChosenTrip]) -> u64
    ensures { result ≡ sum_by pickups trips.now }
{
    let mut riders = 0;
    for trip in trips {
        riders += pickups(trip);
    }
    riders
}

fn pickups(trip: &ChosenTrip) -> u64
    ensures count { result ≡ pickups trip.now }
    ensures few { result ≤ 22 }
{
    trip.stops.iter().filter(|stop| stop.pick).count() as u64
}

/// How many of the trips pick a rider up.
fn trips_with_riders(trips: &Sequence<ChosenTrip>) -> u64
    ensures { result ≡ count_by (λ trip. list_any (λ stop. stop.pick) trip.stops.items) trips.now }
{
    count_with_riders(trips.as_slice()) as u64
}

fn count_with_riders(trips: &[ChosenTrip]) -> usize
    ensures { result ≡ count_by (λ trip. list_any (λ stop. stop.pick) trip.stops.items) trips.now }
{
    trips.iter().filter(|trip| has_pickup(trip)).count()
}

fn has_pickup(trip: &ChosenTrip) -> bool
    ensures { result ≡ list_any (λ stop. stop.pick) trip.now.stops.items }
{
    trip.stops.iter().any(|stop| stop.pick)
}
