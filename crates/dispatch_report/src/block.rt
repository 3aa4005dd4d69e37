ghost use Rattle.std.specs.Prelude.{◌≡◌, ◌++◌, ◌∷◌, [], List, ℕ, OnOk, map, codes, length, slice_get, unwrap_or, option_map, if◌then◌else◌};
ghost use Rattle.std.specs.List.{flat_map};
ghost use Rattle.dispatch_report.specs.Block.{stop_text, block_line_text, row_as_line, trip_as_line, late_as_line, tree_line, lines_of_answer, block_lines};
ghost use Rattle.dispatch_report.specs.declared.block_line.BlockLine.TheVariants.{Alone, Shared, Move as Moved};
ghost use Rattle.dispatch_report.specs.Words.{numbered, signed};
ghost use Rattle.pool_io.specs.Views.{sink_seen};
ghost use Rattle.dispatch_report.specs.work.Block.{late_order};
ghost use Rattle.dispatch_report.specs.work.Lines.{WritesLines};
ghost use Rattle.request_book.specs.declared.values.outcome.Answer.TheVariants.{Planned as Plan};

use crate::fault::ReportFault;
use crate::lines::{Line, Page, write_item, write_lines, write_list};
use crate::words::{put_fields, put_multipliers, put_numbered, put_riders, put_signed, put_spaced};
use plan_rules::{Node, Tree};
use pool_base::{OutOfMemory, RiderId, VehicleId, put_bytes};
use pool_io::Sink;
use request_book::{
    Answer, ChosenTrip, LateVehicle, MoveLine, Outcome, Planned, PlannedStop, TripRowLine,
};

/// Writes the block of a closed batch.
pub(crate) fn write_block<K: Sink>(
    sink: &mut K,
    page: &mut Page<'_>,
    batch: u64,
    outcome: &Outcome,
    proof: bool,
)
    ensures { WritesLines (sink_seen K.written K.faults sink.old sink.new) page.old.piece.now.items page.new.piece.now.items page.old.so_far page.new.so_far (block_lines proof batch outcome.now) }
{
    write_number(sink, page, b"batch ", batch);
    let expired = Riders { words: b"expired " };
    write_list(sink, page, &expired, &outcome.expired);
    write_answer(sink, page, &outcome.answer, proof);
    write_words(sink, page, b"end");
}

fn write_answer<K: Sink>(sink: &mut K, page: &mut Page<'_>, answer: &Answer, proof: bool)
    ensures { WritesLines (sink_seen K.written K.faults sink.old sink.new) page.old.piece.now.items page.new.piece.now.items page.old.so_far page.new.so_far (map block_line_text (lines_of_answer proof answer.now)) }
{
    match answer {
        Answer::Overflow => write_words(sink, page, b"overflow"),
        Answer::Planned(plan) => write_plan(sink, page, plan, proof),
    }
}

fn write_plan<K: Sink>(sink: &mut K, page: &mut Page<'_>, plan: &Planned, proof: bool)
    ensures { WritesLines (sink_seen K.written K.faults sink.old sink.new) page.old.piece.now.items page.new.piece.now.items page.old.so_far page.new.so_far (map block_line_text (lines_of_answer proof (Plan plan.now))) }
{
    write_list(sink, page, &Riders { words: b"lapsed " }, &plan.lapsed);
    write_list(sink, page, &Late, &plan.late);
    write_list(sink, page, &Rv, &plan.rv);
    write_list(sink, page, &Rr, &plan.rr);
    write_list(sink, page, &TripRow, &plan.rows);
    write_list(sink, page, &Trip, &plan.chosen);
    write_list(sink, page, &Riders { words: b"out " }, &plan.left);
    write_list(sink, page, &Move, &plan.moves);
    write_number(sink, page, b"cost ", plan.cost);
    write_item(sink, page, &Bound, &plan.bound);
    write_nodes(sink, page, &plan.tree);
    write_tree(sink, page, plan, proof);
}

fn write_nodes<K: Sink>(sink: &mut K, page: &mut Page<'_>, tree: &Tree)
    ensures { WritesLines (sink_seen K.written K.faults sink.old sink.new) page.old.piece.now.items page.new.piece.now.items page.old.so_far page.new.so_far (numbered (codes "nodes ") (length tree.now) ∷ []) }
{
    write_number(sink, page, b"nodes ", tree.nodes().len() as u64);
}

fn write_tree<K: Sink>(sink: &mut K, page: &mut Page<'_>, plan: &Planned, proof: bool)
    ensures { WritesLines (sink_seen K.written K.faults sink.old sink.new) page.old.piece.now.items page.new.piece.now.items page.old.so_far page.new.so_far (if proof then map (λ node. block_line_text (tree_line plan.now.rows node)) plan.now.tree else []) }
{
    if proof {
        let rows = plan.rows.as_slice();
        write_lines(sink, page, &TreeNode { rows }, plan.tree.nodes());
    }
}

/// Writes a line of these words.
pub(crate) fn write_words<K: Sink>(sink: &mut K, page: &mut Page<'_>, words: &[u8])
    ensures { WritesLines (sink_seen K.written K.faults sink.old sink.new) page.old.piece.now.items page.new.piece.now.items page.old.so_far page.new.so_far (words.now ∷ []) }
{
    write_item(sink, page, &Words { words }, &());
}

/// Writes a line of words and a number.
pub(crate) fn write_number<K: Sink>(sink: &mut K, page: &mut Page<'_>, words: &[u8], number: u64)
    ensures { WritesLines (sink_seen K.written K.faults sink.old sink.new) page.old.piece.now.items page.new.piece.now.items page.old.so_far page.new.so_far (numbered words.now number ∷ []) }
{
    write_item(sink, page, &Number { words }, &number);
}

/// Words alone.
#[derive(Drop)]
struct Words<'a> {
    words: &'a [u8],
}

impl<'a> Line for Words<'a> {
    type Item = ();

    ghost text = { λ kind _. kind.words.now };

    fn put(&self, line: &mut Vec<u8>, _item: &()) -> Result<(), OutOfMemory> {
        put_bytes(line, self.words)
    }
}

/// Words and a number.
#[derive(Drop)]
struct Number<'a> {
    words: &'a [u8],
}

impl<'a> Line for Number<'a> {
    type Item = u64;

    ghost text = { λ kind number. numbered kind.words.now number };

    fn put(&self, line: &mut Vec<u8>, number: &u64) -> Result<(), OutOfMemory> {
        put_numbered(line, self.words, *number)
    }
}

#[derive(Drop)]
struct Bound;

impl Line for Bound {
    type Item = i128;

    ghost text = { λ _ bound. signed (codes "bound ") bound };

    fn put(&self, line: &mut Vec<u8>, bound: &i128) -> Result<(), OutOfMemory> {
        put_signed(line, b"bound ", bound)
    }
}

/// Riders, each behind the same words.
#[derive(Drop)]
struct Riders<'a> {
    words: &'a [u8],
}

impl<'a> Line for Riders<'a> {
    type Item = RiderId;

    ghost text = { λ kind rider. numbered kind.words.now rider };

    fn put(&self, line: &mut Vec<u8>, rider: &RiderId) -> Result<(), OutOfMemory> {
        put_numbered(line, self.words, u64::from(rider.get()))
    }
}

#[derive(Drop)]
struct Late;

impl Line for Late {
    type Item = LateVehicle;

    ghost text = { λ _ late. block_line_text (late_as_line late) };

    fn put(&self, line: &mut Vec<u8>, late: &LateVehicle) -> Result<(), OutOfMemory> {
        put_numbered(line, b"late ", u64::from(late.vehicle.get()))?;
        put_late_order(line, late)
    }
}

fn put_late_order(line: &mut Vec<u8>, late: &LateVehicle) -> Result<(), OutOfMemory>
    ensures { OnOk result (line.new.items ≡ line.old.items ++ late_order late.now) }
{
    match &late.stops {
        None => put_bytes(line, b" none"),
        Some(stops) => {
            put_spaced(line, late.delay)?;
            put_stops(line, stops.as_slice())
        }
    }
}

#[derive(Drop)]
struct Rv;

impl Line for Rv {
    type Item = (VehicleId, RiderId);

    ghost text = { λ _ edge. block_line_text (Alone edge) };

    fn put(&self, line: &mut Vec<u8>, edge: &(VehicleId, RiderId)) -> Result<(), OutOfMemory> {
        put_fields(
            line,
            &[
                (b"rv ", u64::from(edge.0.get())),
                (b" ", u64::from(edge.1.get())),
            ],
        )
    }
}

#[derive(Drop)]
struct Rr;

impl Line for Rr {
    type Item = (RiderId, RiderId);

    ghost text = { λ _ edge. block_line_text (Shared edge) };

    fn put(&self, line: &mut Vec<u8>, edge: &(RiderId, RiderId)) -> Result<(), OutOfMemory> {
        put_fields(
            line,
            &[
                (b"rr ", u64::from(edge.0.get())),
                (b" ", u64::from(edge.1.get())),
            ],
        )
    }
}

#[derive(Drop)]
struct TripRow;

impl Line for TripRow {
    type Item = TripRowLine;

    ghost text = { λ _ row. block_line_text (row_as_line row) };

    fn put(&self, line: &mut Vec<u8>, row: &TripRowLine) -> Result<(), OutOfMemory> {
        put_numbered(line, b"row ", u64::from(row.vehicle.get()))?;
        put_spaced(line, row.cost)?;
        put_riders(line, row.riders.as_slice())
    }
}

#[derive(Drop)]
struct Trip;

impl Line for Trip {
    type Item = ChosenTrip;

    ghost text = { λ _ trip. block_line_text (trip_as_line trip) };

    fn put(&self, line: &mut Vec<u8>, trip: &ChosenTrip) -> Result<(), OutOfMemory> {
        put_numbered(line, b"trip ", u64::from(trip.vehicle.get()))?;
        put_spaced(line, trip.cost)?;
        put_stops(line, trip.stops.as_slice())
    }
}

#[derive(Drop)]
struct Move;

impl Line for Move {
    type Item = MoveLine;

    ghost text = { λ _ m. block_line_text (Moved m) };

    fn put(&self, line: &mut Vec<u8>, item: &MoveLine) -> Result<(), OutOfMemory> {
        put_fields(
            line,
            &[
                (b"move ", u64::from(item.vehicle.get())),
                (b" ", u64::from(item.rider.get())),
                (b" ", u64::from(item.seconds)),
            ],
        )
    }
}

/// A node of a tree, beside the rows that its branches name.
#[derive(Drop)]
struct TreeNode<'a> {
    rows: &'a [TripRowLine],
}

impl<'a> Line for TreeNode<'a> {
    type Item = Node;

    ghost text = { λ kind node. block_line_text (tree_line kind.rows.now node) };

    fn put(&self, line: &mut Vec<u8>, node: &Node) -> Result<(), OutOfMemory> {
        match node {
            Node::Branch { row, .. } => {
                put_numbered(line, b"branch ", row_vehicle(self.rows, *row))?;
                put_spaced(line, u64::from(*row))
            }
            Node::Leaf { multipliers } => {
                put_bytes(line, b"leaf")?;
                put_multipliers(line, multipliers.as_slice())
            }
            Node::Dead => put_bytes(line, b"dead"),
        }
    }
}

fn row_vehicle(rows: &[TripRowLine], row: u32) -> u64
    ensures { result ≡ unwrap_or (option_map (λ r. r.vehicle) (slice_get rows.now row)) 0 }
{
    match rows.get(row as usize) {
        Some(line) => u64::from(line.vehicle.get()),
        None => 0,
    }
}

fn put_stops(line: &mut Vec<u8>, stops: &[PlannedStop]) -> Result<(), OutOfMemory>
    ensures { OnOk result (line.new.items ≡ line.old.items ++ flat_map stop_text stops.now) }
{
    for stop in stops {
        put_stop(line, stop)?;
    }
    Ok(())
}

fn put_stop(line: &mut Vec<u8>, stop: &PlannedStop) -> Result<(), OutOfMemory>
    ensures { OnOk result (line.new.items ≡ line.old.items ++ stop_text stop.now) }
{
    let words: &[u8] = if stop.pick { b" pick:" } else { b" drop:" };
    put_fields(
        line,
        &[
            (words, u64::from(stop.rider.get())),
            (b"@", u64::from(stop.node.get())),
            (b":", stop.second),
        ],
    )
}
