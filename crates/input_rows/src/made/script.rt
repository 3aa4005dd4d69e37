ghost use Rattle.std.specs.Prelude.{◌≡◌, ◌<◌, ◌≤◌, ◌^◌, ◌++◌, OnOk};
ghost use Rattle.input_rows.specs.made.MadeRow.{csv_line};
ghost use Rattle.input_rows.specs.lemmas.made.Parts.{draws_of, all_reports, other_than, seal_row, reports, submits, script_part};
ghost use Rattle.input_rows.specs.work.made.Written.{Writes};
ghost use Rattle.input_rows.specs.made.Texts.{report_row, submit_row, batch_rows};

use crate::made::draw::{draw, draw_node};
use crate::made::row::{Field, put_row};
use pool_base::OutOfMemory;
use rand_xoshiro::SplitMix64;
use rider_limits::LoadShape;

#[tactic(auto, unfolding(crate::specs::made::Texts::report_row))]
fn put_report(
    text: &mut Vec<u8>,
    rng: &mut SplitMix64,
    shape: &LoadShape,
    k: u64,
    v: u64,
) -> Result<(), OutOfMemory>
    requires { k < 100 }
    ensures { OnOk result (Writes (report_row shape.now k v) text.old.items text.new.items (draws_of rng.old) (draws_of rng.new)) }
{
    let node = draw_node(rng, u64::from(shape.side));
    put_row(
        text,
        &[
            Field::Number(2 * k),
            Field::Number(0),
            Field::Report,
            Field::Number(v),
            Field::Number(node),
            Field::Number(60 * k),
            Field::Empty,
        ],
    )
}

#[tactic(auto, unfolding(crate::specs::lemmas::made::Parts::all_reports))]
fn put_all_reports(
    text: &mut Vec<u8>,
    rng: &mut SplitMix64,
    shape: &LoadShape,
    k: u64,
) -> Result<(), OutOfMemory>
    requires { k < 100 }
    ensures { OnOk result (Writes (all_reports shape.now k) text.old.items text.new.items (draws_of rng.old) (draws_of rng.new)) }
{
    for n in 0..u64::from(shape.vehicles) {
        put_report(text, rng, shape, k, n + 1)?;
    }
    Ok(())
}

#[tactic(auto, unfolding(crate::specs::lemmas::made::Parts::reports))]
fn put_reports(
    text: &mut Vec<u8>,
    rng: &mut SplitMix64,
    shape: &LoadShape,
    k: u64,
) -> Result<(), OutOfMemory>
    requires { k < 100 }
    ensures { OnOk result (Writes (reports shape.now k) text.old.items text.new.items (draws_of rng.old) (draws_of rng.new)) }
{
    if k == 0 {
        return Ok(());
    }
    put_all_reports(text, rng, shape, k)
}

/// The node that a number names, the origin left out.
fn other_than(origin: u64, n: u64) -> u64
    requires { n < 2 ^ 63 }
    ensures { result ≡ other_than origin n }
{
    if n < origin { n } else { n + 1 }
}

#[tactic(auto, unfolding(crate::specs::made::Texts::submit_row))]
fn put_submit(
    text: &mut Vec<u8>,
    rng: &mut SplitMix64,
    shape: &LoadShape,
    k: u64,
    m: u64,
) -> Result<(), OutOfMemory>
    requires batch { k < 100 }
    requires rider { m ≤ 1000 }
    ensures { OnOk result (Writes (submit_row shape.now k m) text.old.items text.new.items (draws_of rng.old) (draws_of rng.new)) }
{
    let side = u64::from(shape.side);
    let origin = draw_node(rng, side);
    let other = draw(rng, side * side - 1);
    let second = draw(rng, 60);
    let destination = other_than(origin, 1 + other);
    put_row(
        text,
        &[
            Field::Number(2 * k),
            Field::Number(1 + m % 3),
            Field::Submit,
            Field::Number(k * u64::from(shape.riders) + m),
            Field::Number(origin),
            Field::Number(destination),
            Field::Number(60 * k + second),
        ],
    )
}

#[tactic(auto, unfolding(crate::specs::lemmas::made::Parts::submits))]
fn put_submits(
    text: &mut Vec<u8>,
    rng: &mut SplitMix64,
    shape: &LoadShape,
    k: u64,
) -> Result<(), OutOfMemory>
    requires { k < 100 }
    ensures { OnOk result (Writes (submits shape.now k) text.old.items text.new.items (draws_of rng.old) (draws_of rng.new)) }
{
    for n in 0..u64::from(shape.riders) {
        put_submit(text, rng, shape, k, n + 1)?;
    }
    Ok(())
}

fn put_seal(text: &mut Vec<u8>, k: u64) -> Result<(), OutOfMemory>
    requires { k < 100 }
    ensures { OnOk result (text.new.items ≡ text.old.items ++ csv_line (seal_row k)) }
{
    put_row(
        text,
        &[
            Field::Number(2 * k + 1),
            Field::Number(0),
            Field::Seal,
            Field::Number(60 * (k + 1)),
            Field::Empty,
            Field::Empty,
            Field::Empty,
        ],
    )
}

fn put_batch(
    text: &mut Vec<u8>,
    rng: &mut SplitMix64,
    shape: &LoadShape,
    k: u64,
) -> Result<(), OutOfMemory>
    requires { k < 100 }
    ensures { OnOk result (Writes (batch_rows shape.now k) text.old.items text.new.items (draws_of rng.old) (draws_of rng.new)) }
{
    put_reports(text, rng, shape, k)?;
    put_submits(text, rng, shape, k)?;
    put_seal(text, k)
}

/// The batches.
#[tactic(auto, unfolding(crate::specs::lemmas::made::Parts::script_part))]
pub(crate) fn put_script(
    text: &mut Vec<u8>,
    rng: &mut SplitMix64,
    shape: &LoadShape,
) -> Result<(), OutOfMemory>
    ensures { OnOk result (Writes (script_part shape.now) text.old.items text.new.items (draws_of rng.old) (draws_of rng.new)) }
{
    for k in 0..u64::from(shape.rounds) {
        put_batch(text, rng, shape, k)?;
    }
    Ok(())
}
