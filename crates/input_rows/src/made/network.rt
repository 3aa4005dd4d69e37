ghost use Rattle.std.specs.Prelude.{◌≡◌, ◌*◌, ◌<◌, ◌≤◌, OnOk};
ghost use Rattle.input_rows.specs.lemmas.made.Parts.{draws_of, arcs_right, arcs_down, arcs_of_row, network_part};
ghost use Rattle.input_rows.specs.work.made.Written.{Writes};
ghost use Rattle.input_rows.specs.made.Texts.{node_id, arcs_between};

use crate::made::draw::draw;
use crate::made::row::{Field, put_row};
use pool_base::OutOfMemory;
use rand_xoshiro::SplitMix64;
use rider_limits::LoadShape;

/// The id of the node in a row and a column, both from 0.
fn node_id(side: u64, i: u64, j: u64) -> u64
    requires side { side ≤ 100 }
    requires row { i < side }
    requires column { j < side }
    ensures { result ≡ node_id side i j }
{
    i * side + j + 1
}

/// Two arcs of one drawn time, there and back.
#[tactic(auto, unfolding(crate::specs::made::Texts::arcs_between))]
fn put_arcs(text: &mut Vec<u8>, rng: &mut SplitMix64, a: u64, b: u64) -> Result<(), OutOfMemory>
    ensures { OnOk result (Writes (arcs_between a b) text.old.items text.new.items (draws_of rng.old) (draws_of rng.new)) }
{
    let seconds = 20 + draw(rng, 41);
    put_row(
        text,
        &[Field::Number(a), Field::Number(b), Field::Number(seconds)],
    )?;
    put_row(
        text,
        &[Field::Number(b), Field::Number(a), Field::Number(seconds)],
    )
}

#[tactic(auto, unfolding(crate::specs::lemmas::made::Parts::arcs_right))]
fn put_right(
    text: &mut Vec<u8>,
    rng: &mut SplitMix64,
    side: u64,
    i: u64,
    j: u64,
) -> Result<(), OutOfMemory>
    requires side { side ≤ 100 }
    requires row { i < side }
    requires column { j < side }
    ensures { OnOk result (Writes (arcs_right side i j) text.old.items text.new.items (draws_of rng.old) (draws_of rng.new)) }
{
    if j + 1 >= side {
        return Ok(());
    }
    put_arcs(text, rng, node_id(side, i, j), node_id(side, i, j + 1))
}

#[tactic(auto, unfolding(crate::specs::lemmas::made::Parts::arcs_down))]
fn put_down(
    text: &mut Vec<u8>,
    rng: &mut SplitMix64,
    side: u64,
    i: u64,
    j: u64,
) -> Result<(), OutOfMemory>
    requires side { side ≤ 100 }
    requires row { i < side }
    requires column { j < side }
    ensures { OnOk result (Writes (arcs_down side i j) text.old.items text.new.items (draws_of rng.old) (draws_of rng.new)) }
{
    if i + 1 >= side {
        return Ok(());
    }
    put_arcs(text, rng, node_id(side, i, j), node_id(side, i + 1, j))
}

#[tactic(auto, unfolding(crate::specs::lemmas::made::Parts::arcs_of_row))]
fn put_row_arcs(
    text: &mut Vec<u8>,
    rng: &mut SplitMix64,
    side: u64,
    i: u64,
) -> Result<(), OutOfMemory>
    requires side { side ≤ 100 }
    requires row { i < side }
    ensures { OnOk result (Writes (arcs_of_row side i) text.old.items text.new.items (draws_of rng.old) (draws_of rng.new)) }
{
    for j in 0..side {
        put_right(text, rng, side, i, j)?;
        put_down(text, rng, side, i, j)?;
    }
    Ok(())
}

/// The arcs of the square.
#[tactic(auto, unfolding(crate::specs::lemmas::made::Parts::network_part))]
pub(crate) fn put_network(
    text: &mut Vec<u8>,
    rng: &mut SplitMix64,
    shape: &LoadShape,
) -> Result<(), OutOfMemory>
    ensures { OnOk result (Writes (network_part shape.now) text.old.items text.new.items (draws_of rng.old) (draws_of rng.new)) }
{
    let side = u64::from(shape.side);
    for i in 0..side {
        put_row_arcs(text, rng, side, i)?;
    }
    Ok(())
}
