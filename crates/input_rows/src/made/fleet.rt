ghost use Rattle.std.specs.Prelude.{◌≡◌, ◌≤◌, OnOk};
ghost use Rattle.input_rows.specs.lemmas.made.Parts.{draws_of, fleet_part};
ghost use Rattle.input_rows.specs.work.made.Written.{Writes};
ghost use Rattle.input_rows.specs.made.Texts.{vehicle_row};

use crate::made::draw::draw_node;
use crate::made::row::{Field, put_row};
use pool_base::OutOfMemory;
use rand_xoshiro::SplitMix64;
use rider_limits::LoadShape;

#[tactic(auto, unfolding(crate::specs::made::Texts::vehicle_row))]
fn put_vehicle(
    text: &mut Vec<u8>,
    rng: &mut SplitMix64,
    shape: &LoadShape,
    v: u64,
) -> Result<(), OutOfMemory>
    ensures { OnOk result (Writes (vehicle_row shape.now v) text.old.items text.new.items (draws_of rng.old) (draws_of rng.new)) }
{
    let node = draw_node(rng, u64::from(shape.side));
    put_row(
        text,
        &[
            Field::Number(v),
            Field::Number(4),
            Field::Number(node),
            Field::Number(0),
        ],
    )
}

/// The vehicles.
#[tactic(auto, unfolding(crate::specs::lemmas::made::Parts::fleet_part))]
pub(crate) fn put_fleet(
    text: &mut Vec<u8>,
    rng: &mut SplitMix64,
    shape: &LoadShape,
) -> Result<(), OutOfMemory>
    ensures { OnOk result (Writes (fleet_part shape.now) text.old.items text.new.items (draws_of rng.old) (draws_of rng.new)) }
{
    for n in 0..u64::from(shape.vehicles) {
        put_vehicle(text, rng, shape, n + 1)?;
    }
    Ok(())
}
