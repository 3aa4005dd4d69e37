ghost use Rattle.std.specs.Prelude.{◌≡◌, ◌++◌, OnOk, codes};
ghost use Rattle.std.specs.List.{flat_map};
ghost use Rattle.dispatch_report.specs.Words.{numbered, signed, spaced};

use pool_base::{OutOfMemory, RiderId, put_bytes, put_number, put_signed as put_signed_number};

/// Appends words and a number.
#[tactic(auto, unfolding(crate::specs::Words::numbered))]
pub(crate) fn put_numbered(line: &mut Vec<u8>, words: &[u8], n: u64) -> Result<(), OutOfMemory>
    ensures { OnOk result (line.new.items ≡ line.old.items ++ numbered words.now n) }
{
    put_bytes(line, words)?;
    put_number(line, n)
}

/// Appends words and a signed number.
#[tactic(auto, unfolding(crate::specs::Words::signed))]
pub(crate) fn put_signed(line: &mut Vec<u8>, words: &[u8], n: &i128) -> Result<(), OutOfMemory>
    ensures { OnOk result (line.new.items ≡ line.old.items ++ signed words.now n.now) }
{
    put_bytes(line, words)?;
    put_signed_number(line, *n)
}

/// Appends words and a number each.
pub(crate) fn put_fields(line: &mut Vec<u8>, fields: &[(&[u8], u64)]) -> Result<(), OutOfMemory>
    ensures { OnOk result (line.new.items ≡ line.old.items ++ flat_map (λ f. numbered f.0.now f.1) fields.now) }
{
    for field in fields {
        put_numbered(line, field.0, field.1)?;
    }
    Ok(())
}

/// Appends a space and a number.
pub(crate) fn put_spaced(line: &mut Vec<u8>, n: u64) -> Result<(), OutOfMemory>
    ensures { OnOk result (line.new.items ≡ line.old.items ++ spaced n) }
{
    put_numbered(line, b" ", n)
}

/// Appends each rider's id after a space.
pub(crate) fn put_riders(line: &mut Vec<u8>, riders: &[RiderId]) -> Result<(), OutOfMemory>
    ensures { OnOk result (line.new.items ≡ line.old.items ++ flat_map spaced riders.now) }
{
    for rider in riders {
        put_spaced(line, u64::from(rider.get()))?;
    }
    Ok(())
}

/// Appends each multiplier after a space.
pub(crate) fn put_multipliers(line: &mut Vec<u8>, multipliers: &[i64]) -> Result<(), OutOfMemory>
    ensures { OnOk result (line.new.items ≡ line.old.items ++ flat_map (signed (codes " ")) multipliers.now) }
{
    for multiplier in multipliers {
        put_multiplier(line, multiplier)?;
    }
    Ok(())
}

fn put_multiplier(line: &mut Vec<u8>, multiplier: &i64) -> Result<(), OutOfMemory>
    ensures { OnOk result (line.new.items ≡ line.old.items ++ signed (codes " ") multiplier.now) }
{
    put_signed(line, b" ", &i128::from(*multiplier))
}
