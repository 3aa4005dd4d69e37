ghost use Rattle.std.specs.Prelude.{◌≡◌, ◌++◌, OnOk};
ghost use Rattle.input_rows.specs.made.MadeRow.{field_text, csv_line};

use pool_base::{OutOfMemory, put_number};

/// A field of a made row.
#[derive(Clone, Copy)]
pub enum Field {
    Number(u64),
    Report,
    Submit,
    Seal,
    Empty,
}

fn put_field(text: &mut Vec<u8>, field: Field) -> Result<(), OutOfMemory>
    ensures { OnOk result (text.new.items ≡ text.old.items ++ field_text field) }
{
    match field {
        Field::Number(n) => put_number(text, n)?,
        Field::Report => text.extend_from_slice(b"report")?,
        Field::Submit => text.extend_from_slice(b"submit")?,
        Field::Seal => text.extend_from_slice(b"seal")?,
        Field::Empty => {}
    }
    Ok(())
}

/// Appends fields apart by commas, ended by a line feed.
pub(crate) fn put_row(text: &mut Vec<u8>, fields: &[Field]) -> Result<(), OutOfMemory>
    ensures { OnOk result (text.new.items ≡ text.old.items ++ csv_line fields.now) }
{
    for (place, field) in fields.iter().enumerate() {
        put_field(text, *field)?;
        text.push(if place + 1 < fields.len() {
            b','
        } else {
            b'\n'
        })?;
    }
    Ok(())
}
