ghost use Rattle.std.specs.Prelude.{◌≡◌, ◌≢◌, ◌↔◌, ℕ, ◌+◌, ◌*◌, ◌^◌, ◌<◌, ◌≤◌, ◌==◌, ◌++◌, ◌∷◌, [], List, Ok, Err, IsTrue, length, map, slice_index_or, IfOk, IfErr, OnOk, MatchBool};
ghost use Rattle.std.specs.List.{slice_split};
ghost use Rattle.csv.specs.Records.{fields_of};
ghost use Rattle.pool_io.specs.Table.{table_of};
ghost use Rattle.pool_io.specs.lemmas.Records.{header_fields, records_of, even_rows};
ghost use Rattle.pool_io.specs.work.Cutting.{AreEnds, cut_fields};
ghost use Rattle.pool_io.specs.work.Progress.{HasRead};

use crate::table::Rows;
use csv::{ByteRecord, Reader, ReaderBuilder};
use std::alloc::{AllocError, Global};

/// Why bytes are no rows under a header.
#[derive(Clone, Copy)]
pub enum RowFault {
    /// The first record isn't the header; it has so many fields, 0 where there is no record.
    Header { fields: u64 },
    /// This row, from 1, is the first with another number of fields.
    UnequalLength { row: u64 },
    /// There was no memory.
    OutOfMemory,
}

// The fields of a header line.
fn words_of(alloc: Global, header: &[u8]) -> Result<Vec<&[u8]>, AllocError>
    ensures { IfOk result (λ words. map (λ word. word.now) words.items ≡ header_fields header.now) }
{
    header.split(|byte| *byte == b',').collect(alloc)
}

// A reader of all records. It takes records of any length, so that the first of another length can be
// refused with the number of its row.
fn reader_of(alloc: Global, bytes: &[u8]) -> Reader<&[u8]>
    ensures { HasRead bytes.now [] result }
{
    ReaderBuilder::new()
        .has_headers(false)
        .flexible(true)
        .from_reader(alloc, bytes)
}

// Reads the next record. In memory nothing but want of memory can fail, so each failure is answered so.
fn read_next(reader: &mut Reader<&[u8]>, row: &mut ByteRecord) -> Result<bool, RowFault>
    ensures next { IfOk result (λ found. (bytes : List ℕ) (rows : List (List (List ℕ)))
        → HasRead bytes rows reader.old
        → MatchBool found (HasRead bytes (rows ++ fields_of row.new ∷ []) reader.new)
        (records_of bytes ≡ rows)) }
    ensures no_memory { IfErr result (λ fault. fault ≡ RowFault.OutOfMemory) }
{
    let Ok(found) = reader.read_byte_record(row) else {
        return Err(RowFault::OutOfMemory);
    };
    Ok(found)
}

// Whether the field at this place is the word.
fn is_field(row: &ByteRecord, place: usize, word: &[u8]) -> bool
    requires { place < length (fields_of row.now) }
    ensures { IsTrue result ↔ (slice_index_or (fields_of row.now) place [] ≡ word.now) }
{
    match row.get(place) {
        Some(field) => field == word,
        None => false,
    }
}

// Whether a record's fields are these words.
fn is_header(row: &ByteRecord, words: &[&[u8]]) -> bool
    ensures { IsTrue result ↔ (fields_of row.now ≡ map (λ word. word.now) words.now) }
{
    if row.len() != words.len() {
        return false;
    }
    for place in 0..words.len() {
        if !is_field(row, place, words[place]) {
            return false;
        }
    }
    true
}

// Adds a record's fields to a buffer, and to the list of their ends.
fn append_fields(
    bytes: &mut Vec<u8>,
    ends: &mut Vec<usize>,
    row: &ByteRecord,
) -> Result<(), RowFault>
    requires { AreEnds 0 ends.old.items (length bytes.old.items) }
    ensures added { OnOk result (cut_fields 0 ends.new.items bytes.new.items ≡ cut_fields 0 ends.old.items bytes.old.items ++ fields_of row.now) }
    ensures ends { OnOk result (AreEnds 0 ends.new.items (length bytes.new.items)) }
    ensures small { OnOk result (length ends.new.items < 2 ^ 64) }
    ensures no_memory { IfErr result (λ fault. fault ≡ RowFault.OutOfMemory) }
{
    for place in 0..row.len() {
        let field = row.get(place).unwrap();
        if bytes.extend_from_slice(field).is_err() || ends.push(bytes.len()).is_err() {
            return Err(RowFault::OutOfMemory);
        }
    }
    // A length is a `usize`, so the fields can be counted.
    let _count = ends.len();
    Ok(())
}

// The rows after the first record, each of so many fields.
fn rows_after(alloc: Global, reader: &mut Reader<&[u8]>, columns: usize) -> Result<Rows, RowFault>
    ensures columns { IfOk result (λ table. table.columns ≡ columns) }
    ensures table { IfOk result (λ table. (bytes : List ℕ) (first : List (List ℕ))
        → HasRead bytes (first ∷ []) reader.old
        → (rows : List (List (List ℕ))) × (records_of bytes ≡ first ∷ rows)
        × (even_rows columns rows ≡ Ok table)) }
    ensures refused { IfErr result (λ fault. fault ≢ RowFault.OutOfMemory
        → (bytes : List ℕ) (first : List (List ℕ)) → HasRead bytes (first ∷ []) reader.old
        → (rows : List (List (List ℕ))) × (records_of bytes ≡ first ∷ rows)
        × (even_rows columns rows ≡ Err fault)) }
{
    let mut row = ByteRecord::new(alloc);
    let mut bytes = Vec::new(alloc);
    let mut ends = Vec::new(alloc);
    'records: for count in 0..u64::MAX {
        let found = read_next(reader, &mut row)?;
        if !found {
            return Ok(Rows::of(columns, count as usize, bytes, ends));
        }
        if row.len() != columns {
            return Err(RowFault::UnequalLength { row: count + 1 });
        }
        append_fields(&mut bytes, &mut ends, &row)?;
    }
    Err(RowFault::OutOfMemory)
}

/// The rows under a header, as the `csv` crate reads records with its defaults.
///
/// The header is its fields between commas; the first record must have as many fields, each equal to it
/// byte for byte, and every later record must have as many. Linear in the bytes.
pub fn rows(alloc: Global, bytes: &[u8], header: &[u8]) -> Result<Rows, RowFault>
    ensures columns { IfOk result (λ table. table.columns ≡ length (slice_split (λ byte. byte == 44) header.now)) }
    ensures table { IfOk result (λ table. table_of header.now bytes.now ≡ Ok table) }
    ensures refused { IfErr result
        (λ fault. fault ≢ RowFault.OutOfMemory → table_of header.now bytes.now ≡ Err fault) }
{
    let Ok(words) = words_of(alloc, header) else {
        return Err(RowFault::OutOfMemory);
    };
    let mut reader = reader_of(alloc, bytes);
    let mut row = ByteRecord::new(alloc);
    let found = read_next(&mut reader, &mut row)?;
    if !found {
        return Err(RowFault::Header { fields: 0 });
    }
    if !is_header(&row, words.as_slice()) {
        return Err(RowFault::Header {
            fields: row.len() as u64,
        });
    }
    rows_after(alloc, &mut reader, words.len())
}
