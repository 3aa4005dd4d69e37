ghost use Rattle.std.specs.Prelude.{◌≡◌, ◌++◌, ◌∷◌, [], List, ℕ, OnOk, map, MatchResult, Err};
ghost use Rattle.pool_io.specs.Views.{sink_seen};
ghost use Rattle.dispatch_report.specs.work.Lines.{IsSame, WritesBytes, WritesLines};

use crate::fault::ReportFault;
use pool_base::{OutOfMemory, Sequence, put_bytes};
use pool_io::{Sink, write_all};

/// A kind of line, by what it tells.
pub(crate) trait Line {
    type Item;

    ghost text: { Self → Self.Item → List ℕ };

    /// Appends the line of an item, without its end.
    fn put(&self, line: &mut Vec<u8>, item: &Self::Item) -> Result<(), OutOfMemory>
        ensures { OnOk result (line.new.items ≡ line.old.items ++ text self.now item.now) };
}

/// A piece is written as soon as it has so many bytes. No line has as many, so a piece stays below 64 KB.
const FULL: usize = 32_768;

/// What waits for a sink, and what came of the lines so far: behind a fault nothing is written.
#[derive(Drop)]
pub(crate) struct Page<'a> {
    pub(crate) piece: &'a mut Vec<u8>,
    pub(crate) so_far: Result<(), ReportFault>,
}

/// Writes the line of an item.
pub(crate) fn write_item<K: Sink, L: Line>(
    sink: &mut K,
    page: &mut Page<'_>,
    kind: &L,
    item: &L::Item,
)
    ensures { WritesLines (sink_seen K.written K.faults sink.old sink.new) page.old.piece.now.items page.new.piece.now.items page.old.so_far page.new.so_far (L.text kind.now item.now ∷ []) }
{
    if let Ok(()) = page.so_far {
        page.so_far = put_item(sink, page.piece, kind, item);
    }
}

fn put_item<K: Sink, L: Line>(
    sink: &mut K,
    piece: &mut Vec<u8>,
    kind: &L,
    item: &L::Item,
) -> Result<(), ReportFault>
    ensures { WritesBytes (sink_seen K.written K.faults sink.old sink.new) piece.old.items piece.new.items (L.text kind.now item.now ++ 10 ∷ []) result }
{
    kind.put(piece, item)?;
    put_bytes(piece, b"\n")?;
    if piece.len() < FULL {
        return Ok(());
    }
    write_piece(sink, piece)
}

/// Writes the piece and empties it.
fn write_piece<K: Sink>(sink: &mut K, piece: &mut Vec<u8>) -> Result<(), ReportFault>
    ensures bytes { WritesBytes (sink_seen K.written K.faults sink.old sink.new) piece.old.items piece.new.items [] result }
    ensures empty { OnOk result (piece.new.items ≡ []) }
{
    write_all(sink, piece.as_slice())?;
    piece.clear();
    Ok(())
}

/// Writes the last piece.
pub(crate) fn write_rest<K: Sink>(sink: &mut K, page: Page<'_>) -> Result<(), ReportFault>
    ensures { MatchResult page.entry.so_far
        (λ _. (rest : List ℕ) × WritesBytes (sink_seen K.written K.faults sink.old sink.new) page.entry.piece.now.items rest [] result × OnOk result (rest ≡ []))
        (λ fault. IsSame (sink_seen K.written K.faults sink.old sink.new) page.entry.piece.now.items page.entry.piece.now.items × (result ≡ Err fault)) }
{
    match page.so_far {
        Ok(()) => write_piece(sink, page.piece),
        Err(fault) => Err(fault),
    }
}

/// Writes the line of each item.
pub(crate) fn write_lines<K: Sink, L: Line>(
    sink: &mut K,
    page: &mut Page<'_>,
    kind: &L,
    items: &[L::Item],
)
    ensures { WritesLines (sink_seen K.written K.faults sink.old sink.new) page.old.piece.now.items page.new.piece.now.items page.old.so_far page.new.so_far (map (L.text kind.now) items.now) }
{
    'items: for item in items {
        write_item(sink, page, kind, item);
    }
}

/// The same for a list.
pub(crate) fn write_list<K: Sink, L: Line>(
    sink: &mut K,
    page: &mut Page<'_>,
    kind: &L,
    items: &Sequence<L::Item>,
)
    ensures { WritesLines (sink_seen K.written K.faults sink.old sink.new) page.old.piece.now.items page.new.piece.now.items page.old.so_far page.new.so_far (map (L.text kind.now) items.now) }
{
    write_lines(sink, page, kind, items.as_slice());
}
