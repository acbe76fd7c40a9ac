//! Which pieces of lines stay.

ghost use Rattle.std.specs.Prelude.{◌≡◌, ◌*◌, ◌<◌, ◌≤◌, IfOk, IsFalse, IsTrue};
ghost use Rattle.std.specs.Int.{div_ceil};
ghost use Rattle.tabled_grid.specs.Along.{count_along};
ghost use Rattle.tabled_grid.specs.Axis.{across};
ghost use Rattle.tabled_grid.specs.Grid.{map_grid};
ghost use Rattle.tabled_settings.specs.PiecePlaces.{clean_pieces};
ghost use Rattle.tabled_settings.specs.Pieces.{clean_split, stays_in};
ghost use Rattle.tabled_settings.specs.PieceTexts.{NoText, SomeText};

use std::alloc::{AllocError, Global};
use std::ops::Range;
use tabled_grid::records::{Axis, CellText, ExactRecords, LinePieces, PeekableRecords, Records};

/// Which pieces of lines stay that are to be cut, in order: the first one of each line, and of the others
/// those with a text.
pub(crate) fn staying_pieces<R>(
    alloc: Global,
    records: &R,
    pieces: &LinePieces,
) -> Result<Vec<usize>, AllocError>
where
    R: Records + ExactRecords + PeekableRecords,
    R::Cell: CellText,
    requires well { R.is_well_formed records.now }
    requires lines { pieces.now.lines ≡ count_along pieces.now.axis (R.grid records.now) }
    requires width { pieces.now.width ≡ count_along (across pieces.now.axis) (R.grid records.now) }
    ensures { IfOk result (λ staying. staying.items ≡ clean_pieces pieces.now (map_grid R.Cell.text_of (R.grid records.now))) }
{
    let mut staying = Vec::new(alloc);
    for nth in 0..pieces.lines * pieces.pieces {
        if stays(records, pieces, nth) {
            staying.push(nth)?;
        }
    }
    Ok(staying)
}

/// Whether a piece stays.
fn stays<R>(records: &R, pieces: &LinePieces, nth: usize) -> bool
where
    R: Records + ExactRecords + PeekableRecords,
    R::Cell: CellText,
    requires well { R.is_well_formed records.now }
    requires lines { pieces.now.lines ≡ count_along pieces.now.axis (R.grid records.now) }
    requires width { pieces.now.width ≡ count_along (across pieces.now.axis) (R.grid records.now) }
    requires within { nth < pieces.now.lines * pieces.now.pieces }
    ensures { result ≡ stays_in (clean_split pieces.now) (div_ceil pieces.now.width pieces.now.index) (map_grid R.Cell.text_of (R.grid records.now)) nth }
{
    let index = pieces.index;
    let (line, number) = pieces.order.nth_piece(pieces.lines, pieces.pieces, nth);
    let start = number * index;
    let end = start + index.min(pieces.width - start);
    number == 0 || has_text(records, pieces.axis, line, start..end)
}

/// Whether some cells of a line have a text.
fn has_text<R>(records: &R, axis: Axis, line: usize, cells: Range<usize>) -> bool
where
    R: Records + ExactRecords + PeekableRecords,
    R::Cell: CellText,
    requires well { R.is_well_formed records.now }
    requires line { line < count_along axis (R.grid records.now) }
    requires cells { cells.end ≤ count_along (across axis) (R.grid records.now) }
    ensures found { IsTrue result → SomeText (map_grid R.Cell.text_of (R.grid records.now)) axis line cells.start cells.end }
    ensures missed { IsFalse result → NoText (map_grid R.Cell.text_of (R.grid records.now)) axis line cells.start cells.end }
{
    for cell in cells.start..cells.end {
        if !records.get_text(axis.place(line, cell)).is_empty() {
            return true;
        }
    }
    false
}
