//! Texts that are wrapped to the columns that they may have.

ghost use Rattle.std.specs.Prelude.{◌≡◌, ◌<◌, ℕ, IfOk, length, map};
ghost use Rattle.std.specs.String.{string_bytes};
ghost use Rattle.tabled_draw.specs.Each.{each};
ghost use Rattle.tabled_script.specs.InMemory.{grid_of_texts};
ghost use Rattle.tabled_grid.specs.Entity.{place};
ghost use Rattle.tabled_grid.specs.Grid.{IsEven, IsInside, grid_of, map_grid, map_items};
ghost use Rattle.tabled_script.specs.Narrow.{wrapped_at, wrapped_by};
ghost use Rattle.tabled_script.specs.TextRooms.{HasColumns, room_of, wrapped_row};

use std::alloc::{AllocError, Global};
use tabled_draw::{Lines, room};
use tabled_grid::config::{Position, SpannedConfig};
use tabled_grid::records::{Axis, CellText, ExactRecords, PeekableRecords, Records};
use tabled_width::{widest_piece, widest_word, wrap};

/// How many columns each text of a table may have.
#[derive(Clone, Copy)]
pub(crate) enum TextRoom<'a> {
    /// Those of its widest word.
    WidestWord,
    /// Those of its widest piece.
    WidestPiece,
    /// Those of its cell.
    Cell(Columns<'a>),
}

/// The columns of a table.
#[derive(Clone, Copy)]
pub(crate) struct Columns<'a> {
    pub(crate) widths: &'a [usize],
    pub(crate) lines: Lines,
    pub(crate) spans: &'a SpannedConfig,
}

/// The texts of a table, each wrapped between words to the columns that it may have: a piece of more columns
/// stays whole.
pub(crate) fn wrapped_texts<R>(
    alloc: Global,
    records: &R,
    room: &TextRoom<'_>,
) -> Result<Vec<Vec<String>>, AllocError>
where
    R: Records + ExactRecords + PeekableRecords,
    R::Cell: CellText,
    requires well { R.is_well_formed records.now }
    requires columns { HasColumns room.now (R.grid records.now).rows (R.grid records.now).columns }
    ensures texts { IfOk result (λ texts. grid_of_texts (map_items texts.items) ≡ wrapped_by (room_of room.now) (map_grid R.Cell.text_of (R.grid records.now))) }
    ensures even { IfOk result (λ texts. IsEven (grid_of (map_items texts.items))) }
{
    let mut texts = Vec::new(alloc);
    for i in 0..records.count_rows() {
        texts.push(wrapped_row(alloc, records, room, i)?)?;
    }
    Ok(texts)
}

/// The texts of a row.
fn wrapped_row<R>(
    alloc: Global,
    records: &R,
    room: &TextRoom<'_>,
    i: usize,
) -> Result<Vec<String>, AllocError>
where
    R: Records + ExactRecords + PeekableRecords,
    R::Cell: CellText,
    requires well { R.is_well_formed records.now }
    requires row { i < (R.grid records.now).rows }
    requires columns { HasColumns room.now (R.grid records.now).rows (R.grid records.now).columns }
    ensures long { IfOk result (λ row. length row.items ≡ (R.grid records.now).columns) }
    ensures texts { IfOk result (λ row. map string_bytes row.items ≡ wrapped_row (room_of room.now) (map_grid R.Cell.text_of (R.grid records.now)) i) }
{
    let mut row = Vec::new(alloc);
    for j in 0..records.count_columns() {
        row.push(wrapped_at(alloc, records, room, Position { row: i, col: j })?)?;
    }
    Ok(row)
}

/// The text at a place.
fn wrapped_at<R>(
    alloc: Global,
    records: &R,
    room: &TextRoom<'_>,
    pos: Position,
) -> Result<String, AllocError>
where
    R: Records + ExactRecords + PeekableRecords,
    R::Cell: CellText,
    requires well { R.is_well_formed records.now }
    requires inside { IsInside (R.grid records.now) pos }
    requires columns { HasColumns room.now (R.grid records.now).rows (R.grid records.now).columns }
    ensures { IfOk result (λ text. string_bytes text ≡ wrapped_at (room_of room.now) (map_grid R.Cell.text_of (R.grid records.now)) pos) }
{
    let text = records.get_text(pos);
    let columns = room.columns(pos, text)?;
    wrap(alloc, text, columns.max(1), true)
}

impl TextRoom<'_> {
    ghost use Rattle.std.specs.Prelude.{◌≡◌, ◌<◌, ℕ, IfOk};
    ghost use Rattle.tabled_script.specs.TextRooms.{HasColumns, room_of};

    /// How many columns the text at a place may have.
    fn columns(&self, pos: Position, text: &str) -> Result<usize, AllocError>
        requires { (rows columns : ℕ) × HasColumns self.now rows columns × (pos.row < rows) × (pos.col < columns) }
        ensures { IfOk result (λ columns. columns ≡ room_of self.now pos text.now) }
    {
        match self {
            TextRoom::WidestWord => Ok(widest_word(text)),
            TextRoom::WidestPiece => Ok(widest_piece(text)),
            TextRoom::Cell(columns) => columns.room(pos),
        }
    }
}

impl Columns<'_> {
    ghost use Rattle.std.specs.Prelude.{◌≡◌, ◌<◌, ℕ, IfOk};
    ghost use Rattle.tabled_script.specs.TextRooms.{AreColumns, room_in};

    /// The room of the text at a place.
    fn room(&self, pos: Position) -> Result<usize, AllocError>
        requires { (rows columns : ℕ) × AreColumns self.now rows columns × (pos.row < rows) × (pos.col < columns) }
        ensures { IfOk result (λ room. room ≡ room_in self.now pos) }
    {
        let size = self.spans.size(pos);
        room(self.widths, Axis::Columns, self.lines, pos.col, size.width)
    }
}
