//! Calls of widths: texts wrapped for a screen, and how wide pictures are.

ghost use Rattle.std.specs.Prelude.{◌≡◌, ◌≤◌, ◌↔◌, IsTrue, chars};
ghost use Rattle.tabled_width.specs.Pieces.{widest_word};

use std::alloc::{AllocError, Global};
use std::io::{self, Write};
use tabled_draw::{Drawing, Look, Markdown, Style, column_widths, width_of_columns};
use tabled_table::Table;
use tabled_width::{Pieces, columns_of, lines_fit, widest_piece, widest_word, wrap};

/// A text in lines of at most so many columns, or of its widest piece where that takes more.
pub fn on_screen(alloc: Global, text: &str, columns: usize) -> Result<String, AllocError> {
    if lines_fit(text, columns) {
        return String::from_str(alloc, text);
    }
    wrap(alloc, text, columns.max(widest_piece(text)), true)
}

/// Says whether each word of a text has room in so many columns.
pub fn has_room_for_words(text: &str, columns: usize) -> bool
    ensures { IsTrue result ↔ (widest_word (chars text.now) ≤ columns) }
{
    widest_word(text) <= columns
}

/// The pieces of a text that take several columns.
pub fn wide_pieces<'a>(alloc: Global, text: &'a str) -> Result<Vec<&'a str>, AllocError> {
    let mut wide = Vec::new(alloc);
    for piece in Pieces::new(text) {
        if columns_of(piece) > 1 {
            wide.push(piece)?;
        }
    }
    Ok(wide)
}

/// The columns that a table's picture takes if one of its columns is left out.
pub fn without_a_column(
    alloc: Global,
    table: &Table,
    style: &Style,
    column: usize,
) -> Result<usize, AllocError> {
    let mut widths = column_widths(alloc, table.get_records(), table.get_config(), style)?;
    if column < widths.len() {
        widths.remove(column);
    }
    width_of_columns(style.columns, &widths)
}

/// Writes a table's picture where it is no wider than a page, and else the table as Markdown. All memory is asked for
/// before the first byte.
pub fn for_a_page<W: Write>(
    alloc: Global,
    writer: &mut W,
    table: &Table,
    columns: usize,
) -> io::Result<()> {
    let look = Look::new(Style::modern());
    let (picture, width) = Drawing::with_width(
        alloc,
        table.get_records(),
        table.get_config(),
        &look,
    )?;
    if width <= columns {
        return picture.write(writer);
    }
    Markdown::new(alloc, table.get_records(), table.get_config(), &[])?.write(writer)
}
