//! Calls of pictures: tables in a style, with numbers to the right.

ghost use Rattle.std.specs.Prelude.{◌≡◌, [], IfOk, OnOk};
ghost use Rattle.std.specs.Io.KnownBytes.{Appends};
ghost use Rattle.std.specs.String.{string_bytes};
ghost use Rattle.tabled_draw.specs.Markdown.{markdown};
ghost use Rattle.tabled_draw.specs.Picture.{drawn_with};
ghost use Rattle.tabled_grid.specs.Grid.{map_grid};

use std::alloc::{AllocError, Global};
use std::io::{self, Write};
use tabled_draw::{
    Alignment, Drawing, Look, Style, draw_markdown, draw_with, picture_width, picture_with,
};
use tabled_grid::config::SpannedConfig;
use tabled_grid::records::{CellText, ExactRecords, PeekableRecords, Records};
use tabled_table::Table;

/// Writes a table of names and numbers in the style that a user named, or in a modern one.
pub fn in_a_style<W: Write>(
    alloc: Global,
    writer: &mut W,
    table: &Table,
    style: &str,
) -> io::Result<()> {
    let style = Style::named(style).unwrap_or(Style::modern());
    let alignments = [Alignment::left(), Alignment::right()];
    let look = Look::new(style).align(&alignments);
    draw_with(
        alloc,
        writer,
        table.get_records(),
        table.get_config(),
        &look,
    )
}

/// Says whether a table's picture in a style is no wider than a page.
pub fn fits_page(
    alloc: Global,
    table: &Table,
    style: &Style,
    columns: usize,
) -> Result<bool, AllocError> {
    let width = picture_width(alloc, table.get_records(), table.get_config(), style)?;
    Ok(width <= columns)
}

/// Writes a table twice, where all memory is asked for before the first byte.
pub fn twice<W: Write>(alloc: Global, writer: &mut W, table: &Table) -> io::Result<()> {
    let alignments = [Alignment::center()];
    let look = Look::new(Style::psql()).align(&alignments);
    let first = Drawing::with_look(alloc, table.get_records(), table.get_config(), &look)?;
    let second = Drawing::new(alloc, table.get_records(), table.get_config())?;
    first.write(writer)?;
    second.write(writer)
}

/// Writes a table as Markdown, with all texts to the left.
pub fn as_markdown<W, R>(
    alloc: Global,
    writer: &mut W,
    records: &R,
    cfg: &SpannedConfig,
) -> io::Result<()>
where
    W: Write,
    R: Records + ExactRecords + PeekableRecords,
    R::Cell: CellText,
    requires well { R.is_well_formed records.now }
    ensures written { OnOk result (
        Appends (W.contents writer.old) (W.contents writer.new) (markdown [] (map_grid R.Cell.text_of (R.grid records.now)) cfg.now)) }
{
    draw_markdown(alloc, writer, records, cfg, &[])
}

/// A picture in a style, with all texts to the left.
pub fn styled<R>(
    alloc: Global,
    records: &R,
    cfg: &SpannedConfig,
    style: Style,
) -> Result<String, AllocError>
where
    R: Records + ExactRecords + PeekableRecords,
    R::Cell: CellText,
    requires well { R.is_well_formed records.now }
    ensures drawn { IfOk result (λ picture. string_bytes picture ≡ drawn_with style [] (map_grid R.Cell.text_of (R.grid records.now)) cfg.now) }
{
    picture_with(alloc, records, cfg, &Look::new(style))
}
