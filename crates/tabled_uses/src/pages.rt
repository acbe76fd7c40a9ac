//! Calls of tables as HTML: in a page of their own, and as elements that are read as the table.

ghost use Rattle.std.specs.Io.KnownBytes.{Appends};
ghost use Rattle.std.specs.Prelude.{◌≡◌, Err, IfOk, List, OnOk, Some, ℕ};
ghost use Rattle.tabled_grid.specs.Grid.{map_grid};
ghost use Rattle.tabled_html.specs.Elements.{html};
ghost use Rattle.tabled_html.specs.Looks.{plain_look};
ghost use Rattle.tabled_html.specs.declared.fault.WriteError.TheVariants.{OutOfMemory};
ghost use Rattle.tabled_html_reading.specs.Building.{parsed, read_text};
ghost use Rattle.tabled_html_reading.specs.Escaping.{HasNoNul, escaped};

use std::alloc::Global;
use std::io::Write;
use tabled_grid::config::SpannedConfig;
use tabled_grid::records::{CellText, ExactRecords, PeekableRecords, Records};
use tabled_html::laws::{written_bytes_show_the_grid, written_rows_form_the_grid};
use tabled_html::{Alignment, Page, WriteError, write, write_with};
use tabled_html_elements::{ReadError, read};
use tabled_html_reading::laws::{
    definitions_have_these_examples, escaped_texts_are_read_back, odd_tables_are_read_as_others_do,
    rows_of_a_tiling_form_it, written_elements_are_read_back,
};
use tabled_table::Table;

/// Writes a table of names and numbers as a page of its own, whose first row is its header.
pub fn as_a_page<W: Write>(
    alloc: Global,
    writer: &mut W,
    table: &Table,
    caption: &str,
) -> Result<(), WriteError>
    ensures { result ≡ Err OutOfMemory → W.contents writer.new ≡ W.contents writer.old }
{
    let alignments = [Alignment::Left, Alignment::Right];
    let page = Page::new()
        .class("sales")
        .header(1)
        .caption(caption)
        .alignments(&alignments)
        .whole();
    write_with(
        alloc,
        writer,
        table.get_records(),
        table.get_config(),
        &page,
    )
}

/// Writes a table as HTML.
pub fn as_html<W, R>(
    alloc: Global,
    writer: &mut W,
    records: &R,
    cfg: &SpannedConfig,
) -> Result<(), WriteError>
where
    W: Write,
    R: Records + ExactRecords + PeekableRecords,
    R::Cell: CellText,
    requires well { R.is_well_formed records.now }
    ensures written { OnOk result (
        Appends (W.contents writer.old) (W.contents writer.new) (html (map_grid R.Cell.text_of (R.grid records.now)) cfg.now plain_look)) }
{
    write(alloc, writer, records, cfg)
}

/// Reads the elements of a table.
pub fn elements_of(alloc: Global, bytes: &[u8]) -> Result<tabled_html_elements::Table, ReadError>
    ensures { IfOk result (λ table. parsed bytes.now ≡ Some table) }
{
    read(alloc, bytes)
}

/// What is read of an escaped text in a cell, where it has no U+0000.
pub fn is_read_as_it_was()
    ensures { (text : List ℕ) → HasNoNul text → read_text (escaped text) ≡ Some text }
{
    escaped_texts_are_read_back();
}

/// Calls the other laws of how HTML is read.
pub fn knows_what_is_read() {
    definitions_have_these_examples();
    odd_tables_are_read_as_others_do();
    rows_of_a_tiling_form_it();
    written_elements_are_read_back();
    written_bytes_show_the_grid();
    written_rows_form_the_grid();
}
