//! HTML, written.

ghost use Rattle.std.specs.Borrow.{Bor};
ghost use Rattle.std.specs.Io.KnownBytes.{Appends};
ghost use Rattle.std.specs.List.{flat_map, list_all};
ghost use Rattle.std.specs.Option.{option_map};
ghost use Rattle.std.specs.Prelude.{◌≡◌, Err, List, OnOk, Some, ℕ};
ghost use Rattle.tabled_held.specs.Pens.{Sends};
ghost use Rattle.tabled_held.specs.Sent.{IsCutShort};
ghost use Rattle.tabled_html.specs.Elements.{class_attribute, framed, html_of, page_end, page_start, table};
ghost use Rattle.tabled_html.specs.Ends.{AreEnds};
ghost use Rattle.tabled_html.specs.Laws.{OnFailed, ShowsCells};
ghost use Rattle.tabled_html.specs.Looks.{plain_look};
ghost use Rattle.tabled_html.specs.declared.fault.WriteError.TheVariants.{OutOfMemory};
ghost use Rattle.tabled_html_reading.specs.Bytes.{attribute_bytes, caption_bytes, table_bytes};
ghost use Rattle.tabled_html_reading.specs.Characters.{is_plain};

use crate::cells::write_text;
use crate::fault::WriteError;
use crate::limits::spans_written;
use crate::page::Page;
use crate::sheet::Sheet;
use std::alloc::Global;
use std::io::Write;
use tabled_grid::config::SpannedConfig;
use tabled_grid::records::{CellText, ExactRecords, PeekableRecords, Records};
use tabled_held::{Held, Pen};

/// Says whether a value stands for itself between quotes.
fn is_plain(value: &[u8]) -> bool
    ensures { result ≡ list_all is_plain value.now }
{
    value
        .iter()
        .all(|byte| !matches!(*byte, b'"' | b'&' | b'\r' | 0))
}

/// Writes the attribute of a class that stands for itself between quotes.
fn write_class_name<W: Write>(pen: &mut Pen<'_, W>, class: &[u8])
    ensures { Sends W.contents pen.old pen.new (flat_map attribute_bytes (class_attribute (Some class.now))) }
{
    if is_plain(class) {
        pen.send(b" class=\"");
        pen.send(class);
        pen.send_byte(b'"');
    }
}

/// Writes the attribute of a class, if there is one.
fn write_class<W: Write>(pen: &mut Pen<'_, W>, class: Option<&str>)
    ensures { Sends W.contents pen.old pen.new (flat_map attribute_bytes (class_attribute (option_map (λ (text : Bor (List ℕ)). text.now) class.entry))) }
{
    if let Some(class) = class {
        write_class_name(pen, class.as_bytes());
    }
}

/// Writes a caption, if there is one.
fn write_caption<W: Write>(pen: &mut Pen<'_, W>, caption: Option<&str>)
    ensures { Sends W.contents pen.old pen.new (caption_bytes (option_map (λ (text : Bor (List ℕ)). text.now) caption.entry)) }
{
    if let Some(text) = caption {
        pen.send(b"<caption>");
        write_text(pen, text.as_bytes());
        pen.send(b"</caption>\n");
    }
}

/// Writes what stands before the table of a whole page.
fn write_page_start<W: Write>(pen: &mut Pen<'_, W>)
    ensures { Sends W.contents pen.old pen.new page_start }
{
    pen.send(
        b"<!DOCTYPE html>\n<html lang=\"en\">\n<head>\n<meta charset=\"utf-8\">\n<title>Table</title>\n<style>\n:root { color-scheme: light dark }\ntable { border-collapse: collapse }\ncaption { white-space: pre-line }\nth, td { border: 1px solid; padding: 0.2em 0.5em; text-align: left; vertical-align: top; white-space: pre-line }\n</style>\n</head>\n<body>\n",
    );
}

/// Writes what stands behind it.
fn write_page_end<W: Write>(pen: &mut Pen<'_, W>)
    ensures { Sends W.contents pen.old pen.new page_end }
{
    pen.send(b"</body>\n</html>\n");
}

impl<'a, R> Sheet<'a, R>
where
    R: Records + ExactRecords + PeekableRecords,
    R::Cell: CellText,
{
    /// Writes a table.
    fn write_table<W: Write>(&self, pen: &mut Pen<'_, W>, ends: &mut [usize])
        requires { AreEnds self.now 0 0 ends.old }
        ensures { Sends W.contents pen.old pen.new (table_bytes (table self.now)) }
    {
        pen.send(b"<table");
        write_class(pen, self.page.class_text());
        pen.send(b">\n");
        write_caption(pen, self.page.caption_text());
        self.write_groups(pen, ends);
        pen.send(b"</table>\n");
    }

    /// Writes a table, or the page that it stands in.
    fn write_page<W: Write>(&self, pen: &mut Pen<'_, W>, ends: &mut [usize])
        requires { AreEnds self.now 0 0 ends.old }
        ensures { Sends W.contents pen.old pen.new (framed self.now.look.is_whole (table_bytes (table self.now))) }
    {
        if self.page.is_whole() {
            write_page_start(pen);
            self.write_table(pen, ends);
            write_page_end(pen);
            return;
        }
        self.write_table(pen, ends);
    }
}

/// Writes a table (`r x c`) as HTML: a `table` with a `tr` for each row and a `td` for each cell where it begins, with
/// `colspan` and `rowspan` of merged cells. Rectangles that don't fit the table, or that take more than 1000 columns or
/// 65,534 rows, which the standard doesn't take, count as single cells.
///
/// Its texts stand for themselves, but for U+0000, which HTML has no way to write: U+FFFD is shown for it.
///
/// All memory is asked for before the first byte is written: refused, the writer got none. Where the writer fails, it got
/// the first bytes, and not all. It doesn't flush the writer.
///
/// Of this project.
pub fn write<W, R>(
    alloc: Global,
    writer: &mut W,
    records: &R,
    cfg: &SpannedConfig,
) -> Result<(), WriteError>
where
    W: Write,
    R: Records + ExactRecords + PeekableRecords,
    R::Cell: CellText,
    requires well { R.is_well_formed records.now }
    ensures written { OnOk result (Appends (W.contents writer.old) (W.contents writer.new) (html_of R.Cell.text_of (R.grid records.now) cfg.now plain_look)) }

    // What is written is read as elements that form the grid.
    ensures shows { OnOk result (ShowsCells R.Cell.text_of (R.grid records.now) cfg.now plain_look) }

    // Where memory is refused the writer got nothing, and where it failed the first bytes, and not all.
    ensures memory { result ≡ Err OutOfMemory → W.contents writer.new ≡ W.contents writer.old }
    ensures failed { OnFailed result (IsCutShort (W.contents writer.old) (W.contents writer.new) (html_of R.Cell.text_of (R.grid records.now) cfg.now plain_look)) }
{
    let page = Page::new();
    write_with(alloc, writer, records, cfg, &page)
}

/// Writes a table (`r x c`) as HTML, as `write` does, with the class, the header, the caption and the alignments of a page,
/// and as a whole page if it is one. A header cell is a `th`.
///
/// Of this project.
pub fn write_with<W, R>(
    alloc: Global,
    writer: &mut W,
    records: &R,
    cfg: &SpannedConfig,
    page: &Page<'_>,
) -> Result<(), WriteError>
where
    W: Write,
    R: Records + ExactRecords + PeekableRecords,
    R::Cell: CellText,
    requires well { R.is_well_formed records.now }
    ensures written { OnOk result (Appends (W.contents writer.old) (W.contents writer.new) (html_of R.Cell.text_of (R.grid records.now) cfg.now page.now)) }

    // The table that is written is read as elements that form the grid.
    ensures shows { OnOk result (ShowsCells R.Cell.text_of (R.grid records.now) cfg.now page.now) }

    // Where memory is refused the writer got nothing, and where it failed the first bytes, and not all.
    ensures memory { result ≡ Err OutOfMemory → W.contents writer.new ≡ W.contents writer.old }
    ensures failed { OnFailed result (IsCutShort (W.contents writer.old) (W.contents writer.new) (html_of R.Cell.text_of (R.grid records.now) cfg.now page.now)) }
{
    let rows = records.count_rows();
    let columns = records.count_columns();
    let spans = spans_written(alloc, cfg, rows, columns)?;
    let mut ends = vec![in alloc; 0; columns]?;
    let held = Held::new(alloc)?;
    let mut pen = Pen::new(writer, held);
    let sheet = Sheet {
        records,
        spans,
        page,
    };
    sheet.write_page(&mut pen, &mut ends);
    let (written, outcome) = pen.finish();
    // No effect: the proof reads here what the writer got.
    let _ = &*written;
    match outcome {
        Ok(()) => Ok(()),
        Err(error) => Err(WriteError::Failed(error)),
    }
}
