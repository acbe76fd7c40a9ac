//! CSV, written.

ghost use Rattle.std.specs.Prelude.{◌≡◌, ◌<◌, ◌==◌, ◌∷◌, Err, None, OnOk, drop, length};
ghost use Rattle.std.specs.Io.KnownBytes.{Appends};
ghost use Rattle.std.specs.List.{AllByRecursion};
ghost use Rattle.tabled_csv.specs.Grammar.{quoted};
ghost use Rattle.tabled_texts.specs.Texts.{cells_by, row_at, rows_by};
ghost use Rattle.tabled_csv.specs.Writing.{AreTexts, HaveFields, OnFailed, WrittenMeans, csv_of, field_of, holds_special, others_of, record_of};
ghost use Rattle.tabled_csv.specs.declared.fault.WriteError.TheVariants.{OutOfMemory};
ghost use Rattle.tabled_held.specs.Pens.{Sends};
ghost use Rattle.tabled_held.specs.Sent.{IsCutShort};

use crate::fault::WriteError;
use crate::quoting::{first_is_quoted, holds_special};
use crate::separator::Separator;
use std::alloc::Global;
use std::io::Write;
use tabled_grid::records::{CellText, ExactRecords, PeekableRecords, Records};
use tabled_held::{Held, Pen};
use tabled_texts::{Rows, Stored};

/// Writes a text between quotes.
#[inline(never)]
fn write_quoted<W: Write>(pen: &mut Pen<'_, W>, text: &[u8])
    ensures { Sends W.contents pen.old pen.new (quoted text.now) }
{
    pen.send_byte(b'"');
    let mut written = 0;
    for (i, byte) in text.iter().enumerate() {
        if *byte == b'"' {
            pen.send(&text[written..i + 1]);
            pen.send_byte(b'"');
            written = i + 1;
        }
    }
    pen.send(&text[written..]);
    pen.send_byte(b'"');
}

/// Writes a field, between quotes or not.
#[inline(always)]
fn write_field<W: Write>(pen: &mut Pen<'_, W>, is_quoted: bool, text: &[u8])
    ensures { Sends W.contents pen.old pen.new (field_of is_quoted text.now) }
{
    if is_quoted {
        write_quoted(pen, text);
    } else {
        pen.send(text);
    }
}

/// Writes the fields behind the first one of a record, with the separators before them.
fn write_others<W: Write, R: Rows>(pen: &mut Pen<'_, W>, separator: u8, rows: &R, i: usize)
    requires well { R.is_well rows.now }
    requires row { i < length (R.texts rows.now) }
    ensures sends { Sends W.contents pen.old pen.new (others_of separator (drop 1 (row_at (R.texts rows.now) i))) }
    ensures texts { AreTexts (drop 1 (row_at (R.texts rows.now) i)) }
{
    for j in 1..rows.width(i) {
        write_other(pen, separator, rows.text(i, j).as_bytes());
    }
}

/// Writes a separator and the field behind it.
#[inline(always)]
fn write_other<W: Write>(pen: &mut Pen<'_, W>, separator: u8, text: &[u8])
    ensures { Sends W.contents pen.old pen.new (separator ∷ field_of (holds_special separator text.now) text.now) }
{
    if holds_special(separator, text) {
        pen.send_byte(separator);
        write_quoted(pen, text);
    } else {
        pen.send_behind(separator, text);
    }
}

/// Writes a record and the end of its line.
fn write_record<W: Write, R: Rows>(pen: &mut Pen<'_, W>, separator: u8, rows: &R, i: usize)
    requires well { R.is_well rows.now }
    requires row { i < length (R.texts rows.now) }
    ensures sends { Sends W.contents pen.old pen.new (record_of separator (i == 0) (row_at (R.texts rows.now) i)) }
    ensures texts { AreTexts (row_at (R.texts rows.now) i) }
{
    let width = rows.width(i);
    if width == 0 {
        pen.send_byte(b'\n');
        return;
    }
    let text = rows.text(i, 0).as_bytes();
    let is_quoted = first_is_quoted(separator, i == 0, width == 1, text);
    write_field(pen, is_quoted, text);
    write_others(pen, separator, rows, i);
    pen.send_byte(b'\n');
}

/// Writes rows, up to the first at which the writer has failed.
fn write_rows<W: Write, R: Rows>(pen: &mut Pen<'_, W>, separator: u8, rows: &R)
    requires well { R.is_well rows.now }
    ensures sends { Sends W.contents pen.old pen.new (csv_of separator (R.texts rows.now)) }
    ensures texts { pen.new.held.failure ≡ None → AllByRecursion AreTexts (R.texts rows.now) }
{
    for i in 0..rows.count() {
        write_record(pen, separator, rows, i);
        if pen.has_failed() {
            return;
        }
    }
}

/// Writes rows, in room that is asked for first.
fn write_texts<W: Write, R: Rows>(
    alloc: Global,
    writer: &mut W,
    separator: Separator,
    rows: &R,
) -> Result<(), WriteError>
    requires well { R.is_well rows.now }
    ensures written { OnOk result (Appends (W.contents writer.old) (W.contents writer.new) (csv_of separator (R.texts rows.now))) }
    ensures means { OnOk result (HaveFields (R.texts rows.now) → WrittenMeans separator (R.texts rows.now)) }
    ensures memory { result ≡ Err OutOfMemory → W.contents writer.new ≡ W.contents writer.old }
    ensures failed { OnFailed result (IsCutShort (W.contents writer.old) (W.contents writer.new) (csv_of separator (R.texts rows.now))) }
{
    let held = Held::new(alloc)?;
    let mut pen = Pen::new(writer, held);
    write_rows(&mut pen, separator.byte(), rows);
    let (written, outcome) = pen.finish();
    // No effect: the proof reads here what the writer got.
    let _ = &*written;
    match outcome {
        Ok(()) => Ok(()),
        Err(error) => Err(WriteError::Failed(error)),
    }
}

/// Writes rows as CSV. A field stands between quotes where it must; a line ends with a line feed.
///
/// All memory is asked for before the first byte is written: refused, the writer got none. Where the writer fails, it
/// got the first bytes, and no more after them. It doesn't flush the writer.
///
/// Of this project.
pub fn write<W: Write, T: CellText>(
    alloc: Global,
    writer: &mut W,
    separator: Separator,
    rows: &[Vec<T>],
) -> Result<(), WriteError>
    ensures written { OnOk result (Appends (W.contents writer.old) (W.contents writer.new) (csv_of separator (rows_by T.text_of rows.now))) }

    // What is written means these rows, where each has a field.
    ensures means { OnOk result (HaveFields (rows_by T.text_of rows.now) → WrittenMeans separator (rows_by T.text_of rows.now)) }

    // Where memory is refused the writer got nothing, and where it failed the first bytes, and not all.
    ensures memory { result ≡ Err OutOfMemory → W.contents writer.new ≡ W.contents writer.old }
    ensures failed { OnFailed result (IsCutShort (W.contents writer.old) (W.contents writer.new) (csv_of separator (rows_by T.text_of rows.now))) }
{
    write_texts(alloc, writer, separator, &rows)
}

/// Writes the texts of a store (`r x c`) as CSV, as `write` writes rows. A merged cell's text stands at its anchor, and
/// the cells that it hides have theirs.
///
/// Of this project.
pub fn write_records<W, R>(
    alloc: Global,
    writer: &mut W,
    separator: Separator,
    records: &R,
) -> Result<(), WriteError>
where
    W: Write,
    R: Records + ExactRecords + PeekableRecords,
    R::Cell: CellText,
    requires well { R.is_well_formed records.now }
    ensures written { OnOk result (Appends (W.contents writer.old) (W.contents writer.new) (csv_of separator (cells_by R.Cell.text_of (R.grid records.now)))) }

    // What is written means the table's rows, where it has a column.
    ensures means { OnOk result (0 < (R.grid records.now).columns → WrittenMeans separator (cells_by R.Cell.text_of (R.grid records.now))) }

    // Where memory is refused the writer got nothing, and where it failed the first bytes, and not all.
    ensures memory { result ≡ Err OutOfMemory → W.contents writer.new ≡ W.contents writer.old }
    ensures failed { OnFailed result (IsCutShort (W.contents writer.old) (W.contents writer.new) (csv_of separator (cells_by R.Cell.text_of (R.grid records.now)))) }
{
    write_texts(alloc, writer, separator, &Stored { records })
}
