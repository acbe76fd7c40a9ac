//! Rows, written as JSON.

ghost use Rattle.std.specs.Io.KnownBytes.{Appends};
ghost use Rattle.std.specs.List.{zip};
ghost use Rattle.std.specs.Prelude.{◌≡◌, ◌∷◌, ◌<◌, ◌/◌, ◌%◌, [], false, IfErr, OnOk, length};
ghost use Rattle.tabled_held.specs.Pens.{Sends};
ghost use Rattle.tabled_held.specs.Sent.{IsCutShort};
ghost use Rattle.tabled_json.specs.Strings.{is_plain};
ghost use Rattle.tabled_texts.specs.Texts.{cells_by, row_at, rows_by};
ghost use Rattle.tabled_json.specs.Writes.{AreKeyed, IsNoLongRow, IsWhy, OnFailed, OnRefused};
ghost use Rattle.tabled_json.specs.Writing.{before_index, escape, hex_letter, is_bare, json_of, lines_text, member_text, object_text, records_of, records_text, string_of, value_of};
ghost use Rattle.tabled_json.specs.declared.form.Layout.TheVariants.{Array};

use crate::fault::WriteError;
use crate::form::{Layout, Values};
use crate::keyed::check;
use crate::number::is_number;
use crate::string::is_plain;
use std::alloc::Global;
use std::io::Write;
use tabled_grid::records::{CellText, ExactRecords, PeekableRecords, Records};
use tabled_held::{Held, Pen};
use tabled_texts::{Rows, Stored};

/// A hexadecimal digit.
fn hex_letter(value: u8) -> u8
    requires { value < 16 }
    ensures { result ≡ hex_letter value }
{
    if value < 10 {
        48 + value
    } else {
        97 + value - 10
    }
}

/// Writes a byte that doesn't stand for itself in a string: behind a backslash, or by its number.
#[inline(never)]
fn write_escape<W: Write>(pen: &mut Pen<'_, W>, byte: u8)
    requires { is_plain byte ≡ false }
    ensures { Sends W.contents pen.old pen.new (escape byte) }
{
    let is_sign = 32 <= byte;
    if is_sign {
        pen.send(&[b'\\', byte]);
        return;
    }
    pen.send(&[
        b'\\',
        b'u',
        b'0',
        b'0',
        hex_letter(byte / 16),
        hex_letter(byte % 16),
    ]);
}

/// Writes a text as a string.
fn write_string<W: Write>(pen: &mut Pen<'_, W>, text: &[u8])
    ensures { Sends W.contents pen.old pen.new (string_of text.now) }
{
    pen.send_byte(b'"');
    let mut written = 0;
    for (i, byte) in text.iter().enumerate() {
        if !is_plain(*byte) {
            pen.send(&text[written..i]);
            write_escape(pen, *byte);
            written = i + 1;
        }
    }
    pen.send(&text[written..]);
    pen.send_byte(b'"');
}

/// Whether a text may stand with no quotes.
fn is_bare(text: &str) -> bool
    ensures { result ≡ is_bare text.now }
{
    is_number(text.as_bytes()) || text == "true" || text == "false"
}

/// Writes a text as a value.
fn write_value<W: Write>(pen: &mut Pen<'_, W>, values: Values, text: &str)
    ensures { Sends W.contents pen.old pen.new (value_of values text.now) }
{
    match values {
        Values::Strings => write_string(pen, text.as_bytes()),
        Values::Bare => {
            if is_bare(text) {
                pen.send(text.as_bytes());
            } else {
                write_string(pen, text.as_bytes());
            }
        }
    }
}

/// Writes a member of an object.
fn write_member<W: Write>(pen: &mut Pen<'_, W>, values: Values, key: &str, text: &str)
    ensures { Sends W.contents pen.old pen.new (member_text values (key.now, text.now)) }
{
    write_string(pen, key.as_bytes());
    pen.send_byte(b':');
    write_value(pen, values, text);
}

/// Writes what stands before the text of an index: nothing before the first.
fn write_between<W: Write>(pen: &mut Pen<'_, W>, i: usize, between: &[u8])
    ensures { Sends W.contents pen.old pen.new (before_index i between.now) }
{
    if i != 0 {
        pen.send(between);
    }
}

/// Writes the object of a row.
fn write_object<W: Write, R: Rows>(pen: &mut Pen<'_, W>, values: Values, rows: &R, i: usize)
    requires well { R.is_well rows.now }
    requires row { i < length (R.texts rows.now) }
    ensures { Sends W.contents pen.old pen.new (object_text values (zip (row_at (R.texts rows.now) 0) (row_at (R.texts rows.now) i))) }
{
    pen.send_byte(b'{');
    let keys = rows.width(0);
    let width = rows.width(i);
    for j in 0..keys.min(width) {
        write_between(pen, j, b",");
        write_member(pen, values, rows.text(0, j), rows.text(i, j));
    }
    pen.send_byte(b'}');
}

/// Writes the objects of rows as an array.
fn write_array<W: Write, R: Rows>(pen: &mut Pen<'_, W>, values: Values, rows: &R)
    requires { R.is_well rows.now }
    ensures { Sends W.contents pen.old pen.new (records_text Array values (records_of (R.texts rows.now))) }
{
    pen.send_byte(b'[');
    for i in 1..rows.count() {
        write_between(pen, i - 1, b",\n");
        write_object(pen, values, rows, i);
    }
    pen.send(b"]\n");
}

/// Writes the objects of rows, one a line.
fn write_lines<W: Write, R: Rows>(pen: &mut Pen<'_, W>, values: Values, rows: &R)
    requires { R.is_well rows.now }
    ensures { Sends W.contents pen.old pen.new (lines_text values (records_of (R.texts rows.now))) }
{
    for i in 1..rows.count() {
        write_object(pen, values, rows, i);
        pen.send_byte(b'\n');
    }
}

/// Writes the objects of rows.
fn write_rows<W: Write, R: Rows>(pen: &mut Pen<'_, W>, layout: Layout, values: Values, rows: &R)
    requires { R.is_well rows.now }
    ensures { Sends W.contents pen.old pen.new (json_of layout values (R.texts rows.now)) }
{
    match layout {
        Layout::Array => write_array(pen, values, rows),
        Layout::Lines => write_lines(pen, values, rows),
    }
}

/// Writes rows, in room that is asked for first.
fn write_texts<W: Write, R: Rows>(
    alloc: Global,
    writer: &mut W,
    layout: Layout,
    values: Values,
    rows: &R,
) -> Result<(), WriteError>
    requires { R.is_well rows.now }
    ensures written { OnOk result (Appends (W.contents writer.old) (W.contents writer.new) (json_of layout values (R.texts rows.now))) }
    ensures keyed { OnOk result (AreKeyed (R.texts rows.now)) }
    ensures why { IfErr result (IsWhy (R.texts rows.now)) }
    ensures refused { OnRefused result (W.contents writer.new ≡ W.contents writer.old) }
    ensures failed { OnFailed result (IsCutShort (W.contents writer.old) (W.contents writer.new) (json_of layout values (R.texts rows.now))) }
{
    check(alloc, rows)?;
    let held = Held::new(alloc)?;
    let mut pen = Pen::new(writer, held);
    write_rows(&mut pen, layout, values, rows);
    let (written, outcome) = pen.finish();
    // No effect: the proof reads here what the writer got.
    let _ = &*written;
    match outcome {
        Ok(()) => Ok(()),
        Err(error) => Err(WriteError::Failed(error)),
    }
}

/// Writes rows as JSON: the first has the keys, and each other one is an object, with a member for each of its texts.
/// Behind each object is the end of a line, and in an array a comma before it. Rows that have one key twice, or more
/// texts than keys, are refused.
///
/// All memory is asked for before the first byte is written. Refused, for memory or for what the rows are, the writer
/// got nothing. Where the writer fails, it got the first bytes, and no more after them. It doesn't flush the writer.
///
/// Of this project.
pub fn write<W: Write, T: CellText>(
    alloc: Global,
    writer: &mut W,
    layout: Layout,
    values: Values,
    rows: &[Vec<T>],
) -> Result<(), WriteError>
    ensures written { OnOk result (Appends (W.contents writer.old) (W.contents writer.new) (json_of layout values (rows_by T.text_of rows.now))) }

    // Rows are written only where their keys differ and each of their texts has a key; else it is told why they aren't.
    ensures keyed { OnOk result (AreKeyed (rows_by T.text_of rows.now)) }
    ensures why { IfErr result (IsWhy (rows_by T.text_of rows.now)) }

    // Where it is not the writer that failed it got nothing, and where it did the first bytes, and not all.
    ensures refused { OnRefused result (W.contents writer.new ≡ W.contents writer.old) }
    ensures failed { OnFailed result (IsCutShort (W.contents writer.old) (W.contents writer.new) (json_of layout values (rows_by T.text_of rows.now))) }
{
    write_texts(alloc, writer, layout, values, &rows)
}

/// Writes the texts of a store (`r x c`) as JSON, as `write` writes rows. A merged cell's text stands at its anchor, and
/// the cells that it hides have theirs.
///
/// Of this project.
pub fn write_records<W, R>(
    alloc: Global,
    writer: &mut W,
    layout: Layout,
    values: Values,
    records: &R,
) -> Result<(), WriteError>
where
    W: Write,
    R: Records + ExactRecords + PeekableRecords,
    R::Cell: CellText,
    requires well { R.is_well_formed records.now }
    ensures written { OnOk result (Appends (W.contents writer.old) (W.contents writer.new) (json_of layout values (cells_by R.Cell.text_of (R.grid records.now)))) }

    // Rows are written only where their keys differ and each of their texts has a key; else it is told why they aren't.
    ensures keyed { OnOk result (AreKeyed (cells_by R.Cell.text_of (R.grid records.now))) }
    ensures why { IfErr result (IsWhy (cells_by R.Cell.text_of (R.grid records.now))) }
    ensures even { IfErr result IsNoLongRow }

    // Where it is not the writer that failed it got nothing, and where it did the first bytes, and not all.
    ensures refused { OnRefused result (W.contents writer.new ≡ W.contents writer.old) }
    ensures failed { OnFailed result (IsCutShort (W.contents writer.old) (W.contents writer.new) (json_of layout values (cells_by R.Cell.text_of (R.grid records.now)))) }
{
    write_texts(alloc, writer, layout, values, &Stored { records })
}
