//! Cells of HTML, written.

ghost use Rattle.std.specs.List.{flat_map};
ghost use Rattle.std.specs.Prelude.{[], ◌∷◌, ◌≡◌, IsTrue, Some};
ghost use Rattle.tabled_held.specs.Pens.{Sends};
ghost use Rattle.tabled_html.specs.Elements.{cell_attributes, element, scope_attribute, span_attribute, style_attribute};
ghost use Rattle.tabled_html_reading.specs.Bytes.{attribute_bytes, attributes_bytes, cell_bytes, cell_end, cell_start};
ghost use Rattle.tabled_html_reading.specs.Escaping.{escaped, escaped_byte};

use crate::alignment::Alignment;
use std::io::Write;
use tabled_grid::config::Size;
use tabled_held::Pen;

/// Says whether a byte stands for itself in a text.
fn stands_for_itself(byte: u8) -> bool
    ensures { IsTrue result → escaped_byte byte ≡ byte ∷ [] }
{
    // Most letters lie behind these bytes: one comparison passes them.
    byte > b'>' || !matches!(byte, b'&' | b'<' | b'>' | b'\r' | 0)
}

/// Writes what stands for a byte of a text.
fn write_byte<W: Write>(pen: &mut Pen<'_, W>, byte: u8)
    ensures { Sends W.contents pen.old pen.new (escaped_byte byte) }
{
    match byte {
        b'&' => pen.send(b"&amp;"),
        b'<' => pen.send(b"&lt;"),
        b'>' => pen.send(b"&gt;"),
        b'\r' => pen.send(b"&#13;"),
        0 => pen.send(b"\xEF\xBF\xBD"),
        _ => pen.send_byte(byte),
    }
}

/// Writes a text. Bytes that stand for themselves are sent at once, as far as they go.
pub(crate) fn write_text<W: Write>(pen: &mut Pen<'_, W>, text: &[u8])
    ensures { Sends W.contents pen.old pen.new (escaped text.now) }
{
    let mut written = 0;
    for (i, byte) in text.iter().enumerate() {
        if !stands_for_itself(*byte) {
            pen.send(&text[written..i]);
            write_byte(pen, *byte);
            written = i + 1;
        }
    }
    pen.send(&text[written..]);
}

/// Writes an attribute with a number above 1, of which 1 needs none.
fn write_span<W: Write>(pen: &mut Pen<'_, W>, name: &[u8], number: usize)
    ensures { Sends W.contents pen.old pen.new (flat_map attribute_bytes (span_attribute name.now number)) }
{
    if number > 1 {
        pen.send_byte(b' ');
        pen.send(name);
        pen.send(b"=\"");
        pen.send_number(number);
        pen.send_byte(b'"');
    }
}

/// Writes what a header cell is the header of.
fn write_scope<W: Write>(pen: &mut Pen<'_, W>, is_header: bool)
    ensures { Sends W.contents pen.old pen.new (flat_map attribute_bytes (scope_attribute is_header)) }
{
    if is_header {
        pen.send(b" scope=\"col\"");
    }
}

/// Writes how a text is aligned.
fn write_alignment<W: Write>(pen: &mut Pen<'_, W>, alignment: Alignment)
    ensures { Sends W.contents pen.old pen.new (flat_map attribute_bytes (style_attribute (Some alignment))) }
{
    match alignment {
        Alignment::Left => pen.send(b" style=\"text-align: left\""),
        Alignment::Center => pen.send(b" style=\"text-align: center\""),
        Alignment::Right => pen.send(b" style=\"text-align: right\""),
    }
}

/// Writes how a text is aligned, if that is said.
fn write_style<W: Write>(pen: &mut Pen<'_, W>, alignment: Option<Alignment>)
    ensures { Sends W.contents pen.old pen.new (flat_map attribute_bytes (style_attribute alignment)) }
{
    if let Some(alignment) = alignment {
        write_alignment(pen, alignment);
    }
}

/// Writes the attributes of a cell, and the end of its start tag.
fn write_attributes<W: Write>(
    pen: &mut Pen<'_, W>,
    is_header: bool,
    alignment: Option<Alignment>,
    size: Size,
)
    ensures { Sends W.contents pen.old pen.new (attributes_bytes (cell_attributes is_header alignment size)) }
{
    write_span(pen, b"colspan", size.width);
    write_span(pen, b"rowspan", size.height);
    write_scope(pen, is_header);
    write_style(pen, alignment);
    pen.send_byte(b'>');
}

/// Writes the front of a cell's start tag.
fn write_start<W: Write>(pen: &mut Pen<'_, W>, is_header: bool)
    ensures { Sends W.contents pen.old pen.new (cell_start is_header) }
{
    if is_header {
        pen.send(b"<th");
    } else {
        pen.send(b"<td");
    }
}

/// Writes a cell's end tag.
fn write_end<W: Write>(pen: &mut Pen<'_, W>, is_header: bool)
    ensures { Sends W.contents pen.old pen.new (cell_end is_header) }
{
    if is_header {
        pen.send(b"</th>");
    } else {
        pen.send(b"</td>");
    }
}

/// Writes a cell.
pub(crate) fn write_cell<W: Write>(
    pen: &mut Pen<'_, W>,
    is_header: bool,
    alignment: Option<Alignment>,
    size: Size,
    text: &[u8],
)
    ensures { Sends W.contents pen.old pen.new (cell_bytes (element is_header alignment size text.now)) }
{
    write_start(pen, is_header);
    write_attributes(pen, is_header, alignment, size);
    write_text(pen, text);
    write_end(pen, is_header);
}
