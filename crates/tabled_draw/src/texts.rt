//! Lines of texts, and how wide they are.

ghost use Rattle.std.specs.Prelude.{◌≡◌, ◌-◌, IsTrue};
ghost use Rattle.tabled_draw.specs.Alignments.{cell};
ghost use Rattle.tabled_held.specs.Pens.{Draws};
ghost use Rattle.tabled_draw.specs.Sizes.{asks};
ghost use Rattle.tabled_draw.specs.Texts.{IsLine, after_line, first_line, shown_character, shown_line, text_width};
ghost use Rattle.tabled_grid.specs.declared.records.axis.Axis.TheVariants.{Rows, Columns};
ghost use Rattle.tabled_width.specs.Plain.{ArePlain};

use crate::alignment::{Alignment, indent};
use std::io::Write;
use tabled_grid::config::Size;
use tabled_held::Pen;
use tabled_width::{columns_of, is_plain};

/// The character that is shown for one: for a control character another one, which can be seen.
fn shown(c: char) -> char
    ensures { result ≡ shown_character c }
{
    match c {
        '\0'..='\x1f' => char::from_u32(0x2400 + u32::from(c)).unwrap_or(c),
        '\x7f' => '\u{2421}',
        '\u{80}'..='\u{9f}' => '\u{fffd}',
        _ => c,
    }
}

/// The columns that a line takes as it is shown. A control character takes one, as what is shown for it does.
fn columns_in(line: &str) -> usize
    ensures { IsLine line.now → result ≡ text_width (shown_line line.now) }
{
    columns_of(line)
}

/// The size that a text asks: of its rows as many as it has lines, and of its columns those of its widest line.
pub(crate) fn asked(text: &str) -> Size
    ensures height { result.height ≡ asks Rows text.now }
    ensures width { result.width ≡ asks Columns text.now }
{
    if is_plain(text) {
        return Size {
            height: 1,
            width: text.len(),
        };
    }
    asked_by_lines(text)
}

/// The size that a text asks, line by line.
#[inline(never)]
fn asked_by_lines(text: &str) -> Size
    ensures height { result.height ≡ asks Rows text.now }
    ensures width { result.width ≡ asks Columns text.now }
{
    let mut height: usize = 0;
    let mut width: usize = 0;
    for line in text.split('\n') {
        height += 1;
        width = width.max(columns_in(line));
    }
    Size { height, width }
}

/// Writes the first line of a text as it is shown and aligned in a room, with one blank more at both sides. Gives the
/// lines after it.
#[inline(always)]
pub(crate) fn write_cell<'a, W: Write>(
    pen: &mut Pen<'_, W>,
    alignment: Alignment,
    text: &'a str,
    room: usize,
) -> &'a str
    ensures draws { Draws W.contents pen.old pen.new (cell alignment room text.now 0) }
    ensures rest { result.now ≡ after_line text.now }
{
    let (line, rest) = cut(text);
    let free = free_beside(&line, room);
    let before = indent(alignment, free);
    pen.draw(' ');
    pen.draw_blanks(before);
    write_shown(pen, line);
    pen.draw_blanks(free.saturating_sub(before));
    pen.draw(' ');
    rest
}

/// A line of a text.
#[derive(Drop)]
struct Line<'a> {
    text: &'a str,
    /// Whether each character is known to be one byte, which is shown as it is and takes one column.
    is_plain: bool,
    ghost plain: { IsTrue is_plain → ArePlain text.now },
}

/// The first line of a text, and the lines after it.
fn cut(text: &str) -> (Line<'_>, &str)
    ensures line { shown_line result.0.text.now ≡ first_line text.now }
    ensures whole { IsLine result.0.text.now }
    ensures rest { result.1.now ≡ after_line text.now }
{
    if is_plain(text) {
        let line = Line {
            text,
            is_plain: true,
        };
        return (line, "");
    }
    let (text, rest) = text.split_once('\n').unwrap_or((text, ""));
    let line = Line {
        text,
        is_plain: is_plain(text),
    };
    (line, rest)
}

/// What a line leaves of a room.
fn free_beside(line: &Line<'_>, room: usize) -> usize
    requires { IsLine line.now.text.now }
    ensures { result ≡ room - text_width (shown_line line.now.text.now) }
{
    if line.is_plain {
        return room.saturating_sub(line.text.len());
    }
    room.saturating_sub(columns_in(line.text))
}

/// Writes a line as it is shown.
#[inline(always)]
fn write_shown<W: Write>(pen: &mut Pen<'_, W>, line: Line<'_>)
    ensures { Draws W.contents pen.old pen.new (shown_line line.entry.text.now) }
{
    let line_bytes = line.text.as_bytes();
    if line.is_plain {
        pen.send(line_bytes);
        return;
    }
    for c in line.text.chars() {
        pen.draw(shown(c));
    }
}
