//! The lines of a picture.

ghost use Rattle.std.specs.Prelude.{◌≡◌, ◌+◌, ◌<◌, [], IfOk, OnOk, Some, encode_utf8, encode_utf8_all, false, length, slice_index_or, true};
ghost use Rattle.std.specs.Io.KnownBytes.{Appends};
ghost use Rattle.tabled_draw.specs.Borders.{differ, edge, size_if};
ghost use Rattle.tabled_draw.specs.Lines.{AreCut, EndInside, IsCutAt, bytes_in, column, drawn_line, drawn_unmerged, left_inside, text_inside};
ghost use Rattle.tabled_held.specs.Pens.{Draws};
ghost use Rattle.tabled_draw.specs.Unmerged.{IsBetween, level, marked};
ghost use Rattle.tabled_grid.specs.declared.config.rectangle.Rectangle.{Rectangle};

use crate::alignment::alignment_in;
use crate::borders::{corner, differ, is_drawn, is_drawn_after, pad, size_if};
use crate::owners::Owner;
use crate::sheet::Sheet;
use crate::texts::write_cell;
use std::alloc::{AllocError, Global};
use std::io::{self, Write};
use tabled_grid::config::Rectangle;
use tabled_grid::records::Axis;
use tabled_held::{Held, Pen};

/// Writes a line of a row: borders between its owners, and their texts. Of each text that begins here, the lines that
/// are left are cut by one.
#[inline(always)]
pub(crate) fn write_row_line<'a, W: Write>(
    pen: &mut Pen<'_, W>,
    sheet: &Sheet<'_>,
    owners: &[Owner],
    rests: &mut Vec<&'a str>,
)
    requires owners { length owners.now ≡ length rests.old.items + 2 }
    requires columns { sheet.now.columns ≡ length rests.old.items }
    requires inside { EndInside (length rests.old.items) owners.now }
    ensures long { length rests.new.items ≡ length rests.old.items }
    ensures draws { Draws W.contents pen.old pen.new (drawn_line sheet.now true owners.now owners.now (length rests.old.items) (bytes_in rests.old.items)) }
    ensures rests { AreCut owners.now owners.now rests.old.items rests.new.items }
{
    let drawn_columns = sheet.look.style.columns;
    let columns = rests.len();
    let mut room = [0; 4];
    let upright = sheet.look.style.vertical.encode_utf8(&mut room).as_bytes();
    let mut drawn = is_drawn(drawn_columns, columns, 0);
    for j in 0..columns {
        let owner = owners[j + 1];
        write_upright(pen, sheet, upright, drawn, owners[j], owner);
        rests[j] = write_inside(pen, sheet, drawn, j, owner, rests[j]);
        drawn = is_drawn_after(drawn_columns, j);
    }
    let drawn = is_drawn(drawn_columns, columns, columns);
    write_upright(
        pen,
        sheet,
        upright,
        drawn,
        owners[columns],
        owners[columns + 1],
    );
    pen.end_line();
}

/// Writes the line between two rows, or an outer one: a border between the owners above and below, and the texts of
/// those that are one. Of each text that begins here, the lines that are left are cut by one.
pub(crate) fn write_border_line<'a, W: Write>(
    pen: &mut Pen<'_, W>,
    sheet: &Sheet<'_>,
    above: &[Owner],
    below: &[Owner],
    rests: &mut Vec<&'a str>,
)
    requires above { length above.now ≡ length rests.old.items + 2 }
    requires below { length below.now ≡ length rests.old.items + 2 }
    requires columns { sheet.now.columns ≡ length rests.old.items }
    requires inside { EndInside (length rests.old.items) above.now }
    ensures long { length rests.new.items ≡ length rests.old.items }
    ensures draws { Draws W.contents pen.old pen.new (drawn_line sheet.now false above.now below.now (length rests.old.items) (bytes_in rests.old.items)) }
    ensures rests { AreCut above.now below.now rests.old.items rests.new.items }
{
    let drawn_columns = sheet.look.style.columns;
    let columns = rests.len();
    let mut drawn = is_drawn(drawn_columns, columns, 0);
    let mut left = differ(above[0], below[0]);
    for j in 0..columns {
        let over = above[j + 1];
        let under = below[j + 1];
        let right = differ(over, under);
        write_corner(
            pen,
            sheet,
            drawn,
            (above[j], over),
            (below[j], under),
            (left, right),
        );
        write_column(pen, sheet, drawn, right, j, over, rests);
        drawn = is_drawn_after(drawn_columns, j);
        left = right;
    }
    let drawn = is_drawn(drawn_columns, columns, columns);
    let right = differ(above[columns + 1], below[columns + 1]);
    write_corner(
        pen,
        sheet,
        drawn,
        (above[columns], above[columns + 1]),
        (below[columns], below[columns + 1]),
        (left, right),
    );
    pen.end_line();
}

/// Writes the line above row i of a table without merged cells, or below its last row.
fn write_unmerged_line<W: Write>(pen: &mut Pen<'_, W>, sheet: &Sheet<'_>, i: usize)
    ensures draws { Draws W.contents pen.old pen.new (drawn_unmerged sheet.now i) }
{
    let drawn_columns = sheet.look.style.columns;
    let columns = sheet.columns;
    let up = 0 < i;
    let down = i < sheet.rows;
    let inner = corner(&sheet.look.style, up, true, down, true);
    let mut mark = corner(&sheet.look.style, up, true, down, false);
    let mut drawn = is_drawn(drawn_columns, columns, 0);
    for j in 0..columns {
        write_mark(pen, drawn, mark);
        write_level(pen, sheet, drawn, j);
        mark = inner;
        drawn = is_drawn_after(drawn_columns, j);
    }
    let last = corner(&sheet.look.style, up, false, down, 0 < columns);
    write_mark(pen, is_drawn(drawn_columns, columns, columns), last);
    pen.end_line();
}

/// The bytes of the line between two rows without merged cells. There are none where it is drawn once at most, or takes
/// far more memory than the cells do.
pub(crate) fn line_between(alloc: Global, sheet: &Sheet<'_>) -> Result<Vec<u8>, AllocError>
    ensures { IfOk result (λ line. IsBetween sheet.now.look.style sheet.now.columns sheet.now.edges.now line.items) }
{
    let mut line = Vec::new(alloc);
    let cells = sheet.rows.saturating_mul(sheet.columns);
    if sheet.rows < 3 || !sheet.look.style.rows.inner || cells < sheet.edges[sheet.columns] / 8 {
        return Ok(line);
    }
    if write_first_line_between(&mut line, Held::new(alloc)?, sheet).is_err() {
        return Err(AllocError);
    }
    Ok(line)
}

/// Writes the line between the first two rows of a table without merged cells.
fn write_first_line_between<W: Write>(
    writer: &mut W,
    held: Held,
    sheet: &Sheet<'_>,
) -> io::Result<()>
    requires { held.bytes ≡ [] }
    ensures { OnOk result (Appends (W.contents writer.old) (W.contents writer.new) (encode_utf8_all (drawn_unmerged sheet.now 1))) }
{
    let mut pen = Pen::new(writer, held);
    write_unmerged_line(&mut pen, sheet, 1);
    let (written, outcome) = pen.finish();
    // No effect: the proof reads here what the writer got.
    let _ = &*written;
    outcome
}

/// Writes the line above row i of a table, or below its last row, at which no merged cell lies. Its bytes may be known,
/// if it is between two rows.
pub(crate) fn write_known_line<W: Write>(pen: &mut Pen<'_, W>, sheet: &Sheet<'_>, i: usize)
    ensures draws { Draws W.contents pen.old pen.new (drawn_unmerged sheet.now i) }
{
    if sheet.between.is_empty() || i == 0 || sheet.rows <= i {
        write_unmerged_line(pen, sheet, i);
        return;
    }
    pen.send(sheet.between);
}

/// Writes a character, if there is one and its line is drawn.
#[inline(always)]
fn write_mark<W: Write>(pen: &mut Pen<'_, W>, drawn: bool, mark: Option<char>)
    ensures { Draws W.contents pen.old pen.new (marked drawn mark) }
{
    if drawn && let Some(mark) = mark {
        pen.draw(mark);
    }
}

/// Writes the border between two places of a row, if there is one and its line is drawn. Its bytes are known.
#[inline(always)]
fn write_upright<W: Write>(
    pen: &mut Pen<'_, W>,
    sheet: &Sheet<'_>,
    upright: &[u8],
    drawn: bool,
    before: Owner,
    after: Owner,
)
    requires { upright.now ≡ encode_utf8 sheet.now.look.style.vertical }
    ensures { Draws W.contents pen.old pen.new (edge sheet.now.look.style true (size_if drawn) before after before after) }
{
    if drawn && differ(before, after) {
        pen.draw_known(sheet.look.style.vertical, upright);
    }
}

/// Writes the corner where four places meet, if it has an arm and its line is drawn. It is known whether there are
/// borders at its left and its right side.
#[inline(always)]
fn write_corner<W: Write>(
    pen: &mut Pen<'_, W>,
    sheet: &Sheet<'_>,
    drawn: bool,
    above: (Owner, Owner),
    below: (Owner, Owner),
    beside: (bool, bool),
)
    requires left { beside.0 ≡ differ above.0 below.0 }
    requires right { beside.1 ≡ differ above.1 below.1 }
    ensures { Draws W.contents pen.old pen.new (edge sheet.now.look.style false (size_if drawn) above.0 above.1 below.0 below.1) }
{
    if !drawn {
        return;
    }
    let up = differ(above.0, above.1);
    let down = differ(below.0, below.1);
    let corner = corner(&sheet.look.style, up, beside.1, down, beside.0);
    write_mark(pen, drawn, corner);
}

/// Writes a border in a column, if the owners above and below are apart, else what their one shows.
#[inline(always)]
fn write_column<W: Write>(
    pen: &mut Pen<'_, W>,
    sheet: &Sheet<'_>,
    drawn: bool,
    apart: bool,
    j: usize,
    owner: Owner,
    rests: &mut Vec<&str>,
)
    requires end { (o : Rectangle) → owner ≡ Some o → o.first.col ≡ j → j + o.size.width < length sheet.now.edges.now }
    requires col { j + 1 < length sheet.now.edges.now }
    requires rest { j < length rests.old.items }
    ensures draws { Draws W.contents pen.old pen.new (column sheet.now drawn apart j owner (slice_index_or (bytes_in rests.old.items) j [])) }
    ensures rests { IsCutAt j apart owner rests.old.items rests.new.items }
{
    if apart {
        write_level(pen, sheet, drawn, j);
    } else {
        write_crossing(pen, sheet, drawn, j, owner, rests);
    }
}

/// Writes the border in a column, as wide as its inside.
#[inline(always)]
fn write_level<W: Write>(pen: &mut Pen<'_, W>, sheet: &Sheet<'_>, drawn: bool, j: usize)
    requires col { j + 1 < length sheet.now.edges.now }
    ensures { Draws W.contents pen.old pen.new (level sheet.now.look.style drawn sheet.now.edges.now j) }
{
    let inside = sheet.edges[j + 1]
        .saturating_sub(sheet.edges[j])
        .saturating_sub(size_if(drawn));
    pen.draw_many(sheet.look.style.horizontal, sheet.level, inside);
}

/// Writes what an owner that lies above and below shows in a column.
#[inline(never)]
fn write_crossing<W: Write>(
    pen: &mut Pen<'_, W>,
    sheet: &Sheet<'_>,
    drawn: bool,
    j: usize,
    owner: Owner,
    rests: &mut Vec<&str>,
)
    requires end { (o : Rectangle) → owner ≡ Some o → o.first.col ≡ j → j + o.size.width < length sheet.now.edges.now }
    requires col { j < length sheet.now.edges.now }
    requires rest { j < length rests.old.items }
    ensures draws { Draws W.contents pen.old pen.new (text_inside sheet.now drawn j owner (slice_index_or (bytes_in rests.old.items) j [])) }
    ensures rests { IsCutAt j false owner rests.old.items rests.new.items }
{
    rests[j] = write_inside(pen, sheet, drawn, j, owner, rests[j]);
}

/// Writes what the owner of a column shows in it, and gives what is left there of a text.
#[inline(always)]
fn write_inside<'a, W: Write>(
    pen: &mut Pen<'_, W>,
    sheet: &Sheet<'_>,
    drawn: bool,
    j: usize,
    owner: Owner,
    rest: &'a str,
) -> &'a str
    requires end { (o : Rectangle) → owner ≡ Some o → o.first.col ≡ j → j + o.size.width < length sheet.now.edges.now }
    requires col { j < length sheet.now.edges.now }
    ensures draws { Draws W.contents pen.old pen.new (text_inside sheet.now drawn j owner rest.now) }
    ensures rest { result.now ≡ left_inside j owner rest.now }
{
    match owner {
        Some(Rectangle { first, size }) if first.col == j => {
            let room = sheet.edges[j + size.width]
                .saturating_sub(sheet.edges[j])
                .saturating_sub(size_if(drawn) + pad(Axis::Columns));
            write_cell(pen, alignment_in(sheet.look.alignments, j), rest, room)
        }
        _ => rest,
    }
}
