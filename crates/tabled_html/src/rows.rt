//! Rows of HTML, written.

ghost use Rattle.std.specs.List.{flat_map};
ghost use Rattle.std.specs.Prelude.{◌≡◌, ◌&&◌, ◌+◌, ◌-◌, ◌<◌, ◌≤◌, if◌then◌else◌, ℕ, IsTrue, length, nat_le, nat_lt, slice_index_or};
ghost use Rattle.tabled_grid.specs.Grid.{IsInside};
ghost use Rattle.tabled_held.specs.Pens.{Sends};
ghost use Rattle.tabled_html.specs.Elements.{begun_at, group, groups_of, has_head, row_of, rows_of};
ghost use Rattle.tabled_html.specs.Ends.{AreEnds};
ghost use Rattle.tabled_html_reading.specs.Bytes.{cell_bytes, group_bytes, group_end, group_start, row_bytes};

use crate::cells::write_cell;
use crate::sheet::Sheet;
use std::io::Write;
use tabled_grid::config::{Position, SpannedConfig};
use tabled_grid::records::{Axis, CellText, ExactRecords, PeekableRecords, Records};
use tabled_held::Pen;

/// Says of some columns in which row their last cell ends.
fn end_at(ends: &mut [usize], first: usize, count: usize, row: usize)
    requires inside { first + count ≤ length ends.old }
    ensures long { length ends.new ≡ length ends.old }
    ensures ends { (x : ℕ) → slice_index_or ends.new x 0 ≡ (if nat_le first x && nat_lt x (first + count) then row else slice_index_or ends.old x 0) }
{
    for x in first..first + count {
        ends[x] = row;
    }
}

/// Writes a row group's start tag.
fn write_start<W: Write>(pen: &mut Pen<'_, W>, is_head: bool)
    ensures { Sends W.contents pen.old pen.new (group_start is_head) }
{
    if is_head {
        pen.send(b"<thead>\n");
    } else {
        pen.send(b"<tbody>\n");
    }
}

/// Writes its end tag.
fn write_end<W: Write>(pen: &mut Pen<'_, W>, is_head: bool)
    ensures { Sends W.contents pen.old pen.new (group_end is_head) }
{
    if is_head {
        pen.send(b"</thead>\n");
    } else {
        pen.send(b"</tbody>\n");
    }
}

/// Says whether the header is the head of the table.
fn has_head(cfg: &SpannedConfig, rows: usize, header: usize) -> bool
    ensures has { result ≡ has_head rows cfg.now header }
    ensures part { IsTrue result → header ≤ rows }
{
    header > 0 && header <= rows && !cfg.crosses(Axis::Rows, header)
}

impl<'a, R> Sheet<'a, R>
where
    R: Records + ExactRecords + PeekableRecords,
    R::Cell: CellText,
{
    /// Writes the cell that begins at a place, if one does. It is known of each column where its last cell ends.
    fn write_place<W: Write>(&self, pen: &mut Pen<'_, W>, ends: &mut [usize], pos: Position)
        requires inside { IsInside self.now.texts pos }
        requires ends { AreEnds self.now pos.row pos.col ends.old }
        ensures sent { Sends W.contents pen.old pen.new (flat_map cell_bytes (begun_at self.now pos)) }
        ensures ends { AreEnds self.now pos.row (pos.col + 1) ends.new }
    {
        // Read before the rest: the proof knows from here on that they fit.
        let spans = &self.spans;
        if pos.row < ends[pos.col] {
            return;
        }
        let size = spans.size(pos);
        end_at(ends, pos.col, size.width, pos.row + size.height);
        write_cell(
            pen,
            pos.row < self.page.header_rows(),
            self.page.alignment(pos.col),
            size,
            self.records.get_text(pos).as_bytes(),
        );
    }

    /// Writes a row.
    fn write_row<W: Write>(&self, pen: &mut Pen<'_, W>, ends: &mut [usize], i: usize)
        requires row { i < self.now.texts.rows }
        requires ends { AreEnds self.now i 0 ends.old }
        ensures sent { Sends W.contents pen.old pen.new (row_bytes (row_of self.now i)) }
        ensures ends { AreEnds self.now (i + 1) 0 ends.new }
    {
        pen.send(b"<tr>");
        for j in 0..self.records.count_columns() {
            self.write_place(pen, ends, Position { row: i, col: j });
        }
        pen.send(b"</tr>\n");
    }

    /// Writes some rows, from one up to below another one.
    fn write_rows<W: Write>(
        &self,
        pen: &mut Pen<'_, W>,
        ends: &mut [usize],
        first: usize,
        past: usize,
    )
        requires order { first ≤ past }
        requires rows { past ≤ self.now.texts.rows }
        requires ends { AreEnds self.now first 0 ends.old }
        ensures sent { Sends W.contents pen.old pen.new (flat_map row_bytes (rows_of self.now first (past - first))) }
        ensures ends { AreEnds self.now past 0 ends.new }
    {
        for i in first..past {
            self.write_row(pen, ends, i);
        }
    }

    /// Writes some rows, from one up to below another one, as the head or the body of the table.
    fn write_group<W: Write>(
        &self,
        pen: &mut Pen<'_, W>,
        ends: &mut [usize],
        is_head: bool,
        first: usize,
        past: usize,
    )
        requires order { first ≤ past }
        requires rows { past ≤ self.now.texts.rows }
        requires ends { AreEnds self.now first 0 ends.old }
        ensures sent { Sends W.contents pen.old pen.new (group_bytes (group is_head (rows_of self.now first (past - first)))) }
        ensures ends { AreEnds self.now past 0 ends.new }
    {
        write_start(pen, is_head);
        self.write_rows(pen, ends, first, past);
        write_end(pen, is_head);
    }

    /// Writes all rows.
    pub(crate) fn write_groups<W: Write>(&self, pen: &mut Pen<'_, W>, ends: &mut [usize])
        requires { AreEnds self.now 0 0 ends.old }
        ensures { Sends W.contents pen.old pen.new (flat_map group_bytes (groups_of self.now)) }
    {
        let rows = self.records.count_rows();
        let header = self.page.header_rows();
        if has_head(&self.spans, rows, header) {
            self.write_group(pen, ends, true, 0, header);
            self.write_group(pen, ends, false, header, rows);
            return;
        }
        self.write_group(pen, ends, false, 0, rows);
    }
}
