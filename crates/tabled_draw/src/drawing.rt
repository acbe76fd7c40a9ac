//! Tables that are laid out.

ghost use Rattle.std.specs.Prelude.{◌≡◌, ◌+◌, ◌<◌, IfOk, IsTrue, OnErr, OnOk, length};
ghost use Rattle.tabled_draw.specs.Borders.{is_drawn};
ghost use Rattle.tabled_draw.specs.Laid.{HasRoom, IsBand, IsSheet};
ghost use Rattle.tabled_draw.specs.Lines.{AreBegun, AreCutIf, EndInside, begun, bytes_in, drawn_border, drawn_picture, drawn_row, plan_on};
ghost use Rattle.tabled_held.specs.Pens.{Draws};
ghost use Rattle.tabled_draw.specs.Picture.{drawn, drawn_in};
ghost use Rattle.tabled_draw.specs.Unmerged.{AreUnmerged};
ghost use Rattle.tabled_draw.specs.Width.{picture_width};
ghost use Rattle.tabled_grid.specs.Grid.{IsInside, map_grid};

use crate::band::Band;
use crate::borders::{is_drawn, line_size};
use crate::growth::plus;
use crate::layout::{Layout, layout_of};
use crate::lines::{line_between, write_border_line, write_known_line, write_row_line};
use crate::look::Look;
use crate::owners::{Owner, are_unmerged, clear, write_owners};
use crate::sheet::Sheet;
use crate::style::Style;
use std::alloc::{AllocError, Global};
use std::io::{self, Write};
use std::marker::Model;
use std::mem;
use tabled_grid::config::{Position, Rectangle, SpannedConfig};
use tabled_grid::records::{CellText, ExactRecords, PeekableRecords, Records};
use tabled_held::{Held, Pen, run_of};

/// A table that is laid out, with all the memory that drawing it takes. A contract sees it as the bytes of its
/// picture.
///
/// Of this project.
#[derive(Drop)]
pub struct Drawing<'a, R>
where
    R: Records + ExactRecords + PeekableRecords,
    R::Cell: CellText,
{
    records: &'a R,
    spans: SpannedConfig,
    look: Look<'a>,
    layout: Layout,
    /// What is left of the text that begins in each column.
    rests: Vec<&'a str>,
    /// A run of the style's level border.
    level: Vec<u8>,
    /// The line between two rows without merged cells, if its bytes are kept.
    between: Vec<u8>,
    held: Held,
}

impl<'a, R> Model for Drawing<'a, R>
where
    R: Records + ExactRecords + PeekableRecords,
    R::Cell: CellText,
{
    ghost use Rattle.std.specs.Prelude.{ℕ, List};
    ghost use Rattle.tabled_draw.specs.Laid.{IsLaidOut};
    ghost use Rattle.tabled_draw.specs.Picture.{bytes_of_lines, picture};
    ghost use Rattle.tabled_grid.specs.Spans.{rectangles};
    ghost use Rattle.tabled_grid.specs.Grid.{map_grid};

    ghost Value = { List ℕ };

    ghost view = { λ a. bytes_of_lines (picture a.look.style a.look.alignments.now (map_grid R.Cell.text_of (R.grid a.records.now)) (rectangles a.spans)) };

    ghost invariant = { λ a. R.is_well_formed a.records.now × IsLaidOut (map_grid R.Cell.text_of (R.grid a.records.now)) a };
}

impl<'a, R> Drawing<'a, R>
where
    R: Records + ExactRecords + PeekableRecords,
    R::Cell: CellText,
{
    ghost use Rattle.std.specs.Io.KnownBytes.{Appends};
    ghost use Rattle.tabled_held.specs.Sent.{IsCutShort};

    /// Lays out a table (`r x c`) in the look that `tabled` has by default, as `with_look` does.
    pub fn new(alloc: Global, records: &'a R, cfg: &SpannedConfig) -> Result<Self, AllocError>
        requires well { R.is_well_formed records.now }
        ensures drawn { IfOk result (λ drawing. drawing ≡ drawn (map_grid R.Cell.text_of (R.grid records.now)) cfg.now) }
    {
        Drawing::with_look(alloc, records, cfg, &Look::new(Style::ascii()))
    }

    /// Lays out a table (`r x c`), with those of its merged cells that lie inside and share no cell with another one.
    ///
    /// This asks for all the memory that drawing takes, which grows with the table and not with its picture. Refused
    /// for memory, or where the widths or heights come to more than `usize::MAX`, it leaves the table as it is.
    pub fn with_look(
        alloc: Global,
        records: &'a R,
        cfg: &SpannedConfig,
        look: &Look<'a>,
    ) -> Result<Self, AllocError>
        requires well { R.is_well_formed records.now }
        ensures drawn { IfOk result (λ drawing. drawing ≡ drawn_in look.now (map_grid R.Cell.text_of (R.grid records.now)) cfg.now) }
    {
        let (drawing, _) = Drawing::with_width(alloc, records, cfg, look)?;
        Ok(drawing)
    }

    /// Lays out a table (`r x c`) as `with_look` does, and says how many columns each line of its picture takes.
    pub fn with_width(
        alloc: Global,
        records: &'a R,
        cfg: &SpannedConfig,
        look: &Look<'a>,
    ) -> Result<(Self, usize), AllocError>
        requires well { R.is_well_formed records.now }
        ensures drawn { IfOk result (λ both. both.0 ≡ drawn_in look.now (map_grid R.Cell.text_of (R.grid records.now)) cfg.now) }
        ensures width { IfOk result (λ both. both.1 ≡ picture_width look.now.style (map_grid R.Cell.text_of (R.grid records.now)) cfg.now) }
    {
        let rows = records.count_rows();
        let columns = records.count_columns();
        let spans = cfg.fitting(alloc, rows, columns)?;
        let layout = layout_of(alloc, records, &spans, &look.style)?;
        let before = layout.edges[columns];
        let last = line_size(look.style.columns, columns, columns);
        let width = plus(before, last)?;
        let rests = vec![in alloc; ""; columns]?;
        let level = run_of(alloc, look.style.horizontal)?;
        let sheet = Sheet {
            look: *look,
            rows,
            columns,
            heights: &layout.heights,
            edges: &layout.edges,
            level: &level,
            between: &[],
        };
        let between = line_between(alloc, &sheet)?;
        let held = Held::new(alloc)?;
        let drawing = Drawing {
            records,
            spans,
            look: *look,
            layout,
            rests,
            level,
            between,
            held,
        };
        Ok((drawing, width))
    }

    /// Writes the picture, part by part. It takes no memory and doesn't flush the writer. Where the writer fails, this is
    /// told, and it got the first bytes of the picture and not all.
    pub fn write<W: Write>(self, writer: &mut W) -> io::Result<()>
        ensures written { OnOk result (Appends (W.contents writer.old) (W.contents writer.new) self.entry) }
        ensures failed { OnErr result (IsCutShort (W.contents writer.old) (W.contents writer.new) self.entry) }
    {
        let Drawing {
            records,
            spans,
            look,
            layout,
            rests,
            level,
            between,
            held,
        } = self;
        let Layout {
            widths: _,
            edges,
            heights,
            above,
            here,
        } = layout;
        if heights.is_empty() || rests.is_empty() {
            return Ok(());
        }
        let sheet = Sheet {
            look,
            rows: heights.len(),
            columns: rests.len(),
            heights: &heights,
            edges: &edges,
            level: &level,
            between: &between,
        };
        let mut band = Band {
            above,
            here,
            next: 0,
            rests,
        };
        let mut pen = Pen::new(writer, held);
        write_lines(&mut pen, records, &spans, &sheet, &mut band);
        let (written, outcome) = pen.finish();
        // No effect: the proof reads here what the writer got.
        let _ = &*written;
        outcome
    }
}

/// Writes the lines of a table with cells.
fn write_lines<'a, W, R>(
    pen: &mut Pen<'_, W>,
    records: &'a R,
    cfg: &SpannedConfig,
    sheet: &Sheet<'_>,
    band: &mut Band<'a>,
)
where
    W: Write,
    R: Records + ExactRecords + PeekableRecords,
    R::Cell: CellText,
    requires well { R.is_well_formed records.now }
    requires sheet { IsSheet (map_grid R.Cell.text_of (R.grid records.now)) cfg.now sheet.now }
    requires room { HasRoom (R.grid records.now).columns band.old }
    requires next { band.old.next ≡ 0 }
    requires high { 0 < (R.grid records.now).rows }
    requires wide { 0 < (R.grid records.now).columns }
    ensures { Draws W.contents pen.old pen.new (drawn_picture sheet.now (map_grid R.Cell.text_of (R.grid records.now)) cfg.now) }
{
    clear(&mut band.above);
    for i in 0..sheet.rows {
        write_row(pen, records, cfg, sheet, i, band);
        if pen.has_failed() {
            return;
        }
    }
    clear(&mut band.here);
    let is_unmerged = cfg.rectangles().is_empty();
    write_border(
        pen,
        sheet,
        sheet.rows,
        is_unmerged,
        &band.above,
        &band.here,
        &mut band.rests,
    );
}

/// Writes the line above row i and the lines in it, and goes on to the line below it.
fn write_row<'a, W, R>(
    pen: &mut Pen<'_, W>,
    records: &'a R,
    cfg: &SpannedConfig,
    sheet: &Sheet<'_>,
    i: usize,
    band: &mut Band<'a>,
)
where
    W: Write,
    R: Records + ExactRecords + PeekableRecords,
    R::Cell: CellText,
    requires well { R.is_well_formed records.now }
    requires sheet { IsSheet (map_grid R.Cell.text_of (R.grid records.now)) cfg.now sheet.now }
    requires row { i < (R.grid records.now).rows }
    requires wide { 0 < (R.grid records.now).columns }
    requires band { IsBand (plan_on sheet.now (map_grid R.Cell.text_of (R.grid records.now)) cfg.now) i band.old }
    ensures band { IsBand (plan_on sheet.now (map_grid R.Cell.text_of (R.grid records.now)) cfg.now) (i + 1) band.new }
    ensures draws { Draws W.contents pen.old pen.new (drawn_row sheet.now (map_grid R.Cell.text_of (R.grid records.now)) cfg.now i) }
{
    band.next = write_owners(records, cfg, band.next, i, &band.above, &mut band.here);
    let is_unmerged = are_unmerged(cfg, &band.above, &band.here, i);
    write_border(
        pen,
        sheet,
        i,
        is_unmerged,
        &band.above,
        &band.here,
        &mut band.rests,
    );
    begin(records, i, &band.here, &mut band.rests);
    for _y in 0..sheet.heights[i] {
        write_row_line(pen, sheet, &band.here, &mut band.rests);
    }
    mem::swap(&mut band.above, &mut band.here);
}

/// Writes the line above a row, or below the last one, if it is drawn. It may be known that no cells are merged.
fn write_border<'a, W: Write>(
    pen: &mut Pen<'_, W>,
    sheet: &Sheet<'_>,
    i: usize,
    is_unmerged: bool,
    above: &[Owner],
    below: &[Owner],
    rests: &mut Vec<&'a str>,
)
    requires above { length above.now ≡ length rests.old.items + 2 }
    requires below { length below.now ≡ length rests.old.items + 2 }
    requires columns { sheet.now.columns ≡ length rests.old.items }
    requires inside { EndInside (length rests.old.items) above.now }
    requires unmerged { IsTrue is_unmerged → AreUnmerged sheet.now.rows (length rests.old.items) i above.now below.now }
    ensures long { length rests.new.items ≡ length rests.old.items }
    ensures draws { Draws W.contents pen.old pen.new (drawn_border sheet.now i above.now below.now (length rests.old.items) (bytes_in rests.old.items)) }
    ensures rests { AreCutIf (is_drawn sheet.now.look.style.rows sheet.now.rows i) above.now below.now rests.old.items rests.new.items }
{
    if !is_drawn(sheet.look.style.rows, sheet.rows, i) {
        return;
    }
    if is_unmerged {
        write_known_line(pen, sheet, i);
        return;
    }
    write_border_line(pen, sheet, above, below, rests);
}

/// Sets the texts whose cells begin in a row.
fn begin<'a, R>(records: &'a R, i: usize, here: &[Owner], rests: &mut Vec<&'a str>)
where
    R: Records + ExactRecords + PeekableRecords,
    R::Cell: CellText,
    requires well { R.is_well_formed records.now }
    requires row { i < (R.grid records.now).rows }
    requires here { length here.now ≡ (R.grid records.now).columns + 2 }
    requires long { length rests.old.items ≡ (R.grid records.now).columns }
    ensures long { length rests.new.items ≡ (R.grid records.now).columns }
    ensures begun { AreBegun (map_grid R.Cell.text_of (R.grid records.now)) i here.now rests.old.items rests.new.items }
{
    for j in 0..rests.len() {
        rests[j] = text_at(records, here[j + 1], Position { row: i, col: j }, rests[j]);
    }
}

/// The text at a place, if its owner begins there, else another one.
fn text_at<'a, R>(records: &'a R, owner: Owner, pos: Position, other: &'a str) -> &'a str
where
    R: Records + ExactRecords + PeekableRecords,
    R::Cell: CellText,
    requires well { R.is_well_formed records.now }
    requires inside { IsInside (R.grid records.now) pos }
    ensures { result.now ≡ begun (map_grid R.Cell.text_of (R.grid records.now)) owner pos other.now }
{
    match owner {
        Some(Rectangle { first, .. }) if first == pos => records.get_text(pos),
        _ => other,
    }
}
