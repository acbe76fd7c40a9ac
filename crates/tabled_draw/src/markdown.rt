//! Tables as Markdown.

ghost use Rattle.std.specs.Prelude.{◌≡◌, ◌++◌, ◌∷◌, [], IfOk, OnErr, OnOk, chars, length, map, replicate};
ghost use Rattle.std.specs.Io.KnownBytes.{Appends};
ghost use Rattle.tabled_draw.specs.Alignments.{aligned};
ghost use Rattle.tabled_draw.specs.Each.{each};
ghost use Rattle.tabled_draw.specs.Markdown.{characters, dashes, dashes_line, first_dash, last_dash, lines_at, markdown, row_line, rows_of_characters};
ghost use Rattle.tabled_draw.specs.Picture.{IsDrawn, LeavesSome, with_newlines};
ghost use Rattle.tabled_grid.specs.Evenness.{AreWide};
ghost use Rattle.tabled_grid.specs.Grid.{map_grid, map_items};
ghost use Rattle.tabled_held.specs.Pens.{Draws};
ghost use Rattle.tabled_held.specs.Sent.{IsCutShort};

use crate::alignment::{Alignment, alignment_in, indent};
use crate::markdown_texts::{markdown_widths, texts_apart};
use std::alloc::{AllocError, Global};
use std::io::{self, Write};
use std::marker::Model;
use tabled_grid::config::SpannedConfig;
use tabled_grid::records::{CellText, ExactRecords, PeekableRecords, Records};
use tabled_held::{Held, Pen};
use tabled_width::columns_of;

/// Writes a table (`r x c`) as Markdown, its first row as the header, with texts aligned by columns as `Look::align`
/// says. A reader of Markdown shows each text as it stands; of merged cells, which Markdown doesn't know, the first cell
/// has the text, and the others are empty. A table without cells has no line.
///
/// All memory is asked for before the first byte is written: refused, this is an error of the kind `OutOfMemory`, and
/// nothing is written. Any other error is the writer's, which got the first bytes of the lines and not all. It doesn't
/// flush the writer.
///
/// Of this project: `Style::markdown` draws texts as they are, as the original crate does.
pub fn draw_markdown<W, R>(
    alloc: Global,
    writer: &mut W,
    records: &R,
    cfg: &SpannedConfig,
    alignments: &[Alignment],
) -> io::Result<()>
where
    W: Write,
    R: Records + ExactRecords + PeekableRecords,
    R::Cell: CellText,
    requires well { R.is_well_formed records.now }
    ensures drawn { IsDrawn W.contents result writer.old writer.new (markdown alignments.now (map_grid R.Cell.text_of (R.grid records.now)) cfg.now) }
    ensures failed { LeavesSome W.contents result writer.old writer.new (markdown alignments.now (map_grid R.Cell.text_of (R.grid records.now)) cfg.now) }
{
    let markdown = Markdown::new(alloc, records, cfg, alignments)?;
    markdown.write(writer)
}

/// A table as Markdown, with all the memory that writing it takes. A contract sees it as its bytes.
///
/// Of this project.
#[derive(Drop)]
pub struct Markdown<'a> {
    /// What stands for the texts, row by row.
    rows: Vec<Vec<String>>,
    /// How wide each column is.
    widths: Vec<usize>,
    alignments: &'a [Alignment],
    held: Held,
}

impl<'a> Model for Markdown<'a> {
    ghost use Rattle.std.specs.Prelude.{◌≡◌, ℕ, [], List, None, length};
    ghost use Rattle.tabled_draw.specs.Markdown.{lines_of, rows_of_characters};
    ghost use Rattle.tabled_draw.specs.Picture.{bytes_of_lines};
    ghost use Rattle.tabled_grid.specs.Evenness.{AreWide};
    ghost use Rattle.tabled_grid.specs.Grid.{map_items};

    ghost Value = { List ℕ };

    ghost view = { λ a. bytes_of_lines (lines_of a.alignments.now a.widths.items (rows_of_characters a.rows.items)) };

    ghost invariant = { λ a. AreWide (length a.widths.items) (map_items a.rows.items) × (a.held.bytes ≡ []) × (a.held.failure ≡ None) };
}

impl<'a> Markdown<'a> {
    /// Makes what stands for the texts of a table (`r x c`), and asks for all the memory that writing takes. Refused, it
    /// leaves the table as it is.
    pub fn new<R>(
        alloc: Global,
        records: &R,
        cfg: &SpannedConfig,
        alignments: &'a [Alignment],
    ) -> Result<Self, AllocError>
    where
        R: Records + ExactRecords + PeekableRecords,
        R::Cell: CellText,
        requires well { R.is_well_formed records.now }
        ensures bytes { IfOk result (λ made. made ≡ markdown alignments.now (map_grid R.Cell.text_of (R.grid records.now)) cfg.now) }
    {
        let rows = texts_apart(alloc, records, cfg)?;
        let widths = markdown_widths(alloc, &rows, records.count_columns())?;
        let held = Held::new(alloc)?;
        Ok(Markdown {
            rows,
            widths,
            alignments,
            held,
        })
    }

    /// Writes the lines, part by part. It takes no memory and doesn't flush the writer. Where the writer fails, this is
    /// told, and it got the first bytes of the lines and not all.
    pub fn write<W: Write>(self, writer: &mut W) -> io::Result<()>
        ensures written { OnOk result (Appends (W.contents writer.old) (W.contents writer.new) self.entry) }
        ensures failed { OnErr result (IsCutShort (W.contents writer.old) (W.contents writer.new) self.entry) }
    {
        let Markdown {
            rows,
            widths,
            alignments,
            held,
        } = self;
        if widths.is_empty() {
            return Ok(());
        }
        let mut pen = Pen::new(writer, held);
        write_lines(&mut pen, &rows, &widths, alignments);
        let (written, outcome) = pen.finish();
        // No effect: the proof reads here what the writer got.
        let _ = &*written;
        outcome
    }
}

/// Writes the lines of rows.
fn write_lines<W: Write>(
    pen: &mut Pen<'_, W>,
    rows: &[Vec<String>],
    widths: &[usize],
    alignments: &[Alignment],
)
    requires { AreWide (length widths.now) (map_items rows.now) }
    ensures { Draws W.contents pen.old pen.new (
        with_newlines (each (length rows.now) (lines_at alignments.now widths.now (rows_of_characters rows.now)))) }
{
    for i in 0..rows.len() {
        write_row(pen, &rows[i], widths, alignments);
        if i == 0 {
            write_dashes_line(pen, widths, alignments);
        }
        if pen.has_failed() {
            return;
        }
    }
}

/// Writes the line of a row.
fn write_row<W: Write>(
    pen: &mut Pen<'_, W>,
    row: &[String],
    widths: &[usize],
    alignments: &[Alignment],
)
    requires { length row.now ≡ length widths.now }
    ensures { Draws W.contents pen.old pen.new (row_line alignments.now widths.now (map characters row.now) ++ 10 ∷ []) }
{
    for j in 0..widths.len() {
        pen.draw('|');
        write_cell(pen, alignment_in(alignments, j), &row[j], widths[j]);
    }
    pen.draw('|');
    pen.end_line();
}

/// Writes what stands for a text, aligned in its column, with one blank more at both sides.
fn write_cell<W: Write>(pen: &mut Pen<'_, W>, alignment: Alignment, text: &str, width: usize)
    ensures { Draws W.contents pen.old pen.new (aligned alignment width (chars text.now)) }
{
    let free = width.saturating_sub(columns_of(text));
    let before = indent(alignment, free);
    pen.draw(' ');
    pen.draw_blanks(before);
    pen.send(text.as_bytes());
    pen.draw_blanks(free.saturating_sub(before));
    pen.draw(' ');
}

/// Writes the line of dashes.
fn write_dashes_line<W: Write>(pen: &mut Pen<'_, W>, widths: &[usize], alignments: &[Alignment])
    ensures { Draws W.contents pen.old pen.new (dashes_line alignments.now widths.now ++ 10 ∷ []) }
{
    for j in 0..widths.len() {
        pen.draw('|');
        write_dashes(pen, alignment_in(alignments, j), widths[j]);
    }
    pen.draw('|');
    pen.end_line();
}

/// Writes the dashes of a column, whose ends say how its texts are aligned.
fn write_dashes<W: Write>(pen: &mut Pen<'_, W>, alignment: Alignment, width: usize)
    ensures { Draws W.contents pen.old pen.new (dashes alignment width) }
{
    pen.draw(first_dash(alignment));
    write_level_dashes(pen, width);
    pen.draw(last_dash(alignment));
}

/// Writes dashes.
fn write_level_dashes<W: Write>(pen: &mut Pen<'_, W>, count: usize)
    ensures { Draws W.contents pen.old pen.new (replicate count 45) }
{
    for _ in 0..count {
        pen.draw('-');
    }
}

/// What the dashes of a column begin with.
fn first_dash(alignment: Alignment) -> char
    ensures { result ≡ first_dash alignment }
{
    match alignment {
        Alignment::Left | Alignment::Right => '-',
        Alignment::Center => ':',
    }
}

/// What the dashes of a column end with.
fn last_dash(alignment: Alignment) -> char
    ensures { result ≡ last_dash alignment }
{
    match alignment {
        Alignment::Left => '-',
        Alignment::Center | Alignment::Right => ':',
    }
}
