//! The picture of a table, and a table as Markdown.

ghost use Rattle.std.specs.Io.KnownBytes.{Appends};
ghost use Rattle.std.specs.Prelude.{◌≡◌, IfErr, IfOk, OnOk};
ghost use Rattle.tabled_draw.specs.Markdown.{markdown};
ghost use Rattle.tabled_draw.specs.Picture.{drawn_with};
ghost use Rattle.tabled_draw.specs.Width.{picture_width};
ghost use Rattle.tabled_grid.specs.Grid.{IsEven, grid_of, map_grid, map_items};
ghost use Rattle.tabled_script.specs.InMemory.{texts_by};
ghost use Rattle.tabled_script.specs.Narrow.{WritesNarrowPicture};
ghost use Rattle.tabled_script.specs.Outcome.{Fails, IsTooNarrow, OnlyFails};

use crate::narrow::{at_widest_pieces, cut_to};
use crate::outcome::{Outcome, Unwritten};
use std::alloc::{AllocError, Global};
use std::io::Write;
use tabled_draw::laws::lines_take_the_width_of_their_picture;
use tabled_draw::{Alignment, Drawing, Look, Markdown, Style};
use tabled_grid::config::SpannedConfig;
use tabled_grid::records::{CellText, ExactRecords, PeekableRecords, Records};

/// Writes the picture of a table with those of its merged cells that fit, and flushes the writer. All memory is
/// asked for before the first byte: refused, nothing is written.
pub(crate) fn write_picture<T: CellText, W: Write>(
    alloc: Global,
    records: Vec<Vec<T>>,
    cfg: &SpannedConfig,
    style: Style,
    alignments: &[Alignment],
    writer: &mut W,
) -> Outcome
    requires { IsEven (grid_of (map_items records.items)) }
    ensures written { OnOk result (
        Appends (W.contents writer.old) (W.contents writer.new) (drawn_with style alignments.now (texts_by T.text_of records.items) cfg.now)) }
    ensures unwritten { IfErr result (OnlyFails (W.contents writer.old) (W.contents writer.new)) }
{
    let look = Look::new(style).align(alignments);
    let drawing = Drawing::with_look(alloc, &records, cfg, &look)?;
    write_drawing(drawing, writer)
}

/// No picture is as narrow as is asked for.
#[derive(Clone, Copy)]
pub(crate) struct TooNarrow {
    asked: usize,
    /// The columns of the picture in which texts are cut as far as may be.
    takes: usize,
}

impl TooNarrow {
    /// Tells how many columns a picture takes. Nothing is told where that can't be written, or memory runs out.
    pub(crate) fn tell<E: Write>(self, alloc: Global, errors: &mut E) {
        let TooNarrow { asked, takes } = self;
        if let Ok(line) = format!(in alloc;
            "tabled_script: no picture of the table is as narrow as {asked} columns: it takes {takes}; keep fewer columns, or write --width {takes}\n"
        ) {
            // Where it can't be told, the answer is the same.
            let _ = errors.write_all(line.as_bytes());
        }
    }
}

/// Writes a picture of a table of at most `width` columns, in which texts are wrapped where that is needed. Where no picture
/// is that narrow, nothing is written.
pub(crate) fn write_narrow_picture<'a, R, W>(
    alloc: Global,
    records: &'a R,
    cfg: &SpannedConfig,
    style: Style,
    alignments: &'a [Alignment],
    width: usize,
    writer: &mut W,
) -> Outcome
where
    R: Records + ExactRecords + PeekableRecords,
    R::Cell: CellText,
    W: Write,
    requires { R.is_well_formed records.now }
    ensures written { OnOk result (
        WritesNarrowPicture width style alignments.now (map_grid R.Cell.text_of (R.grid records.now)) cfg.now (W.contents writer.old) (W.contents writer.new)) }
    ensures unwritten { IfErr result (
        Fails (IsTooNarrow width style cfg.now (map_grid R.Cell.text_of (R.grid records.now))) (λ _. ⊥) (W.contents writer.old) (W.contents writer.new)) }
{
    lines_take_the_width_of_their_picture();
    let (whole, columns) = laid_out(alloc, records, cfg, style, alignments)?;
    if columns <= width {
        return write_drawing(whole, writer);
    }
    let pieces = at_widest_pieces(alloc, records)?;
    let (least, takes) = laid_out(alloc, &pieces, cfg, style, alignments)?;
    if width < takes {
        return Err(Unwritten::TooNarrow(TooNarrow {
            asked: width,
            takes,
        }));
    }
    let cut = cut_to(alloc, records, &pieces, cfg, &style, width)?;
    let (drawing, columns) = laid_out(alloc, &cut, cfg, style, alignments)?;
    if columns <= width {
        return write_drawing(drawing, writer);
    }
    write_drawing(least, writer)
}

/// The picture of a table, laid out, and the columns that each of its lines takes.
fn laid_out<'a, R>(
    alloc: Global,
    records: &'a R,
    cfg: &SpannedConfig,
    style: Style,
    alignments: &'a [Alignment],
) -> Result<(Drawing<'a, R>, usize), AllocError>
where
    R: Records + ExactRecords + PeekableRecords,
    R::Cell: CellText,
    requires { R.is_well_formed records.now }
    ensures drawn { IfOk result (λ both. both.0 ≡ drawn_with style alignments.now (map_grid R.Cell.text_of (R.grid records.now)) cfg.now) }
    ensures width { IfOk result (λ both. both.1 ≡ picture_width style (map_grid R.Cell.text_of (R.grid records.now)) cfg.now) }
{
    let look = Look::new(style).align(alignments);
    Drawing::with_width(alloc, records, cfg, &look)
}

/// Writes a table as Markdown, and flushes the writer. All memory is asked for before the first byte: refused, nothing
/// is written.
pub(crate) fn write_markdown<T: CellText, W: Write>(
    alloc: Global,
    records: Vec<Vec<T>>,
    cfg: &SpannedConfig,
    alignments: &[Alignment],
    writer: &mut W,
) -> Outcome
    requires { IsEven (grid_of (map_items records.items)) }
    ensures written { OnOk result (
        Appends (W.contents writer.old) (W.contents writer.new) (markdown alignments.now (texts_by T.text_of records.items) cfg.now)) }
    ensures unwritten { IfErr result (OnlyFails (W.contents writer.old) (W.contents writer.new)) }
{
    let markdown = Markdown::new(alloc, &records, cfg, alignments)?;
    markdown.write(writer)?;
    writer.flush()?;
    Ok(())
}

/// Writes a picture, and flushes the writer.
fn write_drawing<R, W>(drawing: Drawing<R>, writer: &mut W) -> Outcome
where
    R: Records + ExactRecords + PeekableRecords,
    R::Cell: CellText,
    W: Write,
    ensures written { OnOk result (Appends (W.contents writer.old) (W.contents writer.new) drawing.entry) }
    ensures unwritten { IfErr result (OnlyFails (W.contents writer.old) (W.contents writer.new)) }
{
    drawing.write(writer)?;
    writer.flush()?;
    Ok(())
}
