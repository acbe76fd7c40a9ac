//! How wide columns and how high rows are.

ghost use Rattle.std.specs.Prelude.{◌≡◌, ◌+◌, ◌<◌, IfOk, length};
ghost use Rattle.tabled_grid.specs.Spans.{rectangles};
ghost use Rattle.tabled_draw.specs.Laid.{AreEdgesOf, IsLayout};
ghost use Rattle.tabled_draw.specs.Owners.{IsOwnerRow};
ghost use Rattle.tabled_draw.specs.Picture.{plan_of};
ghost use Rattle.tabled_draw.specs.Sizes.{Measured, own_sizes, raised};
ghost use Rattle.tabled_grid.specs.Grid.{IsInside, map_grid};
ghost use Rattle.tabled_grid.specs.Fitting.{Fits};
ghost use Rattle.tabled_grid.specs.declared.records.axis.Axis.TheVariants.{Rows, Columns};

use crate::borders::{line_size, pad};
use crate::growth::{grow_all, plus};
use crate::owners::{Owner, clear, owner_row, write_owners};
use crate::style::{Lines, Style};
use crate::texts::asked;
use std::alloc::{AllocError, Global};
use std::mem;
use tabled_grid::config::{Position, Rectangle, SpannedConfig};
use tabled_grid::records::{Axis, CellText, ExactRecords, PeekableRecords, Records};

/// Where columns and rows lie, and room for the owners of the places of two rows.
#[derive(Drop)]
pub(crate) struct Layout {
    /// How wide each column is.
    pub(crate) widths: Vec<usize>,
    /// Where the left edge of each column stands, and the last edge.
    pub(crate) edges: Vec<usize>,
    /// How high each row is.
    pub(crate) heights: Vec<usize>,
    pub(crate) above: Vec<Owner>,
    pub(crate) here: Vec<Owner>,
}

/// Lays out a table.
pub(crate) fn layout_of<R>(
    alloc: Global,
    records: &R,
    cfg: &SpannedConfig,
    style: &Style,
) -> Result<Layout, AllocError>
where
    R: Records + ExactRecords + PeekableRecords,
    R::Cell: CellText,
    requires well { R.is_well_formed records.now }
    requires fits { Fits cfg.now (R.grid records.now).rows (R.grid records.now).columns }
    ensures { IfOk result (λ layout. IsLayout (plan_of style.now (map_grid R.Cell.text_of (R.grid records.now)) (rectangles cfg.now)) layout) }
{
    let columns = records.count_columns();
    let mut above = owner_row(alloc, columns)?;
    let mut here = owner_row(alloc, columns)?;
    let mut widths = vec![in alloc; 0; columns]?;
    let mut heights = vec![in alloc; 1; records.count_rows()]?;
    raise_all(
        records,
        cfg,
        &mut above,
        &mut here,
        &mut widths,
        &mut heights,
    );
    grow_all(alloc, records, cfg, style, Axis::Columns, &mut widths)?;
    grow_all(alloc, records, cfg, style, Axis::Rows, &mut heights)?;
    let edges = edges(alloc, style.columns, &widths)?;
    Ok(Layout {
        widths,
        edges,
        heights,
        above,
        here,
    })
}

/// Raises sizes, which are the least ones, to what the texts ask that are seen in one row, or in one column.
fn raise_all<R>(
    records: &R,
    cfg: &SpannedConfig,
    above: &mut Vec<Owner>,
    here: &mut Vec<Owner>,
    widths: &mut Vec<usize>,
    heights: &mut Vec<usize>,
)
where
    R: Records + ExactRecords + PeekableRecords,
    R::Cell: CellText,
    requires well { R.is_well_formed records.now }
    requires fits { Fits cfg.now (R.grid records.now).rows (R.grid records.now).columns }
    requires above { length above.old.items ≡ (R.grid records.now).columns + 2 }
    requires here { length here.old.items ≡ (R.grid records.now).columns + 2 }
    requires widths { Measured Columns (map_grid R.Cell.text_of (R.grid records.now)) (rectangles cfg.now) 0 0 widths.old.items }
    requires heights { Measured Rows (map_grid R.Cell.text_of (R.grid records.now)) (rectangles cfg.now) 0 0 heights.old.items }
    ensures above { length above.new.items ≡ (R.grid records.now).columns + 2 }
    ensures here { length here.new.items ≡ (R.grid records.now).columns + 2 }
    ensures widths { widths.new.items ≡ own_sizes Columns (map_grid R.Cell.text_of (R.grid records.now)) (rectangles cfg.now) }
    ensures heights { heights.new.items ≡ own_sizes Rows (map_grid R.Cell.text_of (R.grid records.now)) (rectangles cfg.now) }
{
    clear(above);
    let mut next = 0;
    for i in 0..records.count_rows() {
        next = write_owners(records, cfg, next, i, above, here);
        raise_row(records, cfg, i, here, widths, heights);
        mem::swap(above, here);
    }
}

/// Raises sizes to what the texts of a row ask.
fn raise_row<R>(
    records: &R,
    cfg: &SpannedConfig,
    i: usize,
    here: &Vec<Owner>,
    widths: &mut Vec<usize>,
    heights: &mut Vec<usize>,
)
where
    R: Records + ExactRecords + PeekableRecords,
    R::Cell: CellText,
    requires well { R.is_well_formed records.now }
    requires row { i < (R.grid records.now).rows }
    requires here { IsOwnerRow (R.grid records.now).rows (R.grid records.now).columns (rectangles cfg.now) (i + 1) here.now.items }
    requires widths { Measured Columns (map_grid R.Cell.text_of (R.grid records.now)) (rectangles cfg.now) i 0 widths.old.items }
    requires heights { Measured Rows (map_grid R.Cell.text_of (R.grid records.now)) (rectangles cfg.now) i 0 heights.old.items }
    ensures widths { Measured Columns (map_grid R.Cell.text_of (R.grid records.now)) (rectangles cfg.now) (i + 1) 0 widths.new.items }
    ensures heights { Measured Rows (map_grid R.Cell.text_of (R.grid records.now)) (rectangles cfg.now) (i + 1) 0 heights.new.items }
{
    for j in 0..records.count_columns() {
        let pos = Position { row: i, col: j };
        raise(records, here[j + 1], pos, widths, heights);
    }
}

/// Raises sizes to what the text of a place asks, if its owner begins there: its column's width if the owner is one
/// column wide, and its row's height if the owner is one row high.
fn raise<R>(
    records: &R,
    owner: Owner,
    pos: Position,
    widths: &mut Vec<usize>,
    heights: &mut Vec<usize>,
)
where
    R: Records + ExactRecords + PeekableRecords,
    R::Cell: CellText,
    requires well { R.is_well_formed records.now }
    requires inside { IsInside (R.grid records.now) pos }
    requires column { pos.col < length widths.old.items }
    requires row { pos.row < length heights.old.items }
    ensures widths { widths.new.items ≡ raised Columns (map_grid R.Cell.text_of (R.grid records.now)) widths.old.items owner pos }
    ensures heights { heights.new.items ≡ raised Rows (map_grid R.Cell.text_of (R.grid records.now)) heights.old.items owner pos }
{
    if let Some(Rectangle { first, size }) = owner
        && first == pos
    {
        let need = asked(records.get_text(pos));
        if size.width == 1 {
            widths[pos.col] = widths[pos.col].max(need.width);
        }
        if size.height == 1 {
            heights[pos.row] = heights[pos.row].max(need.height);
        }
    }
}

/// Where the left edge of each column stands, and the last edge.
fn edges(alloc: Global, lines: Lines, widths: &[usize]) -> Result<Vec<usize>, AllocError>
    ensures { IfOk result (λ edges. AreEdgesOf lines widths.now edges.items) }
{
    let mut edges = Vec::new(alloc);
    let mut edge = 0;
    edges.push(edge)?;
    for k in 0..widths.len() {
        edge = plus(
            plus(plus(edge, line_size(lines, widths.len(), k))?, widths[k])?,
            pad(Axis::Columns),
        )?;
        edges.push(edge)?;
    }
    Ok(edges)
}
