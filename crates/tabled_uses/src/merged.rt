//! Merged cells as rectangles: asked of where they lie, and made larger.

ghost use Rattle.std.specs.Prelude.{◌≡◌, ◌&&◌, OnErr, not};
ghost use Rattle.tabled_grid.specs.Rectangles.{holds, lies_inside, meets};
ghost use Rattle.tabled_grid.specs.Spans.{is_cell};

use std::alloc::{AllocError, Global};
use tabled_grid::config::{Position, Rectangle, Size, SpannedConfig};
use tabled_grid::records::Axis;

/// Says whether a rectangle lies inside a table (`rows x columns`) and shares no cell with another one.
pub fn has_room(rectangle: Rectangle, other: Rectangle, rows: usize, columns: usize) -> bool
    ensures { result ≡ (lies_inside rows columns rectangle && not (meets rectangle other)) }
{
    rectangle.is_inside(rows, columns) && !rectangle.meets(other)
}

/// Says whether a place is a cell of a rectangle that merges some.
pub fn is_merged_into(rectangle: Rectangle, pos: Position) -> bool
    ensures { result ≡ (not (is_cell rectangle.size) && holds rectangle pos) }
{
    !rectangle.size.is_cell() && rectangle.holds(pos)
}

/// Lets the rectangle that is anchored at a place take one row, or column, more.
pub fn grows_by_one(
    alloc: Global,
    cfg: &mut SpannedConfig,
    axis: Axis,
    pos: Position,
) -> Result<(), AllocError>
    ensures err { OnErr result (cfg.new ≡ cfg.old) }
{
    let many = axis.lines_in(cfg.size(pos));
    cfg.set_span(alloc, axis, pos, many.saturating_add(1))
}

/// Takes a merged cell apart.
pub fn comes_apart(cfg: &mut SpannedConfig, alloc: Global, pos: Position) -> Result<(), AllocError>
    ensures err { OnErr result (cfg.new ≡ cfg.old) }
{
    let Size { height, width } = Size::CELL;
    cfg.set_span(alloc, Axis::Rows, pos, height)?;
    cfg.set_span(alloc, Axis::Columns, pos, width)
}
