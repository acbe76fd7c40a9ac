//! Neighbouring lines of a table as a block of cells, and the neighbours in one.

ghost use Rattle.std.specs.Prelude.{◌≡◌, ◌↔◌, ◌<◌, ◌+◌, ◌≤◌, IsTrue, List, ℕ};
ghost use Rattle.tabled_grid.specs.Axis.{across, lines_in};
ghost use Rattle.tabled_grid.specs.Grid.{Grid, IsInside};
ghost use Rattle.tabled_grid.specs.Rectangles.{In};
ghost use Rattle.tabled_grid.specs.declared.config.entity.Entity.TheVariants.{Global};
ghost use Rattle.tabled_grid.specs.declared.config.position.Position.{Position};
ghost use Rattle.tabled_spans.specs.Lines.{line_at};
ghost use Rattle.tabled_spans.specs.RunSteps.{IsBand};

use tabled_grid::config::{Position, Rectangle, Size};
use tabled_grid::records::Axis;

/// Some neighbouring lines of a table's cells, as a block of them.
pub(super) fn block_of_lines(axis: Axis, table: Size, line: usize, many: usize) -> Rectangle
    requires { line + many ≤ lines_in (across axis) table }
    ensures band { (g : Grid (List ℕ)) → g.rows ≡ table.height → g.columns ≡ table.width → IsBand axis Global g result }
    ensures cells { (g : Grid (List ℕ)) → g.rows ≡ table.height → g.columns ≡ table.width → (p : Position) → IsInside g p → line ≤ line_at axis p → line_at axis p < line + many → In result p }
    ensures bottom { result.first.row + result.size.height ≤ table.height }
    ensures right { result.first.col + result.size.width ≤ table.width }
{
    let across = axis.across();
    Rectangle {
        first: across.in_line(Position { row: 0, col: 0 }, line),
        size: across.resized(table, many),
    }
}

/// Says whether a block has a cell and the next one along an axis.
pub(super) fn has_neighbours(axis: Axis, size: Size) -> bool
    ensures { IsTrue result ↔ ((2 ≤ lines_in axis size) × (1 ≤ lines_in (across axis) size)) }
{
    axis.lines_in(size) > 1 && axis.across().lines_in(size) > 0
}
