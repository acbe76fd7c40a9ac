//! A part of a table.

ghost use Rattle.std.specs.Prelude.{◌≡◌, ◌+◌, ◌<◌, ◌^◌};
ghost use Rattle.std.specs.declared.ops.Bound.TheVariants.{Unbounded};
ghost use Rattle.tabled_grid.specs.Fitting.{Fits};
ghost use Rattle.tabled_settings.specs.Rearranged.{Rearranges, extracted, part, window};
ghost use Rattle.std.proofs.Common.{rules};

use crate::lines;
use std::alloc::{AllocError, Global};
use std::marker::Model;
use std::ops::{Range, RangeFull};
use tabled_carry::{FittingSpans, Moves, MovesCells, MovesRectangles, image_of};
use tabled_grid::config::{Entity, Position, Rectangle, Size, SpannedConfig, ToBounds};
use tabled_grid::records::{Axis, Blank, ExactRecords, Records, Resizable, shape_of};
use tabled_options::TableOption;

/// Keeps the rows of a range, and the columns of another. Only merged cells that don't fit the table take
/// memory; refused, it leaves the table as it was. A contract sees it as the two ranges.
///
/// `Extract::segment(0..9, 1..)` makes
///
/// ```text
/// a b      b
/// c d  of  d
/// ```
///
/// A range that is reversed, or that begins past the table, keeps nothing. Without rows no columns are
/// left; without columns the rows stay.
///
/// Merged cells go along if they fit the table and lie in the part whole: here `b` and `d` stay one cell if
/// they were one, and `c` and `d` are apart again.
///
/// Ported from `tabled::settings::Extract`.
#[derive(Drop)]
pub struct Extract<A, B> {
    rows: A,
    columns: B,
}

impl<A, B> Model for Extract<A, B> {
    ghost Value = { A × B };

    ghost view = { λ a. (a.rows, a.columns) };

    ghost inverse = { λ ranges. record { rows = ranges.0; columns = ranges.1 } };
}

impl<A: ToBounds, B: ToBounds> Extract<A, B> {
    /// The rows of a range, and of these the columns of another.
    ///
    /// Ported from `tabled::settings::Extract::segment`.
    pub fn segment(rows: A, columns: B) -> Self
        ensures { result ≡ (rows, columns) }
    {
        Extract { rows, columns }
    }
}

impl<A: ToBounds> Extract<A, RangeFull> {
    /// The rows of a range.
    ///
    /// Ported from `tabled::settings::Extract::rows`.
    pub fn rows(rows: A) -> Self
        ensures { result.0 ≡ rows }
    {
        Extract { rows, columns: .. }
    }
}

impl<B: ToBounds> Extract<RangeFull, B> {
    /// The columns of a range.
    ///
    /// Ported from `tabled::settings::Extract::columns`.
    pub fn columns(columns: B) -> Self
        ensures { result.1 ≡ columns }
    {
        Extract { rows: .., columns }
    }
}

impl<A, B, R, D> TableOption<R, SpannedConfig, D> for Extract<A, B>
where
    A: ToBounds + Drop,
    B: ToBounds + Drop,
    R: Records + ExactRecords + Resizable,
    R::Cell: Blank,
{
    ghost does = { λ s old. Rearranges (extracted (A.bounds_of s.0) (B.bounds_of s.1) old.rows old.columns) old };

    ghost never_refused = { λ _ g c. Fits c g.rows g.columns };

    fn change(
        self,
        alloc: Global,
        records: &mut R,
        cfg: &mut SpannedConfig,
        _dimension: &mut D,
    ) -> Result<(), AllocError> {
        let table = shape_of(records);
        let in_rows = self.rows.to_range(table.height);
        let in_columns = self.columns.to_range(table.width);
        let part = Window::of(&in_rows, &in_columns, table);
        let fitting = FittingSpans::of(alloc, cfg, table)?;
        lines::keep(Axis::Rows, records, in_rows);
        lines::keep(Axis::Columns, records, in_columns);
        fitting.carry_along(alloc, &part, cfg);
        Ok(())
    }

    fn hint_change(&self) -> Option<Entity> {
        Some(Entity::Global)
    }

    ghost acts_like = { Prim.search rules };
}

/// The cells of a part of a table.
#[derive(Drop)]
struct Window {
    cells: Rectangle,
    ghost bottom: { cells.first.row + cells.size.height < 2 ^ 64 },
    ghost right: { cells.first.col + cells.size.width < 2 ^ 64 },
}

impl Window {
    /// Those of two ranges, of a table of a shape.
    fn of(in_rows: &Range<usize>, in_columns: &Range<usize>, table: Size) -> Self
        ensures { window result.cells ≡ part in_rows.now.start in_rows.now.end in_columns.now.start in_columns.now.end table.height table.width }
    {
        let height = lines::count_in(in_rows, table.height);
        let columns = lines::count_in(in_columns, table.width);
        let width = if height == 0 { 0 } else { columns };
        let cells = Rectangle {
            first: Position::new(in_rows.start, in_columns.start),
            size: Size { height, width },
        };
        Window { cells }
    }
}

impl Moves for Window {
    ghost places = { λ w. window w.cells };
}

impl MovesCells for Window {
    fn new_place(&self, pos: Position) -> Option<Position> {
        let Rectangle { first, size } = self.cells;
        let row = pos.row.checked_sub(first.row)?;
        let col = pos.col.checked_sub(first.col)?;
        (row < size.height && col < size.width).then_some(Position::new(row, col))
    }
}

impl MovesRectangles for Window {
    fn new_rectangle(&self, of: Rectangle) -> Option<Rectangle> {
        image_of(self, of)
    }
}
