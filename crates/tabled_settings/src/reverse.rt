//! Rows or columns in the opposite order.

ghost use Rattle.std.specs.Prelude.{◌≡◌, ◌<◌, ◌≤◌, ◌⊎◌, IfSome, IsNone, false};
ghost use Rattle.tabled_grid.specs.declared.config.offset.Offset.TheVariants.{End};
ghost use Rattle.tabled_grid.specs.declared.records.axis.Axis.TheVariants.{Columns, Rows};
ghost use Rattle.tabled_grid.specs.Axis.{count_of, in_line, line_of};
ghost use Rattle.tabled_grid.specs.Fitting.{Fits};
ghost use Rattle.tabled_settings.specs.Rearranged.{ReversesTable, limit_end, lines_from, reversed_index, reverses};
ghost use Rattle.std.proofs.Common.{rules};

use crate::lines;
use std::alloc::{AllocError, Global};
use tabled_carry::{FittingSpans, Moves, MovesCells, MovesRectangles, image_of};
use tabled_grid::config::{Entity, Offset, Position, Rectangle, Size, SpannedConfig};
use tabled_grid::records::{Axis, Blank, ExactRecords, Records, Resizable, shape_of};
use tabled_options::TableOption;

/// Puts rows or columns, from a start up to a limit, into the opposite order, and merged cells with them. It
/// takes no memory where all merged cells fit the table. Refused, it leaves the table as it was.
///
/// Where the start isn't before the limit, or the limit is past the table, it changes nothing, which takes no
/// memory, either.
/// `Reverse::columns(1)` makes
///
/// ```text
/// a b c      a c b
/// d e f  of  d f e
/// ```
///
/// Ported from `tabled::settings::Reverse`, which under- or overflows where the limit doesn't exist.
#[derive(Clone, Copy, Debug, PartialEq, Eq, PartialOrd, Ord, Hash)]
pub struct Reverse {
    pub axis: Axis,
    pub start: usize,
    pub limit: Offset,
}

impl Reverse {
    /// The rows from an index on.
    ///
    /// Ported from `tabled::settings::Reverse::rows`.
    pub fn rows(start: usize) -> Self
        ensures { result ≡ record { axis = Rows; start = start; limit = End 0 } }
    {
        Reverse {
            axis: Axis::Rows,
            start,
            limit: Offset::End(0),
        }
    }

    /// The columns from an index on.
    ///
    /// Ported from `tabled::settings::Reverse::columns`.
    pub fn columns(start: usize) -> Self
        ensures { result ≡ record { axis = Columns; start = start; limit = End 0 } }
    {
        Reverse {
            axis: Axis::Columns,
            start,
            limit: Offset::End(0),
        }
    }

    /// n of them, or all but n of the last.
    ///
    /// Ported from `tabled::settings::Reverse::limit`.
    pub fn limit(self, limit: Offset) -> Self
        ensures { result ≡ record self { limit = limit } }
    {
        Reverse { limit, ..self }
    }

    /// The index past the last line that is reversed, of n lines, if there are lines to reverse.
    fn end(self, count: usize) -> Option<usize>
        ensures some { IfSome result (λ end. (end ≡ limit_end self.limit self.start count) × (self.start < end) × (end ≤ count)) }
        ensures none { IsNone result → (limit_end self.limit self.start count ≤ self.start) ⊎ (count < limit_end self.limit self.start count) }
    {
        let end = match self.limit {
            Offset::Start(limit) => self.start.checked_add(limit)?,
            Offset::End(limit) => count.checked_sub(limit)?,
        };
        if self.start < end && end <= count {
            Some(end)
        } else {
            None
        }
    }
}

impl<R, D> TableOption<R, SpannedConfig, D> for Reverse
where
    R: Records + ExactRecords + Resizable,
    R::Cell: Blank,
{
    ghost does = { ReversesTable };

    ghost never_refused = { λ s g c. (reverses s.axis s.start s.limit g.rows g.columns ≡ false) ⊎ Fits c g.rows g.columns };

    fn change(
        self,
        alloc: Global,
        records: &mut R,
        cfg: &mut SpannedConfig,
        _dimension: &mut D,
    ) -> Result<(), AllocError> {
        let table = shape_of(records);
        let count = self.axis.count_of(table.height, table.width);
        let Some(end) = self.end(count) else {
            return Ok(());
        };
        let mirror = Mirror {
            axis: self.axis,
            start: self.start,
            end,
            table,
        };
        let fitting = FittingSpans::of(alloc, cfg, table)?;
        lines::reverse(self.axis, records, self.start, end);
        fitting.carry_along(alloc, &mirror, cfg);
        Ok(())
    }

    fn hint_change(&self) -> Option<Entity> {
        Some(Entity::Global)
    }

    ghost acts_like = { Prim.search rules };
}

/// Lines of a table of a shape in the opposite order, from a start up to an end.
#[derive(Drop)]
struct Mirror {
    axis: Axis,
    start: usize,
    end: usize,
    table: Size,
    ghost within: { end ≤ count_of axis table.height table.width },
}

impl Mirror {
    /// The other index of a pair, or an index beside the lines that are reversed.
    fn index(&self, i: usize) -> usize
        ensures { let m = self.now in result ≡ reversed_index m.start m.end (count_of m.axis m.table.height m.table.width) i }
    {
        if self.start <= i && i < self.end {
            self.start + (self.end - 1 - i)
        } else {
            i
        }
    }
}

impl Moves for Mirror {
    ghost places = { λ m. lines_from m.axis (reversed_index m.start m.end (count_of m.axis m.table.height m.table.width)) m.table.height m.table.width };
}

impl MovesCells for Mirror {
    fn new_place(&self, pos: Position) -> Option<Position> {
        if pos.row < self.table.height && pos.col < self.table.width {
            let line = self.index(self.axis.line_of(pos));
            Some(self.axis.in_line(pos, line))
        } else {
            None
        }
    }
}

impl MovesRectangles for Mirror {
    fn new_rectangle(&self, of: Rectangle) -> Option<Rectangle> {
        let Rectangle {
            first,
            size: Size { height, width },
        } = of;
        let table = self.table;
        if first.row + height > table.height || first.col + width > table.width {
            return image_of(self, of);
        }
        let line = self.axis.line_of(first);
        let past = line + self.axis.count_of(height, width);
        if past <= self.start || self.end <= line {
            return Some(of);
        }
        if self.start <= line && past <= self.end {
            let place = self.axis.in_line(first, self.start + (self.end - past));
            return Some(Rectangle {
                first: place,
                size: of.size,
            });
        }
        image_of(self, of)
    }
}
