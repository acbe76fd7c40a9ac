//! Blocks of cells.

ghost use Rattle.std.specs.Prelude.{◌≡◌};
ghost use Rattle.std.specs.Iterator.{YieldsFirst, item_count};
ghost use Rattle.tabled_grid.specs.Entity.{block};
ghost use Rattle.tabled_select.specs.Algebra.{cells_of};
ghost use Rattle.tabled_select.specs.Selectors.{everything, segment};
ghost use Rattle.tabled_select.specs.Walks.{sector_left};

use crate::object::Object;
use crate::object::cell::EntityOnce;
use std::alloc::{AllocError, Global};
use std::marker::Model;
use std::ops::{Range, RangeFull};
use tabled_grid::config::{Entity, ToBounds};
use tabled_grid::records::{ExactRecords, GridStore, Records};

/// The cells in a range of rows and a range of columns. A contract sees them as the two ranges.
///
/// A range without an end goes to the last row or column. One with an end goes there, also where the
/// table doesn't reach so far. `Segment::new(1.., ..2)` is
///
/// ```text
/// . . .
/// x x .
/// x x .
/// ```
///
/// Ported from `tabled::settings::object::Segment`.
#[derive(Clone, Copy, Drop)]
pub struct Segment<C, R> {
    columns: C,
    rows: R,
}

impl<C, R> Model for Segment<C, R> {
    ghost Value = { R × C };

    ghost view = { λ a. (a.rows, a.columns) };

    ghost inverse = { λ v. record { columns = v.1; rows = v.0 } };
}

impl<C: ToBounds, R: ToBounds> Segment<C, R> {
    ghost use Rattle.std.specs.Prelude.{◌≡◌};

    /// The cells in both ranges.
    ///
    /// Ported from `tabled::settings::object::Segment::new`.
    pub fn new(rows: R, columns: C) -> Self
        ensures { result ≡ (rows, columns) }
    {
        Segment { columns, rows }
    }
}

impl Segment<RangeFull, RangeFull> {
    /// All cells of a table.
    ///
    /// Ported from `tabled::settings::object::Segment::all`.
    pub fn all() -> SegmentAll {
        SegmentAll
    }
}

impl<C, R, I> Object<I> for Segment<C, R>
where
    C: ToBounds,
    R: ToBounds,
    I: Records + ExactRecords,
{
    type Iter = SectorIter;

    ghost lists = { λ s g entities. entities ≡ cells_of (segment (R.bounds_of s.0) (C.bounds_of s.1) g.rows g.columns) };

    fn cells(&self, _alloc: Global, records: &I) -> Result<SectorIter, AllocError> {
        let rows = self.rows.to_range(records.count_rows());
        let columns = self.columns.to_range(records.count_columns());
        Ok(SectorIter::new(rows, columns))
    }
}

/// All cells of a table, named together.
///
/// `Segment::all()` is
///
/// ```text
/// x x x
/// x x x
/// x x x
/// ```
///
/// Ported from `tabled::settings::object::SegmentAll`.
#[derive(Clone, Copy, Debug, Default, PartialEq, Eq, PartialOrd, Ord, Hash)]
pub struct SegmentAll;

impl<I: GridStore> Object<I> for SegmentAll {
    type Iter = EntityOnce;

    ghost lists = { λ _ _ entities. entities ≡ everything };

    fn cells(&self, _alloc: Global, _records: &I) -> Result<EntityOnce, AllocError> {
        Ok(EntityOnce::new(Some(Entity::Global)))
    }
}

/// Goes over the cells of a block, row by row. A contract sees it as where it stands and where it ends.
///
/// Ported from `tabled::settings::object::SectorIter`.
#[derive(Clone, Copy, Drop)]
pub struct SectorIter {
    row: usize,
    end_row: usize,
    col: usize,
    first_col: usize,
    end_col: usize,
}

impl Model for SectorIter {
    ghost use Rattle.std.specs.Prelude.{◌<◌, ◌≤◌};
    ghost use Rattle.tabled_select.specs.Walks.{Sector};

    ghost Value = { Sector };

    ghost view = { λ a. record { row = a.row; end_row = a.end_row; col = a.col; first_col = a.first_col; end_col = a.end_col } };

    ghost invariant = { λ a. a.row < a.end_row → (a.first_col ≤ a.col) × (a.col < a.end_col) };

    ghost inverse = { λ s. record { row = s.row; end_row = s.end_row; col = s.col; first_col = s.first_col; end_col = s.end_col } };
}

impl SectorIter {
    ghost use Rattle.std.specs.Prelude.{◌≡◌};
    ghost use Rattle.tabled_grid.specs.Entity.{block};

    fn new(rows: Range<usize>, columns: Range<usize>) -> Self
        ensures { sector_left result ≡ block rows.start rows.end columns.start columns.end }
    {
        SectorIter {
            row: rows.start,
            // Rows without columns have no cells, so there are none to go over.
            end_row: if columns.start < columns.end {
                rows.end
            } else {
                rows.start
            },
            col: columns.start,
            first_col: columns.start,
            end_col: columns.end,
        }
    }
}

impl Iterator for SectorIter {
    type Item = Entity;

    ghost next_gives = { YieldsFirst (λ s. cells_of (sector_left s)) };

    ghost remaining = { item_count (λ s. cells_of (sector_left s)) };

    fn next(&mut self) -> Option<Entity> {
        if self.row >= self.end_row {
            return None;
        }
        let cell = Entity::Cell(self.row, self.col);
        self.col += 1;
        if self.col == self.end_col {
            self.col = self.first_col;
            self.row += 1;
        }
        Some(cell)
    }
}
