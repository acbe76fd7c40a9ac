//! Rows as locations.

ghost use Rattle.std.specs.Prelude.{◌≡◌, ◌-◌, [], ◌∷◌};
ghost use Rattle.tabled_grid.specs.Bounds.{indexes};

use crate::location::Location;
use crate::object::{FirstRow, LastRow, Row, Rows};
use std::alloc::{AllocError, Global};
use std::iter::{self, Once};
use std::ops::Range;
use tabled_grid::config::ToBounds;
use tabled_grid::records::{ExactRecords, GridStore};

/// The indexes of the range. One without an end goes to the last row.
impl<B: ToBounds, R: ExactRecords> Location<R> for Rows<B> {
    type Coordinate = usize;

    type IntoIter = Range<usize>;

    ghost locates = { λ range g found. found ≡ indexes (B.bounds_of range) g.rows };

    fn locate(&mut self, _alloc: Global, records: &R) -> Result<Range<usize>, AllocError> {
        Ok(self.range.to_range(records.count_rows()))
    }

    fn locate_below(
        &mut self,
        _alloc: Global,
        records: &R,
        limit: &usize,
    ) -> Result<Range<usize>, AllocError> {
        let range = self.range.to_range(records.count_rows());
        Ok(range.start..range.end.min(*limit))
    }
}

/// The index, also in a table that doesn't reach so far.
impl<R: GridStore> Location<R> for Row {
    type Coordinate = usize;

    type IntoIter = Once<usize>;

    ghost locates = { λ index _ found. found ≡ index ∷ [] };

    fn locate(&mut self, _alloc: Global, _records: &R) -> Result<Once<usize>, AllocError> {
        Ok(iter::once(usize::from(*self)))
    }
}

/// The index 0, also in a table without rows.
impl<R: GridStore> Location<R> for FirstRow {
    type Coordinate = usize;

    type IntoIter = Once<usize>;

    ghost locates = { λ _ _ found. found ≡ 0 ∷ [] };

    fn locate(&mut self, _alloc: Global, _records: &R) -> Result<Once<usize>, AllocError> {
        Ok(iter::once(0))
    }
}

/// The last index, and 0 in a table without rows.
impl<R: ExactRecords> Location<R> for LastRow {
    type Coordinate = usize;

    type IntoIter = Once<usize>;

    ghost locates = { λ _ g found. found ≡ (g.rows - 1) ∷ [] };

    fn locate(&mut self, _alloc: Global, records: &R) -> Result<Once<usize>, AllocError> {
        Ok(iter::once(records.count_rows().saturating_sub(1)))
    }
}
