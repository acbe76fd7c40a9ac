//! Columns as locations.

ghost use Rattle.std.specs.Prelude.{◌≡◌, ◌-◌, [], ◌∷◌};
ghost use Rattle.tabled_grid.specs.Bounds.{indexes};

use crate::location::Location;
use crate::object::{Column, Columns, FirstColumn, LastColumn};
use std::alloc::{AllocError, Global};
use std::iter::{self, Once};
use std::ops::Range;
use tabled_grid::config::ToBounds;
use tabled_grid::records::{GridStore, Records};

/// The indexes of the range. One without an end goes to the last column.
impl<B: ToBounds, R: Records> Location<R> for Columns<B> {
    type Coordinate = usize;

    type IntoIter = Range<usize>;

    ghost locates = { λ range g found. found ≡ indexes (B.bounds_of range) g.columns };

    fn locate(&mut self, _alloc: Global, records: &R) -> Result<Range<usize>, AllocError> {
        Ok(self.range.to_range(records.count_columns()))
    }

    fn locate_below(
        &mut self,
        _alloc: Global,
        records: &R,
        limit: &usize,
    ) -> Result<Range<usize>, AllocError> {
        let range = self.range.to_range(records.count_columns());
        Ok(range.start..range.end.min(*limit))
    }
}

/// The index, also in a table that doesn't reach so far.
impl<R: GridStore> Location<R> for Column {
    type Coordinate = usize;

    type IntoIter = Once<usize>;

    ghost locates = { λ index _ found. found ≡ index ∷ [] };

    fn locate(&mut self, _alloc: Global, _records: &R) -> Result<Once<usize>, AllocError> {
        Ok(iter::once(usize::from(*self)))
    }
}

/// The index 0, also in a table without columns.
impl<R: GridStore> Location<R> for FirstColumn {
    type Coordinate = usize;

    type IntoIter = Once<usize>;

    ghost locates = { λ _ _ found. found ≡ 0 ∷ [] };

    fn locate(&mut self, _alloc: Global, _records: &R) -> Result<Once<usize>, AllocError> {
        Ok(iter::once(0))
    }
}

/// The last index, and 0 in a table without columns.
impl<R: Records> Location<R> for LastColumn {
    type Coordinate = usize;

    type IntoIter = Once<usize>;

    ghost locates = { λ _ g found. found ≡ (g.columns - 1) ∷ [] };

    fn locate(&mut self, _alloc: Global, records: &R) -> Result<Once<usize>, AllocError> {
        Ok(iter::once(records.count_columns().saturating_sub(1)))
    }
}
