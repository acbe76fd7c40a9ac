//! Rows.

ghost use Rattle.std.specs.Prelude.{◌≡◌, ◌-◌, [], ◌∷◌};
ghost use Rattle.std.specs.Iterator.{YieldsFirst, item_count};
ghost use Rattle.std.specs.List.{range_with_len};
ghost use Rattle.tabled_grid.specs.Bounds.{indexes};
ghost use Rattle.tabled_select.specs.Selectors.{before_last, if_cells, index_from_last, past_last, rows_of};

use crate::object::Object;
use crate::object::cell::EntityOnce;
use crate::object::from_last::FromLast;
use std::alloc::{AllocError, Global};
use std::marker::Model;
use std::ops::{Add, Sub};
use tabled_grid::config::{Entity, ToBounds};
use tabled_grid::records::{ExactRecords, GridStore, Records};

/// The rows of a range. A contract sees them as the range.
///
/// A range without an end goes to the last row. One with an end goes there, also where the table
/// doesn't reach so far. `Rows::new(1..)` is
///
/// ```text
/// . . .
/// x x x
/// x x x
/// ```
///
/// Ported from `tabled::settings::object::Rows`.
#[derive(Clone, Copy, Drop)]
pub struct Rows<R> {
    pub(crate) range: R,
}

impl<R> Model for Rows<R> {
    ghost Value = { R };

    ghost view = { λ a. a.range };

    ghost inverse = { λ range. record { range = range } };
}

impl<R: ToBounds> Rows<R> {
    ghost use Rattle.std.specs.Prelude.{◌≡◌};

    /// The rows of a range.
    ///
    /// Ported from `tabled::settings::object::Rows::new`.
    pub fn new(range: R) -> Self
        ensures { result ≡ range }
    {
        Rows { range }
    }
}

impl Rows<()> {
    /// One row.
    ///
    /// Ported from `tabled::settings::object::Rows::one`.
    pub fn one(index: usize) -> Row
        ensures { result ≡ index }
    {
        Row { index }
    }

    /// The first row.
    ///
    /// Ported from `tabled::settings::object::Rows::first`.
    pub fn first() -> FirstRow {
        FirstRow
    }

    /// The last row.
    ///
    /// Ported from `tabled::settings::object::Rows::last`.
    pub fn last() -> LastRow {
        LastRow
    }
}

impl<R: ToBounds, I: ExactRecords> Object<I> for Rows<R> {
    type Iter = RowsIter;

    ghost lists = { λ range g entities. entities ≡ rows_of (indexes (R.bounds_of range) g.rows) };

    fn cells(&self, _alloc: Global, records: &I) -> Result<RowsIter, AllocError> {
        let rows = self.range.to_range(records.count_rows());
        Ok(RowsIter {
            start: rows.start,
            end: rows.end,
        })
    }
}

/// One row, by its index. A contract sees it as the index.
///
/// It is named in every table, also in one that doesn't reach so far. `Rows::one(1)`, or
/// `Rows::first() + 1`, is
///
/// ```text
/// . . .
/// x x x
/// . . .
/// ```
///
/// Ported from `tabled::settings::object::Row`.
#[derive(Clone, Copy, Debug)]
pub struct Row {
    index: usize,
}

impl Model for Row {
    ghost use Rattle.std.specs.Prelude.{ℕ};

    ghost Value = { ℕ };

    ghost view = { λ a. a.index };

    ghost inverse = { λ index. record { index = index } };
}

impl From<usize> for Row {
    ghost from_gives = { λ index row. row ≡ index };

    fn from(index: usize) -> Self {
        Row { index }
    }
}

impl From<Row> for usize {
    ghost from_gives = { λ row index. index ≡ row };

    fn from(row: Row) -> Self {
        row.index
    }
}

impl<I: GridStore> Object<I> for Row {
    type Iter = EntityOnce;

    ghost lists = { λ index _ entities. entities ≡ rows_of (index ∷ []) };

    fn cells(&self, _alloc: Global, _records: &I) -> Result<EntityOnce, AllocError> {
        Ok(EntityOnce::new(Some(Entity::Row(self.index))))
    }
}

/// The first row, which often holds the heads of the columns. A table without cells has none.
///
/// `Rows::first()` is
///
/// ```text
/// x x x
/// . . .
/// . . .
/// ```
///
/// Ported from `tabled::settings::object::FirstRow`.
#[derive(Clone, Copy, Debug, Default, PartialEq, Eq, PartialOrd, Ord, Hash)]
pub struct FirstRow;

impl<I: Records + ExactRecords> Object<I> for FirstRow {
    type Iter = EntityOnce;

    ghost lists = { λ _ g entities. entities ≡ if_cells g.rows g.columns (rows_of (0 ∷ [])) };

    fn cells(&self, _alloc: Global, records: &I) -> Result<EntityOnce, AllocError> {
        if records.count_rows() == 0 || records.count_columns() == 0 {
            return Ok(EntityOnce::new(None));
        }
        Ok(EntityOnce::new(Some(Entity::Row(0))))
    }
}

/// The row so far below the first one.
impl Add<usize> for FirstRow {
    type Output = Row;

    ghost add_gives = { λ _ n row. row ≡ n };

    fn add(self, n: usize) -> Row {
        Row { index: n }
    }
}

/// The last row. A table without cells has none.
///
/// `Rows::last()` is
///
/// ```text
/// . . .
/// . . .
/// x x x
/// ```
///
/// Ported from `tabled::settings::object::LastRow`.
#[derive(Clone, Copy, Debug, Default, PartialEq, Eq, PartialOrd, Ord, Hash)]
pub struct LastRow;

impl<I: Records + ExactRecords> Object<I> for LastRow {
    type Iter = EntityOnce;

    ghost lists = { λ _ g entities. entities ≡ if_cells g.rows g.columns (rows_of ((g.rows - 1) ∷ [])) };

    fn cells(&self, _alloc: Global, records: &I) -> Result<EntityOnce, AllocError> {
        let rows = records.count_rows();
        if rows == 0 || records.count_columns() == 0 {
            return Ok(EntityOnce::new(None));
        }
        Ok(EntityOnce::new(Some(Entity::Row(rows - 1))))
    }
}

/// The row so far above the last one.
impl Sub<usize> for LastRow {
    type Output = LastRowOffset;

    ghost sub_gives = { λ _ n row. row ≡ before_last n };

    fn sub(self, n: usize) -> LastRowOffset {
        LastRowOffset {
            from_last: FromLast::before(n),
        }
    }
}

/// The row so far below the last one. It is outside the table unless `n` is 0, and past `usize::MAX`
/// there is none.
impl Add<usize> for LastRow {
    type Output = LastRowOffset;

    ghost add_gives = { λ _ n row. row ≡ past_last n };

    fn add(self, n: usize) -> LastRowOffset {
        LastRowOffset {
            from_last: FromLast::past(n),
        }
    }
}

/// One row, counted from the last. A contract sees it as how far before or past that it is.
///
/// A table without cells has none, and there is none before the first row or past `usize::MAX`.
/// `Rows::last() - 1` is
///
/// ```text
/// . . .
/// x x x
/// . . .
/// ```
///
/// Ported from `tabled::settings::object::LastRowOffset`.
#[derive(Debug, Drop)]
pub struct LastRowOffset {
    from_last: FromLast,
}

impl Model for LastRowOffset {
    ghost use Rattle.tabled_select.specs.Selectors.{FromLast};

    ghost Value = { FromLast };

    ghost view = { λ a. a.from_last };

    ghost inverse = { λ from_last. record { from_last = from_last } };
}

impl<I: Records + ExactRecords> Object<I> for LastRowOffset {
    type Iter = EntityOnce;

    ghost lists = { λ row g entities. entities ≡ if_cells g.rows g.columns (rows_of (index_from_last row g.rows)) };

    fn cells(&self, _alloc: Global, records: &I) -> Result<EntityOnce, AllocError> {
        let rows = records.count_rows();
        if rows == 0 || records.count_columns() == 0 {
            return Ok(EntityOnce::new(None));
        }
        Ok(EntityOnce::new(self.from_last.index(rows).map(Entity::Row)))
    }
}

/// Goes over rows, one after another. A contract sees it as the next row and the end.
///
/// Ported from `tabled::settings::object::RowsIter`.
#[derive(Drop)]
pub struct RowsIter {
    start: usize,
    end: usize,
}

impl Model for RowsIter {
    ghost use Rattle.std.specs.Prelude.{ℕ};

    ghost Value = { ℕ × ℕ };

    ghost view = { λ a. (a.start, a.end) };

    ghost inverse = { λ v. record { start = v.0; end = v.1 } };
}

impl Iterator for RowsIter {
    type Item = Entity;

    ghost next_gives = { YieldsFirst (λ s. rows_of (range_with_len s.0 (s.1 - s.0))) };

    ghost remaining = { item_count (λ s. rows_of (range_with_len s.0 (s.1 - s.0))) };

    fn next(&mut self) -> Option<Entity> {
        if self.start >= self.end {
            return None;
        }
        let row = self.start;
        self.start += 1;
        Some(Entity::Row(row))
    }
}
