//! Columns.

ghost use Rattle.std.specs.Prelude.{◌≡◌, ◌-◌, [], ◌∷◌};
ghost use Rattle.std.specs.Iterator.{YieldsFirst, item_count};
ghost use Rattle.std.specs.List.{range_with_len};
ghost use Rattle.tabled_grid.specs.Bounds.{indexes};
ghost use Rattle.tabled_select.specs.Selectors.{before_last, columns_of, if_cells, index_from_last, past_last};

use crate::object::Object;
use crate::object::cell::EntityOnce;
use crate::object::from_last::FromLast;
use std::alloc::{AllocError, Global};
use std::marker::Model;
use std::ops::{Add, Sub};
use tabled_grid::config::{Entity, ToBounds};
use tabled_grid::records::{ExactRecords, GridStore, Records};

/// The columns of a range. A contract sees them as the range.
///
/// A range without an end goes to the last column. One with an end goes there, also where the table
/// doesn't reach so far. `Columns::new(1..)` is
///
/// ```text
/// . x x
/// . x x
/// . x x
/// ```
///
/// Ported from `tabled::settings::object::Columns`.
#[derive(Clone, Copy, Drop)]
pub struct Columns<R> {
    pub(crate) range: R,
}

impl<R> Model for Columns<R> {
    ghost Value = { R };

    ghost view = { λ a. a.range };

    ghost inverse = { λ range. record { range = range } };
}

impl<R: ToBounds> Columns<R> {
    ghost use Rattle.std.specs.Prelude.{◌≡◌};

    /// The columns of a range.
    ///
    /// Ported from `tabled::settings::object::Columns::new`.
    pub fn new(range: R) -> Self
        ensures { result ≡ range }
    {
        Columns { range }
    }
}

impl Columns<()> {
    /// One column.
    ///
    /// Ported from `tabled::settings::object::Columns::one`.
    pub fn one(index: usize) -> Column
        ensures { result ≡ index }
    {
        Column { index }
    }

    /// The first column.
    ///
    /// Ported from `tabled::settings::object::Columns::first`.
    pub fn first() -> FirstColumn {
        FirstColumn
    }

    /// The last column.
    ///
    /// Ported from `tabled::settings::object::Columns::last`.
    pub fn last() -> LastColumn {
        LastColumn
    }
}

impl<R: ToBounds, I: Records> Object<I> for Columns<R> {
    type Iter = ColumnsIter;

    ghost lists = { λ range g entities. entities ≡ columns_of (indexes (R.bounds_of range) g.columns) };

    fn cells(&self, _alloc: Global, records: &I) -> Result<ColumnsIter, AllocError> {
        let columns = self.range.to_range(records.count_columns());
        Ok(ColumnsIter {
            start: columns.start,
            end: columns.end,
        })
    }
}

/// One column, by its index. A contract sees it as the index.
///
/// It is named in every table, also in one that doesn't reach so far. `Columns::one(1)`, or
/// `Columns::first() + 1`, is
///
/// ```text
/// . x .
/// . x .
/// . x .
/// ```
///
/// Ported from `tabled::settings::object::Column`.
#[derive(Clone, Copy, Debug, Default, PartialEq, Eq, PartialOrd, Ord, Hash)]
pub struct Column {
    index: usize,
}

impl Model for Column {
    ghost use Rattle.std.specs.Prelude.{ℕ};

    ghost Value = { ℕ };

    ghost view = { λ a. a.index };

    ghost inverse = { λ index. record { index = index } };
}

impl From<usize> for Column {
    ghost from_gives = { λ index column. column ≡ index };

    fn from(index: usize) -> Self {
        Column { index }
    }
}

impl From<Column> for usize {
    ghost from_gives = { λ column index. index ≡ column };

    fn from(column: Column) -> Self {
        column.index
    }
}

impl<I: GridStore> Object<I> for Column {
    type Iter = EntityOnce;

    ghost lists = { λ index _ entities. entities ≡ columns_of (index ∷ []) };

    fn cells(&self, _alloc: Global, _records: &I) -> Result<EntityOnce, AllocError> {
        Ok(EntityOnce::new(Some(Entity::Column(self.index))))
    }
}

/// The first column. A table without cells has none.
///
/// `Columns::first()` is
///
/// ```text
/// x . .
/// x . .
/// x . .
/// ```
///
/// Ported from `tabled::settings::object::FirstColumn`.
#[derive(Clone, Copy, Debug, Default, PartialEq, Eq, PartialOrd, Ord, Hash)]
pub struct FirstColumn;

impl<I: Records + ExactRecords> Object<I> for FirstColumn {
    type Iter = EntityOnce;

    ghost lists = { λ _ g entities. entities ≡ if_cells g.rows g.columns (columns_of (0 ∷ [])) };

    fn cells(&self, _alloc: Global, records: &I) -> Result<EntityOnce, AllocError> {
        if records.count_rows() == 0 || records.count_columns() == 0 {
            return Ok(EntityOnce::new(None));
        }
        Ok(EntityOnce::new(Some(Entity::Column(0))))
    }
}

/// The column so far right of the first one.
impl Add<usize> for FirstColumn {
    type Output = Column;

    ghost add_gives = { λ _ n column. column ≡ n };

    fn add(self, n: usize) -> Column {
        Column { index: n }
    }
}

/// The last column. A table without cells has none.
///
/// `Columns::last()` is
///
/// ```text
/// . . x
/// . . x
/// . . x
/// ```
///
/// Ported from `tabled::settings::object::LastColumn`.
#[derive(Clone, Copy, Debug, Default, PartialEq, Eq, PartialOrd, Ord, Hash)]
pub struct LastColumn;

impl<I: Records + ExactRecords> Object<I> for LastColumn {
    type Iter = EntityOnce;

    ghost lists = { λ _ g entities. entities ≡ if_cells g.rows g.columns (columns_of ((g.columns - 1) ∷ [])) };

    fn cells(&self, _alloc: Global, records: &I) -> Result<EntityOnce, AllocError> {
        let columns = records.count_columns();
        if records.count_rows() == 0 || columns == 0 {
            return Ok(EntityOnce::new(None));
        }
        Ok(EntityOnce::new(Some(Entity::Column(columns - 1))))
    }
}

/// The column so far left of the last one.
impl Sub<usize> for LastColumn {
    type Output = LastColumnOffset;

    ghost sub_gives = { λ _ n column. column ≡ before_last n };

    fn sub(self, n: usize) -> LastColumnOffset {
        LastColumnOffset {
            from_last: FromLast::before(n),
        }
    }
}

/// The column so far right of the last one. It is outside the table unless `n` is 0, and past
/// `usize::MAX` there is none.
impl Add<usize> for LastColumn {
    type Output = LastColumnOffset;

    ghost add_gives = { λ _ n column. column ≡ past_last n };

    fn add(self, n: usize) -> LastColumnOffset {
        LastColumnOffset {
            from_last: FromLast::past(n),
        }
    }
}

/// One column, counted from the last. A contract sees it as how far before or past that it is.
///
/// A table without columns has none, and there is none before the first column or past `usize::MAX`.
/// It is named also in a table without rows. `Columns::last() - 1` is
///
/// ```text
/// . x .
/// . x .
/// . x .
/// ```
///
/// Ported from `tabled::settings::object::LastColumnOffset`.
#[derive(Clone, Copy, Debug, Default, PartialEq, Eq, PartialOrd, Ord, Hash)]
pub struct LastColumnOffset {
    from_last: FromLast,
}

impl Model for LastColumnOffset {
    ghost use Rattle.tabled_select.specs.Selectors.{FromLast};

    ghost Value = { FromLast };

    ghost view = { λ a. a.from_last };

    ghost inverse = { λ from_last. record { from_last = from_last } };
}

impl<I: Records> Object<I> for LastColumnOffset {
    type Iter = EntityOnce;

    ghost lists = { λ column g entities. entities ≡ columns_of (index_from_last column g.columns) };

    fn cells(&self, _alloc: Global, records: &I) -> Result<EntityOnce, AllocError> {
        let index = self.from_last.index(records.count_columns());
        Ok(EntityOnce::new(index.map(Entity::Column)))
    }
}

/// Goes over columns, one after another. A contract sees it as the next column and the end.
///
/// Ported from `tabled::settings::object::ColumnsIter`.
#[derive(Clone, Copy, Drop)]
pub struct ColumnsIter {
    start: usize,
    end: usize,
}

impl Model for ColumnsIter {
    ghost use Rattle.std.specs.Prelude.{ℕ};

    ghost Value = { ℕ × ℕ };

    ghost view = { λ a. (a.start, a.end) };

    ghost inverse = { λ v. record { start = v.0; end = v.1 } };
}

impl Iterator for ColumnsIter {
    type Item = Entity;

    ghost next_gives = { YieldsFirst (λ s. columns_of (range_with_len s.0 (s.1 - s.0))) };

    ghost remaining = { item_count (λ s. columns_of (range_with_len s.0 (s.1 - s.0))) };

    fn next(&mut self) -> Option<Entity> {
        if self.start >= self.end {
            return None;
        }
        let column = self.start;
        self.start += 1;
        Some(Entity::Column(column))
    }
}
