//! Rows or columns of a store.

ghost use Rattle.std.specs.Prelude.{◌≡◌, ◌<◌, ◌≤◌};
ghost use Rattle.std.specs.List.{swap};
ghost use Rattle.tabled_grid.specs.Along.{along, count_along};
ghost use Rattle.tabled_grid.specs.Axis.{across, count_of, in_line, line_of, lines_in, place_in, resized};

use crate::config::{Position, Size};
use crate::records::blank::Blank;
use crate::records::exact_records::ExactRecords;
use crate::records::records::Records;
use crate::records::resizable::Resizable;

/// Which lines of a table are meant: its rows or its columns.
///
/// What is done to lines is said once, for both.
#[derive(Clone, Copy, Debug, PartialEq, Eq, PartialOrd, Ord, Hash)]
pub enum Axis {
    Rows,
    Columns,
}

impl Axis {
    /// Columns for rows, and rows for columns.
    pub fn across(self) -> Self
        ensures { result ≡ across self }
    {
        match self {
            Axis::Rows => Axis::Columns,
            Axis::Columns => Axis::Rows,
        }
    }

    /// The place of a cell of a line.
    #[doc(hidden)]
    pub fn place(self, line: usize, cell: usize) -> Position
        ensures { result ≡ place_in self line cell }
    {
        match self {
            Axis::Rows => Position {
                row: line,
                col: cell,
            },
            Axis::Columns => Position {
                row: cell,
                col: line,
            },
        }
    }

    /// The index of a place's line.
    #[doc(hidden)]
    pub fn line_of(self, pos: Position) -> usize
        ensures { result ≡ line_of self pos }
    {
        match self {
            Axis::Rows => pos.row,
            Axis::Columns => pos.col,
        }
    }

    /// The same place in another line.
    #[doc(hidden)]
    pub fn in_line(self, pos: Position, line: usize) -> Position
        ensures { result ≡ in_line self pos line }
    {
        match self {
            Axis::Rows => Position::new(line, pos.col),
            Axis::Columns => Position::new(pos.row, line),
        }
    }

    /// The number of rows, or that of columns.
    #[doc(hidden)]
    pub fn count_of(self, rows: usize, columns: usize) -> usize
        ensures { result ≡ count_of self rows columns }
    {
        match self {
            Axis::Rows => rows,
            Axis::Columns => columns,
        }
    }

    /// How many lines a size takes.
    #[doc(hidden)]
    pub fn lines_in(self, size: Size) -> usize
        ensures { result ≡ lines_in self size }
    {
        match self {
            Axis::Rows => size.height,
            Axis::Columns => size.width,
        }
    }

    /// The size with n lines.
    #[doc(hidden)]
    pub fn resized(self, size: Size, many: usize) -> Size
        ensures size { result ≡ resized self size many }
        ensures height { 1 ≤ size.height → 1 ≤ many → 1 ≤ result.height }
        ensures width { 1 ≤ size.width → 1 ≤ many → 1 ≤ result.width }
    {
        match self {
            Axis::Rows => Size {
                height: many,
                ..size
            },
            Axis::Columns => Size {
                width: many,
                ..size
            },
        }
    }

    /// How many such lines there are.
    #[doc(hidden)]
    pub fn count<R: Records + ExactRecords>(self, records: &R) -> usize
        requires { R.is_well_formed records.now }
        ensures count { result ≡ count_along self (R.grid records.now) }
    {
        match self {
            Axis::Rows => records.count_rows(),
            Axis::Columns => records.count_columns(),
        }
    }

    /// Swaps two lines. Equal ones change nothing.
    #[doc(hidden)]
    pub fn swap<R>(self, records: &mut R, i: usize, k: usize)
    where
        R: Resizable,
        R::Cell: Blank,
        requires well { R.is_well_formed records.old }
        requires i_within { i < count_along self (R.grid records.old) }
        requires k_within { k < count_along self (R.grid records.old) }
        ensures well { R.is_well_formed records.new }
        ensures swapped { R.grid records.new ≡ along self (λ _ xs. swap xs i k) (R.grid records.old) }
    {
        match self {
            Axis::Rows => records.swap_row(i, k),
            Axis::Columns => records.swap_column(i, k),
        }
    }
}
