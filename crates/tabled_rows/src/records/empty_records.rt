//! A store of empty texts.

ghost use Rattle.std.specs.Prelude.{◌≡◌, [], ℕ, List};
ghost use Rattle.tabled_rows.specs.Rows.{filled};

use crate::records::into_records::IntoRecords;
use std::iter::{RepeatN, repeat_n};
use std::marker::Model;
use tabled_grid::records::{ExactRecords, GridStore, Records};

/// A store of empty texts (`r x c`, also `0 x c` and `r x 0`), which can't be resized. A contract
/// sees it as its shape.
///
/// Ported from `tabled::grid::records::EmptyRecords`.
#[derive(Clone, Copy, Debug, Default, PartialEq, Eq, PartialOrd, Ord, Hash)]
pub struct EmptyRecords {
    rows: usize,
    columns: usize,
}

impl Model for EmptyRecords {
    ghost use Rattle.tabled_rows.specs.Rows.{Shape};

    ghost Value = { Shape };

    ghost view = { λ a. record { rows = a.rows; columns = a.columns } };

    ghost inverse = { λ shape. record { rows = shape.rows; columns = shape.columns } };
}

impl EmptyRecords {
    ghost use Rattle.std.specs.Prelude.{◌≡◌};

    /// A store of `rows x columns` empty texts.
    ///
    /// Ported from `tabled::grid::records::EmptyRecords::new`.
    pub fn new(rows: usize, columns: usize) -> Self
        ensures rows { result.rows ≡ rows }
        ensures columns { result.columns ≡ columns }
    {
        EmptyRecords { rows, columns }
    }
}

impl From<(usize, usize)> for EmptyRecords {
    ghost from_gives = { λ pair records. records ≡ record { rows = pair.0; columns = pair.1 } };

    fn from(pair: (usize, usize)) -> Self {
        EmptyRecords::new(pair.0, pair.1)
    }
}

impl GridStore for EmptyRecords {
    ghost use Rattle.tabled_rows.specs.Rows.{empty_grid};
    ghost use Rattle.tabled_rows.specs.Evenness.{is_even_empty};

    type Cell = &'static str;

    ghost grid = { λ store. empty_grid store };

    ghost is_well_formed = { λ _. Unit {0} };

    ghost even = { λ store _. is_even_empty store };
}

impl Records for EmptyRecords {
    fn count_columns(&self) -> usize {
        self.columns
    }

    fn hint_count_rows(&self) -> Option<usize> {
        Some(self.rows)
    }
}

impl ExactRecords for EmptyRecords {
    fn count_rows(&self) -> usize {
        self.rows
    }
}

/// As many rows as the shape says, and in each as many empty texts.
impl IntoRecords for EmptyRecords {
    type Cell = &'static str;

    type IterColumns = RepeatN<&'static str>;

    type IterRows = RepeatN<RepeatN<&'static str>>;

    ghost Shown = { List ℕ };

    ghost shown = { λ cell. cell.now };

    ghost gives = { λ s rows. rows ≡ filled s [] };

    ghost may_be_asked = { λ _. Unit {0} };

    fn iter_rows(self) -> RepeatN<RepeatN<&'static str>> {
        repeat_n(repeat_n("", self.columns), self.rows)
    }
}
