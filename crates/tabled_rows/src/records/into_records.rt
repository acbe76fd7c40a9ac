//! What gives rows of cells, and what limits, skips and reads ahead what is given.

ghost use Rattle.std.specs.Prelude.{◌≡◌, Bool, List};
ghost use Rattle.tabled_rows.specs.Sources.{RowsMayBeAsked, RowsShow, WhateverComes};

pub use crate::records::buf_records::{BufIterator, BufRecords, BufRecordsIter};
pub use crate::records::either_string::EitherString;
pub use crate::records::limit_columns::{LimitColumns, LimitColumnsColumnsIter, LimitColumnsIter};
pub use crate::records::limit_rows::{LimitRows, LimitRowsIter};
pub use crate::records::skip_rows::{SkipRows, SkipRowsIter};

/// Gives rows of cells. A contract sees it as the list of its rows, or, where rows are made as they are asked
/// for, says which rows came when it was asked.
///
/// Ported from `tabled::grid::records::IntoRecords`.
pub trait IntoRecords {
    /// What its cells are.
    type Cell;

    /// What goes over the cells of a row.
    type IterColumns: IntoIterator<Item = Self::Cell>;

    /// What goes over the rows.
    type IterRows: IntoIterator<Item = Self::IterColumns>;

    /// What a contract sees of cells.
    ghost Shown: { Type 0 };

    /// What it sees of a cell.
    ghost shown: { Self.Cell → Shown };

    /// The rows that are given.
    ghost gives: { Self → List (List Shown) → Type 0 };

    /// It may be asked for its rows, and each row for its cells. Nothing is said by itself.
    ghost may_be_asked: { Self → Type 0 } = { λ _. ⊥ };

    /// Asked for rows, it may give these, and then nothing, where it is said to have ended. Any are, where
    /// nothing else is said.
    ghost may_give: { Self → List Self.IterColumns → Bool → Type 0 } = { λ _ _ _. Unit {0} };

    /// Goes over the rows, and over the cells of each.
    ///
    /// Ported from `tabled::grid::records::IntoRecords::iter_rows`.
    fn iter_rows(self) -> Self::IterRows
        ensures given { (rows : List (List Shown)) → gives self rows → RowsShow
            Self.IterRows.IntoIterator Self.IterRows.IntoIter.Iterator Self.IterColumns.IntoIterator Self.IterColumns.IntoIter.Iterator shown result rows }
        ensures asked { may_be_asked self → RowsMayBeAsked
            Self.IterRows.IntoIterator Self.IterRows.IntoIter.Iterator Self.IterColumns.IntoIterator Self.IterColumns.IntoIter.Iterator result }
        ensures came { WhateverComes Self.IterRows.IntoIterator Self.IterRows.IntoIter.Iterator (may_give self) result };
}

impl<T: Drop> IntoRecords for Vec<Vec<T>> {
    ghost use Rattle.tabled_grid.specs.Grid.{map_items};

    type Cell = T;

    type IterColumns = Vec<T>;

    type IterRows = Vec<Vec<T>>;

    ghost Shown = { T };

    ghost shown = { λ cell. cell };

    ghost gives = { λ s rows. rows ≡ map_items s.items };

    ghost may_be_asked = { λ _. Unit {0} };

    fn iter_rows(self) -> Vec<Vec<T>> {
        self
    }
}
