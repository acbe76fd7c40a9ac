//! The first cells of each row of a source.

ghost use Rattle.std.specs.Prelude.{◌≡◌, List};
ghost use Rattle.std.specs.List.{AllZip};
ghost use Rattle.tabled_rows.specs.Gave.{LimitsRow};
ghost use Rattle.tabled_rows.specs.Rows.{first_columns};

use crate::records::into_records::IntoRecords;
use std::iter::Take;
use std::marker::Model;

/// The first cells of each row of a source, or all where there are fewer. A contract sees it as the
/// source and their number.
///
/// Ported from `tabled::grid::records::into_records::LimitColumns`.
#[derive(Clone, Copy, Drop)]
pub struct LimitColumns<I> {
    records: I,
    limit: usize,
}

impl<I> Model for LimitColumns<I> {
    ghost use Rattle.std.specs.Prelude.{ℕ};

    ghost Value = { I × ℕ };

    ghost view = { λ a. (a.records, a.limit) };

    ghost inverse = { λ v. record { records = v.0; limit = v.1 } };
}

impl<I> LimitColumns<I> {
    ghost use Rattle.std.specs.Prelude.{◌≡◌};

    /// The first `limit` cells of each row of a source.
    ///
    /// Ported from `tabled::grid::records::into_records::LimitColumns::new`.
    pub fn new(records: I, limit: usize) -> Self
        ensures { result ≡ (records, limit) }
    {
        LimitColumns { records, limit }
    }
}

impl<I: IntoRecords> IntoRecords for LimitColumns<I> {
    type Cell = I::Cell;

    type IterColumns = LimitColumnsColumnsIter<<I::IterColumns as IntoIterator>::IntoIter>;

    type IterRows = LimitColumnsIter<<I::IterRows as IntoIterator>::IntoIter>;

    ghost Shown = { I.Shown };

    ghost shown = { I.shown };

    ghost gives = { λ s rows. (all : List (List I.Shown)) × I.gives s.0 all × (rows ≡ first_columns s.1 all) };

    ghost may_be_asked = { λ s. I.may_be_asked s.0 };

    ghost may_give = { λ s rows ended. (all : List I.IterColumns) × I.may_give s.0 all ended × AllZip (LimitsRow I.IterColumns.into_iter_gives s.1) all rows };

    fn iter_rows(self) -> LimitColumnsIter<<I::IterRows as IntoIterator>::IntoIter> {
        LimitColumnsIter {
            rows: self.records.iter_rows().into_iter(),
            limit: self.limit,
        }
    }
}

/// Gives the first cells of each row of an iterator over rows.
///
/// Ported from `tabled::grid::records::into_records::LimitColumnsIter`.
#[derive(Drop)]
pub struct LimitColumnsIter<I> {
    rows: I,
    limit: usize,
}

impl<I> Iterator for LimitColumnsIter<I>
where
    I: Iterator,
    I::Item: IntoIterator,
{
    type Item = LimitColumnsColumnsIter<<I::Item as IntoIterator>::IntoIter>;

    ghost use Rattle.std.specs.Prelude.{◌≡◌};
    ghost use Rattle.tabled_rows.specs.Steps.{GivesLimited};

    ghost can_next = { λ s. I.can_next s.rows };

    ghost next_gives = { λ s r t. GivesLimited I.next_gives I.Item.into_iter_gives s.limit s.rows r t.rows × (t.limit ≡ s.limit) };

    ghost remaining = { λ s. I.remaining s.rows };

    fn next(&mut self) -> Option<LimitColumnsColumnsIter<<I::Item as IntoIterator>::IntoIter>> {
        let row = self.rows.next()?;
        Some(LimitColumnsColumnsIter {
            cells: row.into_iter().take(self.limit),
        })
    }
}

/// Gives the first cells of a row. A contract sees it as what takes these from the cells of the row.
///
/// Ported from `tabled::grid::records::into_records::LimitColumnsColumnsIter`.
#[derive(Drop)]
pub struct LimitColumnsColumnsIter<I> {
    cells: Take<I>,
}

impl<I> Model for LimitColumnsColumnsIter<I> {
    ghost use Rattle.std.specs.declared.iter.Take.{Take};

    ghost Value = { Take I };

    ghost view = { λ a. a.cells };

    ghost inverse = { λ v. record { cells = v } };
}

impl<I: Iterator> Iterator for LimitColumnsColumnsIter<I> {
    type Item = I::Item;

    ghost use Rattle.std.specs.Iterator.{at_most, count_min};
    ghost use Rattle.std.specs.Iterator.Adapters.{take_count, take_source, take_steps};

    ghost can_next = { λ s. I.can_next (take_source s) };

    ghost next_gives = { λ s r t. take_steps I.next_gives s r t };

    ghost remaining = { λ s. count_min (at_most (take_count s)) (I.remaining (take_source s)) };

    fn next(&mut self) -> Option<I::Item> {
        self.cells.next()
    }
}
