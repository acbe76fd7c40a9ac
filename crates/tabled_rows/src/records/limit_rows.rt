//! The first rows of a source.

ghost use Rattle.std.specs.Prelude.{◌≡◌, ◌≤◌, ◌&&◌, List, length, ltb};
ghost use Rattle.tabled_rows.specs.Rows.{first_rows};

use crate::records::into_records::IntoRecords;
use std::iter::Take;
use std::marker::Model;

/// The first rows of a source, or all where there are fewer. A contract sees it as the source and
/// their number.
///
/// Ported from `tabled::grid::records::into_records::LimitRows`.
#[derive(Clone, Copy, Drop)]
pub struct LimitRows<I> {
    records: I,
    limit: usize,
}

impl<I> Model for LimitRows<I> {
    ghost use Rattle.std.specs.Prelude.{ℕ};

    ghost Value = { I × ℕ };

    ghost view = { λ a. (a.records, a.limit) };

    ghost inverse = { λ v. record { records = v.0; limit = v.1 } };
}

impl<I> LimitRows<I> {
    ghost use Rattle.std.specs.Prelude.{◌≡◌};

    /// The first `limit` rows of a source.
    ///
    /// Ported from `tabled::grid::records::into_records::LimitRows::new`.
    pub fn new(records: I, limit: usize) -> Self
        ensures { result ≡ (records, limit) }
    {
        LimitRows { records, limit }
    }
}

impl<I: IntoRecords> IntoRecords for LimitRows<I> {
    type Cell = I::Cell;

    type IterColumns = I::IterColumns;

    type IterRows = LimitRowsIter<<I::IterRows as IntoIterator>::IntoIter>;

    ghost Shown = { I.Shown };

    ghost shown = { I.shown };

    ghost gives = { λ s rows. (all : List (List I.Shown)) × I.gives s.0 all × (rows ≡ first_rows s.1 all) };

    ghost may_be_asked = { λ s. I.may_be_asked s.0 };

    ghost may_give = { λ s rows ended. (length rows ≤ s.1) × I.may_give s.0 rows (ended && ltb (length rows) s.1) };

    fn iter_rows(self) -> LimitRowsIter<<I::IterRows as IntoIterator>::IntoIter> {
        LimitRowsIter {
            rows: self.records.iter_rows().into_iter().take(self.limit),
        }
    }
}

/// Gives the first items of an iterator over rows.
///
/// Ported from `tabled::grid::records::into_records::LimitRowsIter`.
#[derive(Drop)]
pub struct LimitRowsIter<I> {
    rows: Take<I>,
}

impl<I: Iterator> Iterator for LimitRowsIter<I> {
    type Item = I::Item;

    ghost use Rattle.std.specs.Iterator.{at_most, count_min};
    ghost use Rattle.std.specs.Iterator.Adapters.{take_count, take_source, take_steps};

    ghost can_next = { λ s. I.can_next (take_source s.rows) };

    ghost next_gives = { λ s r t. take_steps I.next_gives s.rows r t.rows };

    ghost remaining = { λ s. count_min (at_most (take_count s.rows)) (I.remaining (take_source s.rows)) };

    fn next(&mut self) -> Option<I::Item> {
        self.rows.next()
    }
}
