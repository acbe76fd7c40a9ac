//! The rows of a source after its first ones.

ghost use Rattle.std.specs.Prelude.{◌≡◌, List, drop};
ghost use Rattle.tabled_rows.specs.Rows.{rows_after};

use crate::records::into_records::IntoRecords;
use std::iter::Skip;
use std::marker::Model;

/// The rows of a source after its first ones, if there are any. A contract sees it as the source
/// and the number of rows that are skipped.
///
/// Ported from `tabled::grid::records::into_records::SkipRows`.
#[derive(Clone, Copy, Drop)]
pub struct SkipRows<I> {
    records: I,
    skip: usize,
}

impl<I> Model for SkipRows<I> {
    ghost use Rattle.std.specs.Prelude.{ℕ};

    ghost Value = { I × ℕ };

    ghost view = { λ a. (a.records, a.skip) };

    ghost inverse = { λ v. record { records = v.0; skip = v.1 } };
}

impl<I> SkipRows<I> {
    ghost use Rattle.std.specs.Prelude.{◌≡◌};

    /// The rows of a source after its first `skip`.
    ///
    /// Ported from `tabled::grid::records::into_records::SkipRows::new`.
    pub fn new(records: I, skip: usize) -> Self
        ensures { result ≡ (records, skip) }
    {
        SkipRows { records, skip }
    }
}

impl<I: IntoRecords> IntoRecords for SkipRows<I>
where
    I::IterColumns: Drop,
{
    type Cell = I::Cell;

    type IterColumns = I::IterColumns;

    type IterRows = SkipRowsIter<<I::IterRows as IntoIterator>::IntoIter>;

    ghost Shown = { I.Shown };

    ghost shown = { I.shown };

    ghost gives = { λ s rows. (all : List (List I.Shown)) × I.gives s.0 all × (rows ≡ rows_after s.1 all) };

    ghost may_be_asked = { λ s. I.may_be_asked s.0 };

    ghost may_give = { λ s rows ended. (all : List I.IterColumns) × I.may_give s.0 all ended × (rows ≡ drop s.1 all) };

    fn iter_rows(self) -> SkipRowsIter<<I::IterRows as IntoIterator>::IntoIter> {
        SkipRowsIter {
            rows: self.records.iter_rows().into_iter().skip(self.skip),
        }
    }
}

/// Gives the items of an iterator over rows after the first ones, which it drops at the first call.
///
/// Ported from `tabled::grid::records::into_records::SkipRowsIter`.
#[derive(Drop)]
pub struct SkipRowsIter<I> {
    rows: Skip<I>,
}

impl<I: Iterator> Iterator for SkipRowsIter<I>
where
    I::Item: Drop,
{
    type Item = I::Item;

    ghost use Rattle.std.specs.Prelude.{◌-◌};
    ghost use Rattle.std.specs.Iterator.{count_map};
    ghost use Rattle.std.specs.Iterator.Adapters.{skip_count, skip_source, skip_steps};

    ghost can_next = { λ s. I.can_next (skip_source s.rows) };

    ghost next_gives = { λ s r t. skip_steps I.next_gives s.rows r t.rows };

    ghost remaining = { λ s. count_map (λ n. n - skip_count s.rows) (I.remaining (skip_source s.rows)) };

    fn next(&mut self) -> Option<I::Item> {
        self.rows.next()
    }
}
