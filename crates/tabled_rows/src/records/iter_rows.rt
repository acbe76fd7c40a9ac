//! Rows that something goes over, as a source of rows.

ghost use Rattle.std.specs.Prelude.{◌≡◌};
ghost use Rattle.tabled_rows.specs.Gave.{Gave};
ghost use Rattle.tabled_rows.specs.Sources.{RowsMayBeAsked, RowsShow};

use crate::records::into_records::IntoRecords;
use std::marker::Model;

/// A source of the rows that something goes over. A contract sees it as what goes over them.
#[derive(Clone, Copy, Drop)]
pub struct IterRows<I> {
    rows: I,
}

impl<I> Model for IterRows<I> {
    ghost Value = { I };

    ghost view = { λ a. a.rows };

    ghost inverse = { λ v. record { rows = v } };
}

impl<I> IterRows<I> {
    ghost use Rattle.std.specs.Prelude.{◌≡◌};

    /// The rows that an iterator gives, or anything else that becomes one.
    pub fn new(rows: I) -> Self
        ensures { result ≡ rows }
    {
        IterRows { rows }
    }
}

impl<I> IntoRecords for IterRows<I>
where
    I: IntoIterator,
    I::Item: IntoIterator,
{
    type Cell = <I::Item as IntoIterator>::Item;

    type IterColumns = I::Item;

    type IterRows = I;

    ghost Shown = { I.Item.Item };

    ghost shown = { λ cell. cell };

    ghost gives = { RowsShow I.IntoIterator I.IntoIter.Iterator I.Item.IntoIterator I.Item.IntoIter.Iterator (λ cell. cell) };

    ghost may_be_asked = { RowsMayBeAsked I.IntoIterator I.IntoIter.Iterator I.Item.IntoIterator I.Item.IntoIter.Iterator };

    ghost may_give = { Gave I.into_iter_gives I.IntoIter.next_gives };

    fn iter_rows(self) -> I {
        self.rows
    }
}
