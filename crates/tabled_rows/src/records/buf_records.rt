//! A source whose first rows are read ahead.

ghost use Rattle.std.specs.Prelude.{◌≡◌, ◌⊎◌, List, IfOk};
ghost use Rattle.tabled_grid.specs.Grid.{map_items};
ghost use Rattle.tabled_rows.specs.Ahead.{AheadMayGive, AheadShows, CameAhead, OthersMayBeAsked};
ghost use Rattle.tabled_rows.specs.Gave.{ReadsAhead};
ghost use Rattle.tabled_rows.specs.Rows.{all_shown, first_rows};

use crate::records::into_records::IntoRecords;
use std::alloc::{AllocError, Global};
use std::iter::Fuse;
use std::marker::{Model, PhantomData};
use std::vec;

/// A source whose first rows are read ahead into a buffer. A contract sees it as the rows in the
/// buffer, and what goes over the others.
///
/// Ported from `tabled::grid::records::into_records::BufRecords`.
#[derive(Drop)]
pub struct BufRecords<S, I, T> {
    buffer: Vec<Vec<T>>,
    rows: Fuse<I>,
    source: PhantomData<S>,
}

impl<S, I, T> Model for BufRecords<S, I, T> {
    ghost use Rattle.std.specs.Prelude.{List};
    ghost use Rattle.tabled_grid.specs.Grid.{map_items};
    ghost use Rattle.std.specs.declared.iter.Fuse.{Fuse};

    ghost Value = { List (List T) × Fuse I };

    ghost view = { λ a. (map_items a.buffer.items, a.rows) };
}

impl<S, I, T> BufRecords<S, I, T> {
    /// The rows in the buffer.
    ///
    /// Ported from `tabled::grid::records::into_records::BufRecords::as_slice`.
    pub fn as_slice(&self) -> &[Vec<T>]
        ensures { map_items result.now ≡ self.now.0 }
    {
        self.buffer.as_slice()
    }
}

impl<S: IntoRecords> BufRecords<S, <S::IterRows as IntoIterator>::IntoIter, S::Cell>
where
    S::Cell: Drop,
{
    /// Reads the first `n` rows of a source into a buffer. It reads fewer only where the source has ended, and
    /// then asks it no more. Whatever comes after them, the source gave the rows that were read, and then that.
    ///
    /// Refused for memory, it drops the source and what was read.
    ///
    /// Ported from `tabled::grid::records::into_records::BufRecords::new`.
    pub fn new(alloc: Global, records: S, n: usize) -> Result<Self, AllocError>
        requires { S.may_be_asked records ⊎ ((rows : List (List S.Shown)) × S.gives records rows) }
        ensures ahead { IfOk result (λ ahead. ReadsAhead n ahead.0 ahead.1) }
        ensures buffered { (rows : List (List S.Shown)) → S.gives records rows → IfOk result (λ ahead. all_shown S.shown ahead.0 ≡ first_rows n rows) }
        ensures same { (rows : List (List S.Shown)) → S.gives records rows → IfOk result (λ ahead. ⟦<Self as IntoRecords>⟧.gives ahead rows) }
        ensures asked { IfOk result (λ ahead. ⟦<Self as IntoRecords>⟧.may_be_asked ahead) }
        ensures came { IfOk result (CameAhead S.IterRows.IntoIter.Iterator S.IterColumns.IntoIterator S.IterColumns.IntoIter.Iterator (S.may_give records)) }
    {
        let mut rows = records.iter_rows().into_iter().fuse();
        let mut buffer = Vec::new(alloc);
        while buffer.len() < n {
            let Some(row) = rows.next() else {
                break;
            };
            buffer.push(row.into_iter().collect::<Vec<_>>(alloc)?)?;
        }
        Ok(BufRecords {
            buffer,
            rows,
            source: PhantomData,
        })
    }
}

/// The rows of the source: those in the buffer, and then the others.
impl<S: IntoRecords> IntoRecords for BufRecords<S, <S::IterRows as IntoIterator>::IntoIter, S::Cell>
where
    S::Cell: Drop,
{
    type Cell = S::Cell;

    type IterColumns = BufIterator<<S::IterColumns as IntoIterator>::IntoIter, S::Cell>;

    type IterRows = BufRecordsIter<Fuse<<S::IterRows as IntoIterator>::IntoIter>, S::Cell>;

    ghost Shown = { S.Shown };

    ghost shown = { S.shown };

    ghost gives = { AheadShows S.IterRows.IntoIter.Iterator S.IterColumns.IntoIterator S.IterColumns.IntoIter.Iterator S.shown };

    ghost may_be_asked = { λ s. OthersMayBeAsked S.IterRows.IntoIter.Iterator S.IterColumns.IntoIterator S.IterColumns.IntoIter.Iterator s.1 };

    ghost may_give = { AheadMayGive S.IterRows.IntoIter.Iterator S.IterColumns.IntoIterator };

    fn iter_rows(self) -> BufRecordsIter<Fuse<<S::IterRows as IntoIterator>::IntoIter>, S::Cell> {
        let BufRecords { buffer, rows, .. } = self;
        BufRecordsIter {
            buffer: buffer.into_iter(),
            rows,
        }
    }
}

/// Goes over buffered rows, and then over those that an iterator gives.
///
/// Ported from `tabled::grid::records::into_records::BufRecordsIter`.
#[derive(Drop)]
pub struct BufRecordsIter<I, T> {
    buffer: vec::IntoIter<Vec<T>>,
    rows: I,
}

impl<I, T> Iterator for BufRecordsIter<I, T>
where
    I: Iterator,
    I::Item: IntoIterator<Item = T>,
    T: Drop,
{
    type Item = BufIterator<<I::Item as IntoIterator>::IntoIter, T>;

    ghost use Rattle.std.specs.Prelude.{◌≡◌};
    ghost use Rattle.std.specs.Iterator.{at_most, count_add};
    ghost use Rattle.std.specs.Vec.Iter.{into_iter_len};
    ghost use Rattle.tabled_rows.specs.Steps.{GivesBuffered, walk_of};

    ghost can_next = { λ s. I.can_next s.rows };

    ghost next_gives = { λ s r t. GivesBuffered I.next_gives I.Item.into_iter_gives (walk_of s) r (walk_of t) };

    ghost remaining = { λ s. count_add (at_most (into_iter_len s.buffer)) (I.remaining s.rows) };

    fn next(&mut self) -> Option<BufIterator<<I::Item as IntoIterator>::IntoIter, T>> {
        if let Some(row) = self.buffer.next() {
            return Some(BufIterator::Buffered(row.into_iter()));
        }
        let row = self.rows.next()?;
        Some(BufIterator::Iterator(row.into_iter()))
    }
}

/// Goes over the cells of a buffered row, or of one that came.
///
/// Ported from `tabled::grid::records::into_records::BufIterator`.
#[derive(Drop)]
pub enum BufIterator<I, T> {
    /// The cells of a buffered row.
    Buffered(vec::IntoIter<T>),
    /// The cells of a row that came.
    Iterator(I),
}

impl<I: Iterator<Item = T>, T: Drop> Iterator for BufIterator<I, T> {
    type Item = T;

    ghost use Rattle.tabled_rows.specs.Steps.{Comes, can_come, still_to_come};

    ghost can_next = { can_come I.can_next };

    ghost next_gives = { Comes I.next_gives };

    ghost remaining = { still_to_come I.remaining };

    fn next(&mut self) -> Option<T> {
        match self {
            BufIterator::Buffered(cells) => cells.next(),
            BufIterator::Iterator(cells) => cells.next(),
        }
    }
}
