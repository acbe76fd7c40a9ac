//! The rows of a `VecRecords`.

ghost use Rattle.std.specs.Prelude.{◌≡◌};

use crate::records::into_records::IntoRecords;
use tabled_grid::records::{ExactRecords, VecRecords};

/// The rows of the store, whose cells are lent. A store of `r x 0` gives r empty rows.
impl<'a, T> IntoRecords for &'a VecRecords<T> {
    type Cell = &'a T;

    type IterColumns = &'a [T];

    type IterRows = VecRows<'a, T>;

    ghost Shown = { T };

    ghost shown = { λ cell. cell.now };

    ghost gives = { λ s rows. rows ≡ s.now.grid.cells };

    ghost may_be_asked = { λ _. Unit {0} };

    fn iter_rows(self) -> VecRows<'a, T> {
        VecRows {
            records: self,
            row: 0,
        }
    }
}

/// Goes over the rows of a `VecRecords`.
#[derive(Drop)]
pub struct VecRows<'a, T> {
    records: &'a VecRecords<T>,
    row: usize,
}

impl<'a, T> Iterator for VecRows<'a, T> {
    type Item = &'a [T];

    ghost use Rattle.std.specs.Prelude.{drop};
    ghost use Rattle.std.specs.Iterator.{YieldsFirstRef, item_count};

    ghost next_gives = { YieldsFirstRef (λ s. drop s.row s.records.now.grid.cells) };

    ghost remaining = { item_count (λ s. drop s.row s.records.now.grid.cells) };

    fn next(&mut self) -> Option<&'a [T]> {
        let records = self.records;
        if self.row >= records.count_rows() {
            return None;
        }
        let row = records.row(self.row);
        self.row += 1;
        Some(row)
    }
}
