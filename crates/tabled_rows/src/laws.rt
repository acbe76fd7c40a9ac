//! Laws of what the calls of sources of rows say they do. Each is the contract of a function that
//! does nothing.

ghost use Rattle.std.specs.Prelude.{◌≡◌, ◌++◌, List};
ghost use Rattle.std.specs.Ordering.{nat_cmp, ordering_then};
ghost use Rattle.tabled_rows.specs.Rows.{first_rows, rows_after};

use crate::records::{EmptyRecords, IntoRecords};

/// Empty records are ordered by their rows, and then by their columns.
pub fn empty_records_in_order(_a: EmptyRecords, _b: EmptyRecords)
    ensures { ⟦<EmptyRecords as Ord>⟧.cmp _a _b ≡ ordering_then (nat_cmp _a.rows _b.rows) (nat_cmp _a.columns _b.columns) }
{}

/// The first rows and the rows after them are all rows.
pub fn first_rows_and_rows_after_are_all<I: IntoRecords>(_records: &I, _n: usize)
    ensures { (rows : List (List I.Shown)) → first_rows _n rows ++ rows_after _n rows ≡ rows }
{}
