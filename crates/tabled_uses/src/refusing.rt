//! What is left where memory is refused in the midst of a work.

ghost use Rattle.std.specs.Prelude.{◌≡◌};

use std::alloc::{AllocError, Global};
use tabled_grid::records::{Blank, ExactRecords, Refusing, Resizable, Text, VecRecords};

/// Adds three rows, and says of each whether it was taken, and how many rows there are then.
pub fn adds_three_rows<S>(alloc: Global, records: &mut S) -> ([bool; 3], usize)
where
    S: ExactRecords + Resizable,
    S::Cell: Blank,
    requires { S.is_well_formed records.old }
    ensures well { S.is_well_formed records.new }
    ensures rows { result.1 ≡ (S.grid records.new).rows }
{
    let first = records.push_row(alloc).is_ok();
    let second = records.push_row(alloc).is_ok();
    let third = records.push_row(alloc).is_ok();
    ([first, second, third], records.count_rows())
}

/// The same on a store whose second row is refused.
pub fn second_row_refused(alloc: Global) -> Result<([bool; 3], usize), AllocError> {
    let store: VecRecords<Text<String>> = VecRecords::new(alloc, Vec::new(alloc))?;
    let mut records = Refusing::new(store, 2, 0);
    let (taken, _) = adds_three_rows(alloc, &mut records);
    Ok((taken, records.into_inner().count_rows()))
}
