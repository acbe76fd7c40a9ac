//! Rows in vectors of their own, made of columns.

ghost use Rattle.std.specs.Prelude.{◌≡◌, ◌+◌, ◌<◌, ◌≤◌, [], ℕ, IfOk, IsOk, OnErr, OnOk, length, replicate, suc, vec_capacity, vec_len};
ghost use Rattle.std.specs.List.{All};
ghost use Rattle.std.specs.Global.{Vec};
ghost use Rattle.tabled_grid.specs.Bulk.{transposed_rows, with_items_behind};
ghost use Rattle.tabled_grid.specs.Evenness.{AreWide};
ghost use Rattle.tabled_grid.specs.Grid.{map_items};

use super::moves::transpose_square;
use std::alloc::{AllocError, Global};
use std::mem;

/// n rows without cells, each with room for some.
fn empty_rows<T: Drop>(alloc: Global, count: usize, room: usize) -> Result<Vec<Vec<T>>, AllocError>
    ensures empty { IfOk result (λ rows. map_items rows.items ≡ replicate count []) }
    ensures room { IfOk result (λ rows. All (λ (row : Vec T). vec_len row + room ≤ vec_capacity row) rows.items) }
    ensures promised { count ≡ 0 → IsOk result }
{
    let mut rows = Vec::with_capacity(alloc, count)?;
    for _ in 0..count {
        rows.push(Vec::with_capacity(alloc, room)?)?;
    }
    Ok(rows)
}

/// Pushes an item to each row, in which there is room.
fn push_each<T: Drop>(rows: &mut [Vec<T>], items: Vec<T>)
    requires many { vec_len items ≡ length rows.old }
    requires room { All (λ (row : Vec T). vec_len row < vec_capacity row) rows.old }
    ensures cells { map_items rows.new ≡ with_items_behind (map_items rows.old) items.items }
    ensures left { (n : ℕ) → All (λ (row : Vec T). vec_len row + suc n ≤ vec_capacity row) rows.old → All (λ (row : Vec T). vec_len row + n ≤ vec_capacity row) rows.new }
{
    let mut items = items.into_iter();
    for row in rows.iter_mut() {
        // There is one for each row. Unwrapped, it would be copied once more on its way.
        let Some(item) = items.next() else { return };
        row.push_reserved(item);
    }
}

/// Makes rows of columns. Refused, it leaves the rows as they were.
///
/// A square needs no memory. Else all memory is taken before the first cell moves, and rows are read in
/// order.
#[doc(hidden)]
pub fn turn_rows<T: Drop>(
    alloc: Global,
    rows: &mut Vec<Vec<T>>,
    columns: usize,
) -> Result<(), AllocError>
    requires { AreWide columns (map_items rows.old.items) }
    ensures ok { OnOk result (map_items rows.new.items ≡ transposed_rows columns (map_items rows.old.items)) }
    ensures err { OnErr result (rows.new ≡ rows.old) }
    ensures promised { columns ≡ 0 → IsOk result }
{
    if columns > 0 && rows.len() == columns {
        transpose_square(rows);
        return Ok(());
    }
    let turned = empty_rows(alloc, columns, rows.len())?;
    let old = mem::replace(rows, turned);
    for row in old {
        push_each(rows, row);
    }
    Ok(())
}
