//! Work on columns in vectors of their own, column by column.

ghost use Rattle.std.specs.Prelude.{◌≡◌, ◌<◌, ◌≤◌, List, IfOk, OnErr, OnOk, map, vec_capacity, vec_len};
ghost use Rattle.std.specs.List.{All, AllZip, remove, swap};
ghost use Rattle.std.specs.Global.{Vec};
ghost use Rattle.tabled_grid.specs.Grid.{map_items};
ghost use Rattle.tabled_grid.specs.Resized.{AreBlanks, InsertsBlank};

use std::alloc::{AllocError, Global};
use tabled_grid::records::Blank;

/// A column of n blanks.
pub(crate) fn blanks<T: Blank>(alloc: Global, count: usize) -> Result<Vec<T>, AllocError>
    ensures { IfOk result (λ column. AreBlanks T.is_blank count column.items) }
{
    let mut column = Vec::with_capacity(alloc, count)?;
    for _ in 0..count {
        column.push(T::blank(alloc))?;
    }
    Ok(column)
}

/// Makes room for one more cell in each column, which changes no cell.
fn reserve_each<T>(columns: &mut [Vec<T>]) -> Result<(), AllocError>
    ensures cells { map_items columns.new ≡ map_items columns.old }
    ensures room { OnOk result (All (λ (column : Vec T). vec_len column < vec_capacity column) columns.new) }
{
    for column in columns.iter_mut() {
        column.reserve(1)?;
    }
    Ok(())
}

/// Inserts a blank into each column before place `i`. Refused, it leaves the cells as they were.
pub(crate) fn insert_blanks<T: Blank>(
    alloc: Global,
    columns: &mut [Vec<T>],
    i: usize,
) -> Result<(), AllocError>
    requires { All (λ (column : Vec T). i ≤ vec_len column) columns.old }
    ensures ok { OnOk result (AllZip (InsertsBlank T.is_blank i) (map_items columns.old) (map_items columns.new)) }
    ensures err { OnErr result (map_items columns.new ≡ map_items columns.old) }
{
    // All room is made before the first blank is put in, so that none is refused midway.
    reserve_each(columns)?;
    for column in columns.iter_mut() {
        column.insert(i, T::blank(alloc)).unwrap();
    }
    Ok(())
}

/// Removes the cell at `i` from each column.
pub(crate) fn remove_each<T: Drop>(columns: &mut [Vec<T>], i: usize)
    requires { All (λ (column : Vec T). i < vec_len column) columns.old }
    ensures { map_items columns.new ≡ map (λ (column : List T). remove column i) (map_items columns.old) }
{
    for column in columns.iter_mut() {
        let _cell = column.remove(i);
    }
}

/// Swaps the cells at `i` and `k` in each column.
pub(crate) fn swap_each<T>(columns: &mut [Vec<T>], i: usize, k: usize)
    requires i_within { All (λ (column : Vec T). i < vec_len column) columns.old }
    requires k_within { All (λ (column : Vec T). k < vec_len column) columns.old }
    ensures { map_items columns.new ≡ map (λ (column : List T). swap column i k) (map_items columns.old) }
{
    for column in columns.iter_mut() {
        column.swap(i, k);
    }
}
