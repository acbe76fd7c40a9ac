//! Work on rows in vectors of their own, row by row.

ghost use Rattle.std.specs.Prelude.{◌≡◌, ◌+◌, ◌<◌, ◌≤◌, List, IfOk, OnErr, OnOk, length, map, take, vec_capacity, vec_len};
ghost use Rattle.std.specs.List.{All, AllByRecursion, AllZip, remove, swap};
ghost use Rattle.std.specs.Global.{Vec};
ghost use Rattle.tabled_grid.specs.Bulk.{transposed};
ghost use Rattle.tabled_grid.specs.Grid.{IsEven, grid_of, map_items, width_of};
ghost use Rattle.tabled_grid.specs.Moves.{AddsBlanks};
ghost use Rattle.tabled_grid.specs.Resized.{AreBlanks, InsertsBlank, with_cells_swapped};

use crate::config::Position;
use crate::records::blank::Blank;
use std::alloc::{AllocError, Global};
use std::mem;

/// The number of cells of the first row.
#[doc(hidden)]
pub fn width<T>(rows: &[Vec<T>]) -> usize
    ensures { result ≡ width_of (map_items rows.now) }
{
    match rows.first() {
        None => 0,
        Some(row) => row.len(),
    }
}

/// n blanks.
pub(crate) fn blanks<T: Blank>(alloc: Global, count: usize) -> Result<Vec<T>, AllocError>
    ensures { IfOk result (λ cells. AreBlanks T.is_blank count cells.items) }
{
    let mut cells = Vec::with_capacity(alloc, count)?;
    for _ in 0..count {
        cells.push(T::blank(alloc))?;
    }
    Ok(cells)
}

/// r rows of c blanks.
pub(crate) fn blank_rows<T: Blank>(
    alloc: Global,
    rows: usize,
    columns: usize,
) -> Result<Vec<Vec<T>>, AllocError>
    ensures many { IfOk result (λ made. length made.items ≡ rows) }
    ensures blanks { IfOk result (λ made. AllByRecursion (AreBlanks T.is_blank columns) (map_items made.items)) }
{
    let mut made = Vec::with_capacity(alloc, rows)?;
    for _ in 0..rows {
        made.push(blanks(alloc, columns)?)?;
    }
    Ok(made)
}

/// Puts n blanks last, for which there is room.
pub(crate) fn fill<T: Blank>(alloc: Global, cells: &mut Vec<T>, count: usize)
    requires { vec_len cells.old + count ≤ vec_capacity cells.old }
    ensures { AddsBlanks T.is_blank cells.old.items cells.new.items count }
{
    for _ in 0..count {
        cells.push_reserved(T::blank(alloc));
    }
}

/// Makes room for n more cells in each row, which changes no cell.
fn make_room<T>(rows: &mut [Vec<T>], many: usize) -> Result<(), AllocError>
    ensures cells { map_items rows.new ≡ map_items rows.old }
    ensures room { OnOk result (All (λ (row : Vec T). vec_len row + many ≤ vec_capacity row) rows.new) }
{
    for row in rows.iter_mut() {
        row.reserve(many)?;
    }
    Ok(())
}

/// Puts n blanks after each row. Refused, it leaves the cells as they were.
pub(crate) fn widen_each<T: Blank>(
    alloc: Global,
    rows: &mut [Vec<T>],
    many: usize,
) -> Result<(), AllocError>
    ensures ok { OnOk result (AllZip (λ (row wide : List T). AddsBlanks T.is_blank row wide many) (map_items rows.old) (map_items rows.new)) }
    ensures err { OnErr result (map_items rows.new ≡ map_items rows.old) }
{
    make_room(rows, many)?;
    for row in rows.iter_mut() {
        fill(alloc, row, many);
    }
    Ok(())
}

/// Makes room for one more cell in each row, which changes no cell.
#[doc(hidden)]
pub fn reserve_each<T>(rows: &mut [Vec<T>]) -> Result<(), AllocError>
    ensures cells { map_items rows.new ≡ map_items rows.old }
    ensures room { OnOk result (All (λ (row : Vec T). vec_len row < vec_capacity row) rows.new) }
{
    make_room(rows, 1)?;
    Ok(())
}

/// Inserts a blank into each row before place `j`. Refused, it leaves the cells as they were.
pub(crate) fn insert_blanks<T: Blank>(
    alloc: Global,
    rows: &mut [Vec<T>],
    j: usize,
) -> Result<(), AllocError>
    requires { All (λ (row : Vec T). j ≤ vec_len row) rows.old }
    ensures ok { OnOk result (AllZip (InsertsBlank T.is_blank j) (map_items rows.old) (map_items rows.new)) }
    ensures err { OnErr result (map_items rows.new ≡ map_items rows.old) }
{
    reserve_each(rows)?;
    for row in rows.iter_mut() {
        row.insert(j, T::blank(alloc)).unwrap();
    }
    Ok(())
}

/// Removes the cell at `j` from each row.
#[doc(hidden)]
pub fn remove_each<T: Drop>(rows: &mut [Vec<T>], j: usize)
    requires { All (λ (row : Vec T). j < vec_len row) rows.old }
    ensures { map_items rows.new ≡ map (λ (row : List T). remove row j) (map_items rows.old) }
{
    for row in rows.iter_mut() {
        let _cell = row.remove(j);
    }
}

/// Keeps the first `count` cells of each row alone.
#[doc(hidden)]
pub fn truncate_each<T: Drop>(rows: &mut [Vec<T>], count: usize)
    ensures { map_items rows.new ≡ map (λ (row : List T). take count row) (map_items rows.old) }
{
    for row in rows.iter_mut() {
        row.truncate(count);
    }
}

/// Swaps the cells at `j` and `k` in each row.
pub(crate) fn swap_each<T>(rows: &mut [Vec<T>], j: usize, k: usize)
    requires j_within { All (λ (row : Vec T). j < vec_len row) rows.old }
    requires k_within { All (λ (row : Vec T). k < vec_len row) rows.old }
    ensures { map_items rows.new ≡ map (λ (row : List T). swap row j k) (map_items rows.old) }
{
    for row in rows.iter_mut() {
        row.swap(j, k);
    }
}

/// Swaps two cells.
pub(crate) fn swap_cells<T: Drop>(rows: &mut [Vec<T>], p: Position, q: Position)
    requires p_row { p.row < length rows.old }
    requires p_col { All (λ (row : Vec T). p.col < vec_len row) rows.old }
    requires q_row { q.row < length rows.old }
    requires q_col { All (λ (row : Vec T). q.col < vec_len row) rows.old }
    ensures { map_items rows.new ≡ (with_cells_swapped (grid_of (map_items rows.old)) p q).cells }
{
    if p.row == q.row {
        rows[p.row].swap(p.col, q.col);
        return;
    }
    let none = Vec::new(*rows[p.row].allocator());
    let mut row = mem::replace(&mut rows[p.row], none);
    mem::swap(&mut row[p.col], &mut rows[q.row][q.col]);
    rows[p.row] = row;
}

/// Swaps the cells of a square across its diagonal.
pub(crate) fn transpose_square<T: Drop>(rows: &mut [Vec<T>])
    requires even { IsEven (grid_of (map_items rows.old)) }
    requires some { 0 < length rows.old }
    requires square { width_of (map_items rows.old) ≡ length rows.old }
    ensures even { IsEven (grid_of (map_items rows.new)) }
    ensures turned { grid_of (map_items rows.new) ≡ transposed (grid_of (map_items rows.old)) }
{
    let size = rows.len();
    for i in 0..size {
        for j in i + 1..size {
            swap_cells(
                rows,
                Position { row: i, col: j },
                Position { row: j, col: i },
            );
        }
    }
}
