//! Work on cells that lie row after row in one list.

ghost use Rattle.std.specs.Prelude.{◌≡◌, ◌+◌, ◌-◌, ◌*◌, ◌<◌, ◌≤◌, ◌++◌, List, IfOk, OnErr, OnOk, length, map, take, drop, vec_len};
ghost use Rattle.std.specs.List.{remove, swap};
ghost use Rattle.std.specs.Vec.Iter.{into_iter_items};
ghost use Rattle.tabled_grid.specs.Grid.{map_items};
ghost use Rattle.tabled_grid.specs.Resized.{AreBlanks};
ghost use Rattle.tabled_grid.specs.Flat.{chunks, joined};
ghost use Rattle.tabled_grid.specs.Moves.{AddsBlanks, InsertsBlanks, PutsBlanks, Slid, SlidBack, with_runs_swapped};

use crate::records::blank::Blank;
use crate::records::nested_rows::moves::fill;
use std::alloc::{AllocError, Global};
use std::vec::IntoIter;

/// The cells of rows, one row after another, in one growth.
pub(super) fn join<T: Drop>(
    alloc: Global,
    rows: Vec<Vec<T>>,
    columns: usize,
) -> Result<Vec<T>, AllocError>
    ensures { IfOk result (λ cells. cells.items ≡ joined (map_items rows.items)) }
{
    let Some(count) = rows.len().checked_mul(columns) else {
        return Err(AllocError);
    };
    let mut cells = Vec::with_capacity(alloc, count)?;
    for mut row in rows {
        cells.append(&mut row)?;
    }
    Ok(cells)
}

/// Puts `count` blanks after the last cell, in one growth. Refused, it leaves the cells as they were.
pub(super) fn push_blanks<T: Blank>(
    alloc: Global,
    cells: &mut Vec<T>,
    count: usize,
) -> Result<(), AllocError>
    ensures ok { OnOk result (AddsBlanks T.is_blank cells.old.items cells.new.items count) }
    ensures err { OnErr result (cells.new.items ≡ cells.old.items) }
{
    cells.reserve(count)?;
    fill(alloc, cells, count);
    Ok(())
}

/// Puts `count` blanks before place `at`, in one growth. Refused, it leaves the cells as they were.
pub(super) fn insert_blanks<T: Blank>(
    alloc: Global,
    cells: &mut Vec<T>,
    at: usize,
    count: usize,
) -> Result<(), AllocError>
    requires { at ≤ vec_len cells.old }
    ensures ok { OnOk result (InsertsBlanks T.is_blank cells.old.items cells.new.items at count) }
    ensures err { OnErr result (cells.new.items ≡ cells.old.items) }
{
    push_blanks(alloc, cells, count)?;
    cells[at..].rotate_right(count);
    Ok(())
}

/// Removes the `count` cells from place `at` on.
pub(super) fn remove_run<T: Drop>(cells: &mut Vec<T>, at: usize, count: usize)
    requires { at + count ≤ vec_len cells.old }
    ensures { cells.new.items ≡ take at cells.old.items ++ drop (at + count) cells.old.items }
{
    cells[at..].rotate_left(count);
    let left = cells.len() - count;
    cells.truncate(left);
}

/// Brings `count` cells forward over the `gap` cells before them, to place `to`.
///
/// A few cells trade places with as many of the gap, so that this costs no more than they are many.
fn slide<T>(cells: &mut [T], to: usize, gap: usize, count: usize)
    requires { to + gap + count ≤ length cells.old }
    ensures { Slid cells.old cells.new to gap count }
{
    if count < gap {
        swap_runs(cells, to, to + gap, count);
    } else {
        cells[to..to + gap + count].rotate_left(gap);
    }
}

/// Brings the `count` cells at place `from` after the `gap` cells that follow them, at the same cost.
fn slide_back<T>(cells: &mut [T], from: usize, count: usize, gap: usize)
    requires { from + count + gap ≤ length cells.old }
    ensures { SlidBack cells.old cells.new from count gap }
{
    if count < gap {
        swap_runs(cells, from, from + gap, count);
    } else {
        cells[from..from + count + gap].rotate_right(gap);
    }
}

/// Makes rows of c cells rows of c + `many`: the blanks behind the last row go into the rows, `many`
/// into each, before column `j`. It goes over the cells once.
pub(super) fn spread<T: Blank>(cells: &mut [T], rows: usize, columns: usize, j: usize, many: usize)
    requires size { length cells.old ≡ rows * columns + rows * many }
    requires within { j ≤ columns }
    requires blanks { AreBlanks T.is_blank (rows * many) (drop (rows * columns) cells.old) }
    ensures { PutsBlanks T.is_blank (chunks rows columns (take (rows * columns) cells.old)) cells.new j many }
{
    for n in 0..rows {
        let i = rows - 1 - n;
        let left = i * many;
        slide_back(cells, i * columns + j, columns - j, left + many);
        slide_back(cells, i * columns, j, left);
    }
}

/// Makes rows of c cells rows of c - `count`, without the `count` from column `j` on. What is left out
/// comes to lie behind the last row. It goes over the cells once.
pub(super) fn close_up<T>(cells: &mut [T], rows: usize, columns: usize, j: usize, count: usize)
    requires size { length cells.old ≡ rows * columns }
    requires within { j + count ≤ columns }
    ensures { take (rows * (columns - count)) cells.new ≡ joined (map (λ (row : List T). take j row ++ drop (j + count) row) (chunks rows columns cells.old)) }
{
    let left = columns - count;
    for i in 0..rows {
        let gap = i * count;
        slide(cells, i * left, gap, j);
        slide(cells, i * left + j, gap + count, left - j);
    }
}

/// Exchanges two runs of `count` cells.
pub(super) fn swap_runs<T>(cells: &mut [T], first: usize, second: usize, count: usize)
    requires apart { first + count ≤ second }
    requires within { second + count ≤ length cells.old }
    ensures { cells.new ≡ with_runs_swapped cells.old first second count }
{
    let (front, back) = cells.split_at_mut(second);
    front[first..first + count].swap_with_slice(&mut back[..count]);
}

/// Exchanges columns `j` and `k`.
pub(super) fn swap_each<T>(cells: &mut [T], rows: usize, columns: usize, j: usize, k: usize)
    requires size { length cells.old ≡ rows * columns }
    requires j_within { j < columns }
    requires k_within { k < columns }
    ensures { cells.new ≡ joined (map (λ (row : List T). swap row j k) (chunks rows columns cells.old)) }
{
    for i in 0..rows {
        cells.swap(i * columns + j, i * columns + k);
    }
}

/// The cells as rows.
///
/// Refused for memory, it drops them.
pub(super) fn split<T: Drop>(
    alloc: Global,
    cells: Vec<T>,
    rows: usize,
    columns: usize,
) -> Result<Vec<Vec<T>>, AllocError>
    requires { vec_len cells ≡ rows * columns }
    ensures { IfOk result (λ nested. map_items nested.items ≡ chunks rows columns cells.items) }
{
    let mut nested = Vec::with_capacity(alloc, rows)?;
    let mut left = cells.into_iter();
    for _ in 0..rows {
        nested.push(take_row(alloc, &mut left, columns)?)?;
    }
    Ok(nested)
}

/// The next n cells, as a row.
fn take_row<T: Drop>(
    alloc: Global,
    left: &mut IntoIter<T>,
    columns: usize,
) -> Result<Vec<T>, AllocError>
    requires { columns ≤ length (into_iter_items left.old) }
    ensures row { IfOk result (λ row. row.items ≡ take columns (into_iter_items left.old)) }
    ensures left { OnOk result (into_iter_items left.new ≡ drop columns (into_iter_items left.old)) }
{
    let mut row = Vec::with_capacity(alloc, columns)?;
    for _ in 0..columns {
        if let Some(cell) = left.next() {
            row.push(cell)?;
        }
    }
    Ok(row)
}
