//! Work on the columns of a builder, a cell in each row.

ghost use Rattle.std.specs.Prelude.{◌≡◌, ◌+◌, ◌<◌, ◌≤◌, ◌||◌, false, EachIndex, IfOk, OnOk, OnErr, String, length, map, take, vec_len, slice_index_or};
ghost use Rattle.std.specs.Global.{Global as Heap, Vec};
ghost use Rattle.std.specs.List.{All, count_by, remove};
ghost use Rattle.std.specs.String.{string_bytes};
ghost use Rattle.tabled_grid.specs.Evenness.{AreWide};
ghost use Rattle.tabled_table.specs.Builder.{column_of, filled_at, has_text_in, only_columns, row_texts, text_columns, with_items};
ghost use Rattle.tabled_table.specs.Gathering.{brought_forward};

use std::alloc::{AllocError, Global};
use tabled_grid::records::Text;
use tabled_grid::records::nested_rows::reserve_each;

/// Inserts an item into each row before place `j`. Refused, it leaves the rows as they were.
pub(super) fn insert_items(
    rows: &mut [Vec<Text<String>>],
    j: usize,
    items: Vec<Text<String>>,
) -> Result<(), AllocError>
    requires within { All (λ (row : Vec (String Heap)). j ≤ vec_len row) rows.old }
    requires many { vec_len items ≡ length rows.old }
    ensures ok { OnOk result (row_texts rows.new ≡ with_items j (row_texts rows.old) (map string_bytes items.items)) }
    ensures err { OnErr result (row_texts rows.new ≡ row_texts rows.old) }
{
    reserve_each(rows)?;
    let mut items = items.into_iter();
    for row in rows.iter_mut() {
        let item = items.next().unwrap();
        row.insert(j, item).unwrap();
    }
    Ok(())
}

/// How many columns are gathered at once, by two passes over the rows. What a row has of them lies
/// side by side, and is read in order.
const BLOCK: usize = 1024;

/// Marks the columns from `start` on in which the row has a text.
fn mark_row(row: &[Text<String>], start: usize, marks: &mut [bool])
    requires { start + length marks.old ≤ length row.now }
    ensures { EachIndex marks.new (λ i. slice_index_or marks.new i false ≡ (slice_index_or marks.old i false || filled_at (map string_bytes row.now) (start + i))) }
{
    for (i, mark) in marks.iter_mut().enumerate() {
        if !row[start + i].as_str().is_empty() {
            *mark = true;
        }
    }
}

/// Marks the columns from `start` on in which some row has a text, where none is marked before.
fn mark_columns(rows: &[Vec<Text<String>>], start: usize, marks: &mut [bool])
    requires within { All (λ (row : Vec (String Heap)). start + length marks.old ≤ vec_len row) rows.now }
    requires unmarked { EachIndex marks.old (λ i. slice_index_or marks.old i false ≡ false) }
    ensures { EachIndex marks.new (λ i. slice_index_or marks.new i false ≡ has_text_in (row_texts rows.now) (start + i)) }
{
    for row in rows {
        if !marks.contains(&false) {
            return;
        }
        mark_row(row, start, marks);
    }
}

/// Swaps the marked cells from `start` on, one after another, with those from `kept` on.
fn bring_forward(row: &mut [Text<String>], start: usize, marks: &[bool], kept: usize)
    requires below { kept ≤ start }
    requires within { start + length marks.now ≤ length row.old }
    ensures { map string_bytes row.new ≡ brought_forward marks.now kept start (map string_bytes row.old) }
{
    let mut front = kept;
    for (i, mark) in marks.iter().enumerate() {
        if *mark {
            row.swap(front, start + i);
            front += 1;
        }
    }
}

/// Swaps cells so in each row.
fn bring_each_forward(rows: &mut [Vec<Text<String>>], start: usize, marks: &[bool], kept: usize)
    requires below { kept ≤ start }
    requires within { All (λ (row : Vec (String Heap)). start + length marks.now ≤ vec_len row) rows.old }
    ensures { row_texts rows.new ≡ map (brought_forward marks.now kept start) (row_texts rows.old) }
{
    for row in rows.iter_mut() {
        bring_forward(row, start, marks, kept);
    }
}

/// How many columns are marked.
fn count_marks(marks: &[bool]) -> usize
    ensures { result ≡ count_by (λ mark. mark) marks.now }
{
    marks.iter().filter(|mark| **mark).count()
}

/// Brings the columns with a text to the front, and answers how many these are.
pub(super) fn gather(rows: &mut [Vec<Text<String>>], columns: usize) -> usize
    requires { AreWide columns (row_texts rows.old) }
    ensures count { result ≡ length (text_columns columns (row_texts rows.old)) }
    ensures front { map (take result) (row_texts rows.new) ≡ only_columns (text_columns columns (row_texts rows.old)) (row_texts rows.old) }
{
    let mut kept = 0;
    let mut start = 0;
    while start < columns {
        let mut block = [false; BLOCK];
        let marks = &mut block[..BLOCK.min(columns - start)];
        mark_columns(rows, start, marks);
        bring_each_forward(rows, start, marks, kept);
        kept += count_marks(marks);
        start += marks.len();
    }
    kept
}

/// Removes the cell at `j` of each row, and answers these.
pub(super) fn take_column(
    alloc: Global,
    rows: &mut [Vec<Text<String>>],
    j: usize,
) -> Result<Vec<Text<String>>, AllocError>
    requires { All (λ (row : Vec (String Heap)). j < vec_len row) rows.old }
    ensures column { IfOk result (λ column. map string_bytes column.items ≡ column_of (row_texts rows.old) j) }
    ensures rows { OnOk result (row_texts rows.new ≡ map (λ row. remove row j) (row_texts rows.old)) }
{
    let mut column = Vec::with_capacity(alloc, rows.len())?;
    for row in rows.iter_mut() {
        column.push(row.remove(j))?;
    }
    Ok(column)
}
