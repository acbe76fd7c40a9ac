//! Work on the rows of a builder, cell by cell and row by row.

ghost use Rattle.std.specs.Prelude.{◌≡◌, ℕ, ◌<◌, ◌≤◌, IfOk, OnOk, OnErr, map, replicate, take, vec_len};
ghost use Rattle.std.specs.List.{filter};
ghost use Rattle.std.specs.String.{string_bytes};
ghost use Rattle.tabled_grid.specs.Evenness.{AreWide};
ghost use Rattle.tabled_table.specs.Builder.{longest as longest_of, padded_to, pushed_items, row_has_text, row_texts, with_row_at};
ghost use Rattle.tabled_table.specs.Given.{GaveTexts, MayBeAsked};

use crate::builder::columns::insert_items;
use std::alloc::{AllocError, Global};
use tabled_grid::records::Text;
use tabled_grid::records::nested_rows::truncate_each;

/// The texts that are handed in, for which it first makes some room if it can.
pub(super) fn collect<R>(
    alloc: Global,
    room: usize,
    texts: R,
) -> Result<Vec<Text<String>>, AllocError>
where
    R: IntoIterator<Item = String>,
    requires { MayBeAsked R.IntoIterator R.IntoIter.Iterator texts }
    ensures { IfOk result (λ row. GaveTexts R.IntoIterator R.IntoIter.Iterator texts (λ given. map string_bytes row.items ≡ given)) }
{
    let mut row = Vec::new(alloc);
    let _ = row.reserve_exact(room);
    for text in texts {
        row.push(Text::new(text))?;
    }
    Ok(row)
}

/// Pads a row with copies of a text, up to a length. Refused, it leaves in front what was there.
pub(super) fn pad(
    alloc: Global,
    row: &mut Vec<Text<String>>,
    columns: usize,
    empty: &str,
) -> Result<(), AllocError>
    ensures ok { OnOk result (map string_bytes row.new.items ≡ padded_to columns empty.now (map string_bytes row.old.items)) }
    ensures front { take (vec_len row.old) (map string_bytes row.new.items) ≡ map string_bytes row.old.items }
{
    row.reserve(columns.saturating_sub(row.len()))?;
    while row.len() < columns {
        row.push(Text::new(String::from_str(alloc, empty)?))?;
    }
    Ok(())
}

/// Pads each row to a length. Refused, it leaves in front what was there.
pub(super) fn try_pad_each(
    alloc: Global,
    rows: &mut [Vec<Text<String>>],
    columns: usize,
    empty: &str,
) -> Result<(), AllocError>
    ensures ok { OnOk result (row_texts rows.new ≡ map (padded_to columns empty.now) (row_texts rows.old)) }
    ensures front { (from : ℕ) → AreWide from (row_texts rows.old) → map (take from) (row_texts rows.new) ≡ row_texts rows.old }
{
    for row in rows.iter_mut() {
        pad(alloc, row, columns, empty)?;
    }
    Ok(())
}

/// Pads rows of one length to another, if it is longer. Refused, it leaves them as they were.
pub(super) fn pad_each(
    alloc: Global,
    rows: &mut [Vec<Text<String>>],
    from: usize,
    columns: usize,
    empty: &str,
) -> Result<(), AllocError>
    requires { AreWide from (row_texts rows.old) }
    ensures ok { OnOk result (row_texts rows.new ≡ map (padded_to columns empty.now) (row_texts rows.old)) }
    ensures err { OnErr result (row_texts rows.new ≡ row_texts rows.old) }
{
    if columns <= from {
        return Ok(());
    }
    let padded = try_pad_each(alloc, rows, columns, empty);
    if padded.is_err() {
        truncate_each(rows, from);
    }
    padded
}

/// Inserts a row. The others, all of one length, are padded to it. Refused, it leaves them as they
/// were.
pub(super) fn insert_row(
    alloc: Global,
    rows: &mut Vec<Vec<Text<String>>>,
    from: usize,
    i: usize,
    row: Vec<Text<String>>,
    empty: &str,
) -> Result<(), AllocError>
    requires within { i ≤ vec_len rows.old }
    requires even { AreWide from (row_texts rows.old.items) }
    ensures ok { OnOk result (row_texts rows.new.items ≡ with_row_at (vec_len row) empty.now (row_texts rows.old.items) i (map string_bytes row.items)) }
    ensures err { OnErr result (row_texts rows.new.items ≡ row_texts rows.old.items) }
{
    rows.reserve(1)?;
    pad_each(alloc, rows, from, row.len(), empty)?;
    rows.insert(i, row).unwrap();
    Ok(())
}

/// Pushes rows of copies of a text, up to a count. Refused, it leaves in front what
/// was there.
fn pad_rows(
    alloc: Global,
    rows: &mut Vec<Vec<Text<String>>>,
    count: usize,
    columns: usize,
    empty: &str,
) -> Result<(), AllocError>
    ensures ok { OnOk result (row_texts rows.new.items ≡ padded_to count (replicate columns empty.now) (row_texts rows.old.items)) }
    ensures front { take (vec_len rows.old) (row_texts rows.new.items) ≡ row_texts rows.old.items }
{
    while rows.len() < count {
        let mut row = Vec::new(alloc);
        pad(alloc, &mut row, columns, empty)?;
        rows.push(row)?;
    }
    Ok(())
}

/// Pushes an item to each row, after rows for the surplus items. Refused, it leaves the rows as
/// they were.
pub(super) fn push_items(
    alloc: Global,
    rows: &mut Vec<Vec<Text<String>>>,
    columns: usize,
    items: Vec<Text<String>>,
    empty: &str,
) -> Result<(), AllocError>
    requires even { AreWide columns (row_texts rows.old.items) }
    requires many { vec_len rows.old ≤ vec_len items }
    ensures ok { OnOk result (row_texts rows.new.items ≡ pushed_items (vec_len items) columns empty.now (row_texts rows.old.items) (map string_bytes items.items)) }
    ensures err { OnErr result (row_texts rows.new.items ≡ row_texts rows.old.items) }
{
    let count = rows.len();
    if pad_rows(alloc, rows, items.len(), columns, empty).is_err()
        || insert_items(rows, columns, items).is_err()
    {
        rows.truncate(count);
        return Err(AllocError);
    }
    Ok(())
}

/// Whether a row has a text.
fn has_text(row: &[Text<String>]) -> bool
    ensures { result ≡ row_has_text (map string_bytes row.now) }
{
    for cell in row {
        if !cell.as_str().is_empty() {
            return true;
        }
    }
    false
}

/// Keeps the rows that have a text.
pub(super) fn retain_texts(rows: &mut Vec<Vec<Text<String>>>)
    ensures { row_texts rows.new.items ≡ filter row_has_text (row_texts rows.old.items) }
{
    rows.retain(|row| has_text(row));
}

/// The length of the longest row.
pub(super) fn longest(rows: &[Vec<Text<String>>]) -> usize
    ensures { result ≡ longest_of (row_texts rows.now) }
{
    let mut most = 0;
    for row in rows {
        most = row.len().max(most);
    }
    most
}
