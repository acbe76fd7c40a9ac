//! The rows of a table in the order of a column.

ghost use Rattle.std.specs.Prelude.{◌≡◌, ◌<◌, ◌++◌, ℕ, IfOk, OnOk, drop, length, map, take};
ghost use Rattle.std.specs.List.{range_with_len};
ghost use Rattle.tabled_grid.specs.Entity.{place};
ghost use Rattle.tabled_grid.specs.Grid.{map_grid};
ghost use Rattle.tabled_select.specs.Locators.{text_at};
ghost use Rattle.tabled_settings.specs.InOrder.{comes_before, in_order, sorted_from};
ghost use Rattle.tabled_settings.specs.Keys.{lent_text};
ghost use Rattle.tabled_settings.specs.Sorted.{column_texts, first_named, order_at, sort_column, sorted_rows, text_order};

use crate::arranged::all_indexes;
use crate::sort::by_key::{sort_by_numbers, sort_by_texts};
use crate::sort::{SortColumn, SortKeys};
use std::alloc::{AllocError, Global};
use tabled_grid::config::Position;
use tabled_grid::records::{CellText, ExactRecords, PeekableRecords, Records};

/// The rows of a table, of which those from one on are in the order of a column. Takes a number and a place for a text for
/// each row, and as numbers a rank, or the places of a decimal number.
pub(super) fn sorted_rows<R>(
    alloc: Global,
    records: &R,
    from: usize,
    column: usize,
    keys: SortKeys,
    descending: bool,
) -> Result<Vec<usize>, AllocError>
where
    R: Records + ExactRecords + PeekableRecords,
    R::Cell: CellText,
    requires well { R.is_well_formed records.now }
    ensures { IfOk result (λ rows. rows.items ≡ sorted_rows from (text_order keys descending) column (map_grid R.Cell.text_of (R.grid records.now))) }
{
    let texts = column_texts(alloc, records, column)?;
    sorted_from(alloc, from, texts.as_slice(), keys, descending)
}

/// The texts of a column, from top to bottom. Where there is no such column, they are empty.
fn column_texts<'r, R>(
    alloc: Global,
    records: &'r R,
    column: usize,
) -> Result<Vec<&'r str>, AllocError>
where
    R: Records + ExactRecords + PeekableRecords,
    R::Cell: CellText,
    requires well { R.is_well_formed records.now }
    ensures { IfOk result (λ texts. map (λ t. t.now) texts.items ≡ column_texts (map_grid R.Cell.text_of (R.grid records.now)) column) }
{
    let rows = records.count_rows();
    let mut texts = Vec::with_capacity(alloc, rows)?;
    for row in 0..rows {
        texts.push(text_in(records, Position { row, col: column }))?;
    }
    Ok(texts)
}

/// The index of a column, or one past the columns.
pub(super) fn column_index<R>(records: &R, column: &SortColumn) -> usize
where
    R: Records + ExactRecords + PeekableRecords,
    R::Cell: CellText,
    requires well { R.is_well_formed records.now }
    ensures { result ≡ sort_column column.now (map_grid R.Cell.text_of (R.grid records.now)) }
{
    match column {
        SortColumn::Index(index) => *index,
        SortColumn::Name(name) => first_named(records, name.as_str()),
    }
}

/// The first column with a text in the first row, or one past the columns.
fn first_named<R>(records: &R, name: &str) -> usize
where
    R: Records + ExactRecords + PeekableRecords,
    R::Cell: CellText,
    requires well { R.is_well_formed records.now }
    ensures { result ≡ first_named name.now (map_grid R.Cell.text_of (R.grid records.now)) }
{
    let columns = records.count_columns();
    for col in 0..columns {
        if text_in(records, Position { row: 0, col }) == name {
            return col;
        }
    }
    columns
}

/// The text at a place, an empty one outside the table.
fn text_in<R>(records: &R, pos: Position) -> &str
where
    R: Records + ExactRecords + PeekableRecords,
    R::Cell: CellText,
    requires well { R.is_well_formed records.now }
    ensures { result.now ≡ text_at (map_grid R.Cell.text_of (R.grid records.now)) pos }
{
    if pos.row >= records.count_rows() {
        return "";
    }
    if pos.col >= records.count_columns() {
        return "";
    }
    records.get_text(pos)
}

/// The indexes of texts, of which those from one on are in the order of the texts.
fn sorted_from(
    alloc: Global,
    from: usize,
    texts: &[&str],
    keys: SortKeys,
    descending: bool,
) -> Result<Vec<usize>, AllocError>
    ensures { IfOk result (λ rows. rows.items ≡ sorted_from from (order_at keys descending texts.now) (length texts.now)) }
{
    let mut rows = all_indexes(alloc, texts.len())?;
    sort_behind(alloc, rows.as_mut_slice(), from, texts, keys, descending)?;
    Ok(rows)
}

/// Puts the indexes behind the first ones in the order of the texts at them.
fn sort_behind(
    alloc: Global,
    indexes: &mut [usize],
    from: usize,
    texts: &[&str],
    keys: SortKeys,
    descending: bool,
) -> Result<(), AllocError>
    ensures { OnOk result (indexes.new ≡ take from indexes.old ++ in_order (comes_before (order_at keys descending texts.now)) (drop from indexes.old)) }
{
    if from >= indexes.len() {
        return Ok(());
    }
    sort_by(alloc, &mut indexes[from..], texts, keys, descending)
}

/// Puts indexes in the order of the texts at them.
fn sort_by(
    alloc: Global,
    indexes: &mut [usize],
    texts: &[&str],
    keys: SortKeys,
    descending: bool,
) -> Result<(), AllocError>
    ensures { OnOk result (indexes.new ≡ in_order (comes_before (order_at keys descending texts.now)) indexes.old) }
{
    match keys {
        SortKeys::Texts => {
            sort_by_texts(indexes, texts, descending);
            Ok(())
        }
        SortKeys::Numbers => sort_by_numbers(alloc, indexes, texts, descending),
    }
}
