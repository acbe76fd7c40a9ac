//! Rows and columns by names, of one behind another.

ghost use Rattle.std.specs.Prelude.{◌≡◌, ◌<◌, ◌≤◌, ◌++◌, ◌-◌, ℕ, IfOk, List, OnOk};
ghost use Rattle.std.specs.List.{All};
ghost use Rattle.std.specs.String.{string_bytes};
ghost use Rattle.tabled_grid.specs.Grid.{map_grid};
ghost use Rattle.tabled_select.specs.Locators.{columns_with};
ghost use Rattle.tabled_settings.specs.Named.{all_columns_named, all_rows_named, columns_named, counted, cut_index, row_passes, rows_named, rows_passing, sliced, text_passes};

use crate::text_test::TextTest;
use std::alloc::{AllocError, Global};
use std::marker::Model;
use tabled_grid::config::{Offset, Position};
use tabled_grid::records::{CellText, ExactRecords, PeekableRecords, Records};
use tabled_select::location::{ByColumnName, Location, coordinates};

/// What names columns.
///
/// Of this project.
#[derive(Debug, Drop)]
pub enum ColumnName {
    /// One column, counted from either end: `End(1)` is the last.
    At(Offset),
    /// Those from one up to another, cut at the ends of the table.
    Between(Offset, Offset),
    /// Those with a text in the first row.
    Text(String),
}

/// What names rows.
///
/// Of this project.
#[derive(Debug, Drop)]
pub enum RowName {
    /// One row, counted from either end: `End(1)` is the last.
    At(Offset),
    /// Those from one up to another, cut at the ends of the table.
    Between(Offset, Offset),
    /// Those below the first row with a text that passes a test, in the first column with this text in the first row.
    Where(String, TextTest),
}

/// The columns of names, of one behind another. A contract sees the names.
///
/// Of this project.
#[derive(Debug, Drop)]
pub struct ColumnNames {
    names: Vec<ColumnName>,
}

impl Model for ColumnNames {
    ghost use Rattle.std.specs.Prelude.{List};
    ghost use Rattle.tabled_settings.specs.declared.line_names.ColumnName.{ColumnName};

    ghost Value = { List ColumnName };

    ghost view = { λ a. a.names.items };
}

/// The rows of names, of one behind another. A contract sees the names.
///
/// Of this project.
#[derive(Debug, Drop)]
pub struct RowNames {
    names: Vec<RowName>,
}

impl Model for RowNames {
    ghost use Rattle.std.specs.Prelude.{List};
    ghost use Rattle.tabled_settings.specs.declared.line_names.RowName.{RowName};

    ghost Value = { List RowName };

    ghost view = { λ a. a.names.items };
}

impl ColumnNames {
    ghost use Rattle.std.specs.Prelude.{◌≡◌, IfOk};
    ghost use Rattle.tabled_grid.specs.Grid.{map_grid};
    ghost use Rattle.tabled_settings.specs.Named.{all_columns_named};

    /// Of this project.
    pub fn new(names: Vec<ColumnName>) -> Self
        ensures { result ≡ names.items }
    {
        ColumnNames { names }
    }

    /// The columns of a store that are named. One stands as often as it is named, and one past the table, too. It may be
    /// refused for memory.
    ///
    /// Of this project.
    pub fn find<R>(&self, alloc: Global, records: &R) -> Result<Vec<usize>, AllocError>
    where
        R: Records + ExactRecords + PeekableRecords,
        R::Cell: CellText,
        requires { R.is_well_formed records.now }
        ensures { IfOk result (λ found. found.items ≡ all_columns_named self.now (map_grid R.Cell.text_of (R.grid records.now))) }
    {
        find_columns(alloc, &self.names, records)
    }
}

impl RowNames {
    ghost use Rattle.std.specs.Prelude.{◌≡◌, IfOk};
    ghost use Rattle.tabled_grid.specs.Grid.{map_grid};
    ghost use Rattle.tabled_settings.specs.Named.{all_rows_named};

    /// Of this project.
    pub fn new(names: Vec<RowName>) -> Self
        ensures { result ≡ names.items }
    {
        RowNames { names }
    }

    /// The rows of a store that are named. One stands as often as it is named, and one past the table, too. It may be
    /// refused for memory.
    ///
    /// Of this project.
    pub fn find<R>(&self, alloc: Global, records: &R) -> Result<Vec<usize>, AllocError>
    where
        R: Records + ExactRecords + PeekableRecords,
        R::Cell: CellText,
        requires { R.is_well_formed records.now }
        ensures { IfOk result (λ found. found.items ≡ all_rows_named self.now (map_grid R.Cell.text_of (R.grid records.now))) }
    {
        find_rows(alloc, &self.names, records)
    }
}

impl<R> Location<R> for ColumnNames
where
    R: Records + ExactRecords + PeekableRecords,
    R::Cell: CellText,
{
    type Coordinate = usize;

    type IntoIter = Vec<usize>;

    ghost locates = { λ names g found. found ≡ all_columns_named names (map_grid R.Cell.text_of g) };

    fn locate(&mut self, alloc: Global, records: &R) -> Result<Vec<usize>, AllocError> {
        find_columns(alloc, &self.names, records)
    }
}

impl<R> Location<R> for RowNames
where
    R: Records + ExactRecords + PeekableRecords,
    R::Cell: CellText,
{
    type Coordinate = usize;

    type IntoIter = Vec<usize>;

    ghost locates = { λ names g found. found ≡ all_rows_named names (map_grid R.Cell.text_of g) };

    fn locate(&mut self, alloc: Global, records: &R) -> Result<Vec<usize>, AllocError> {
        find_rows(alloc, &self.names, records)
    }
}

/// The columns of names, of one behind another.
fn find_columns<R>(
    alloc: Global,
    names: &[ColumnName],
    records: &R,
) -> Result<Vec<usize>, AllocError>
where
    R: Records + ExactRecords + PeekableRecords,
    R::Cell: CellText,
    requires { R.is_well_formed records.now }
    ensures { IfOk result (λ found. found.items ≡ all_columns_named names.now (map_grid R.Cell.text_of (R.grid records.now))) }
{
    let mut found = Vec::new(alloc);
    for name in names {
        add_columns(alloc, name, records, &mut found)?;
    }
    Ok(found)
}

/// The rows of names, of one behind another.
fn find_rows<R>(alloc: Global, names: &[RowName], records: &R) -> Result<Vec<usize>, AllocError>
where
    R: Records + ExactRecords + PeekableRecords,
    R::Cell: CellText,
    requires { R.is_well_formed records.now }
    ensures { IfOk result (λ found. found.items ≡ all_rows_named names.now (map_grid R.Cell.text_of (R.grid records.now))) }
{
    let mut found = Vec::new(alloc);
    for name in names {
        add_rows(alloc, name, records, &mut found)?;
    }
    Ok(found)
}

/// Adds the columns that a name names.
fn add_columns<R>(
    alloc: Global,
    name: &ColumnName,
    records: &R,
    found: &mut Vec<usize>,
) -> Result<(), AllocError>
where
    R: Records + ExactRecords + PeekableRecords,
    R::Cell: CellText,
    requires { R.is_well_formed records.now }
    ensures { OnOk result (found.new.items ≡ found.old.items ++ columns_named (map_grid R.Cell.text_of (R.grid records.now)) name.now) }
{
    let count = records.count_columns();
    match name {
        ColumnName::At(index) => add_counted(*index, count, found),
        ColumnName::Between(from, to) => add_sliced(*from, *to, count, found),
        ColumnName::Text(text) => {
            let titled = columns_titled(alloc, text, records)?;
            found.extend_from_slice(&titled)?;
            Ok(())
        }
    }
}

/// Adds the rows that a name names.
fn add_rows<R>(
    alloc: Global,
    name: &RowName,
    records: &R,
    found: &mut Vec<usize>,
) -> Result<(), AllocError>
where
    R: Records + ExactRecords + PeekableRecords,
    R::Cell: CellText,
    requires { R.is_well_formed records.now }
    ensures { OnOk result (found.new.items ≡ found.old.items ++ rows_named (map_grid R.Cell.text_of (R.grid records.now)) name.now) }
{
    let count = records.count_rows();
    match name {
        RowName::At(index) => add_counted(*index, count, found),
        RowName::Between(from, to) => add_sliced(*from, *to, count, found),
        RowName::Where(title, test) => {
            let mut titled = columns_titled(alloc, title, records)?;
            titled.truncate(1);
            add_passing(records, &titled, test, found)
        }
    }
}

/// The columns with a text in the first row.
fn columns_titled<R>(alloc: Global, title: &String, records: &R) -> Result<Vec<usize>, AllocError>
where
    R: Records + ExactRecords + PeekableRecords,
    R::Cell: CellText,
    requires { R.is_well_formed records.now }
    ensures found { IfOk result (λ found. found.items ≡ columns_with (string_bytes title.now) (map_grid R.Cell.text_of (R.grid records.now))) }
    ensures inside { IfOk result (λ found. All (λ (j : ℕ). j < (R.grid records.now).columns) found.items) }
{
    let mut titled = ByColumnName::new(title.clone()?);
    coordinates(alloc, &mut titled, records)
}

/// Adds an index that is counted from either end, if there is one.
fn add_counted(index: Offset, count: usize, found: &mut Vec<usize>) -> Result<(), AllocError>
    ensures { OnOk result (found.new.items ≡ found.old.items ++ counted index count) }
{
    match index {
        Offset::Start(index) => found.push(index)?,
        Offset::End(index) => {
            if index > 0 && index <= count {
                found.push(count - index)?;
            }
        }
    }
    Ok(())
}

/// Adds the indexes from one up to another, cut at both ends.
fn add_sliced(
    from: Offset,
    to: Offset,
    count: usize,
    found: &mut Vec<usize>,
) -> Result<(), AllocError>
    ensures { OnOk result (found.new.items ≡ found.old.items ++ sliced from to count) }
{
    let start = cut_index(from, count);
    let end = cut_index(to, count);
    for index in start..end {
        found.push(index)?;
    }
    Ok(())
}

/// The index that is counted from either end, cut at both ends.
fn cut_index(index: Offset, count: usize) -> usize
    ensures { result ≡ cut_index index count }
{
    match index {
        Offset::Start(index) => index.min(count),
        Offset::End(index) => count.saturating_sub(index),
    }
}

/// Adds the rows below the first that have a text that passes a test, in one of some columns.
fn add_passing<R>(
    records: &R,
    columns: &[usize],
    test: &TextTest,
    found: &mut Vec<usize>,
) -> Result<(), AllocError>
where
    R: Records + ExactRecords + PeekableRecords,
    R::Cell: CellText,
    requires well { R.is_well_formed records.now }
    requires inside { All (λ (j : ℕ). j < (R.grid records.now).columns) columns.now }
    ensures { OnOk result (found.new.items ≡ found.old.items ++ rows_passing (text_passes test.now) columns.now (map_grid R.Cell.text_of (R.grid records.now))) }
{
    for row in 1..records.count_rows() {
        if row_passes(records, row, columns, test) {
            found.push(row)?;
        }
    }
    Ok(())
}

/// Says whether a row has a text that passes a test, in one of some columns.
fn row_passes<R>(records: &R, row: usize, columns: &[usize], test: &TextTest) -> bool
where
    R: Records + ExactRecords + PeekableRecords,
    R::Cell: CellText,
    requires well { R.is_well_formed records.now }
    requires row { row < (R.grid records.now).rows }
    requires inside { All (λ (j : ℕ). j < (R.grid records.now).columns) columns.now }
    ensures { result ≡ row_passes (text_passes test.now) columns.now (map_grid R.Cell.text_of (R.grid records.now)) row }
{
    for &column in columns {
        if test.passes(records.get_text(Position::new(row, column))) {
            return true;
        }
    }
    false
}
