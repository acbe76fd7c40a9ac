//! Stores: made, read, written, grown and shrunk, whatever keeps their cells.

ghost use Rattle.std.specs.Prelude.{◌≡◌, ◌+◌, ◌<◌, IfOk, OnErr, OnOk, length};
ghost use Rattle.tabled_grid.specs.Grid.{IsEmptyWithoutRows, IsEven, IsInside, grid_of, map_items};

use std::alloc::{AllocError, Global};
use tabled_grid::config::Position;
use tabled_grid::records::{
    Axis, Blank, CellText, ExactRecords, PieceOrder, Records, RecordsMut, Resizable, Text,
    VecRecords,
};

/// A cell of a text.
pub fn cell(alloc: Global, text: &str) -> Result<Text<String>, AllocError> {
    Ok(Text::new(String::from_str(alloc, text)?))
}

/// A row of two cells.
fn pair(alloc: Global, first: &str, second: &str) -> Result<Vec<Text<String>>, AllocError>
    ensures { IfOk result (λ row. length row.items ≡ 2) }
{
    Ok(vec![in alloc; cell(alloc, first)?, cell(alloc, second)?]?)
}

/// The rows `a b / c d`, each in a vector of its own.
pub fn two_rows(alloc: Global) -> Result<Vec<Vec<Text<String>>>, AllocError>
    ensures { IfOk result (λ rows. IsEven (grid_of (map_items rows.items))) }
{
    let first = pair(alloc, "a", "b")?;
    let second = pair(alloc, "c", "d")?;
    Ok(vec![in alloc; first, second]?)
}

/// A table of fruits, one count of which is written after it is made.
pub fn fruits(alloc: Global) -> Result<VecRecords<Text<String>>, AllocError> {
    let head = pair(alloc, "Fruit", "Count")?;
    let apple = pair(alloc, "Apple", "3")?;
    let pear = pair(alloc, "Pear", "")?;
    let mut table = VecRecords::new(alloc, vec![in alloc; head, apple, pear]?)?;
    table.set(alloc, Position::new(2, 1), "5")?;
    Ok(table)
}

/// A row of a store and the cell of it at a column, or nothing outside.
pub fn read<T>(records: &VecRecords<T>, pos: Position) -> Option<(&[T], &T)> {
    if pos.row < records.count_rows() && pos.col < records.count_columns() {
        return Some((records.row(pos.row), records.get(pos)));
    }
    None
}

/// A change of a store, at places that are cut down to its shape.
#[derive(Clone, Copy)]
pub enum Change {
    PushRow,
    PushColumn,
    PushRows(usize),
    PushColumns(usize),
    Transpose,
    CutRows(PieceOrder),
    InsertRow(usize),
    InsertColumn(usize),
    RemoveRow(usize),
    RemoveColumn(usize),
    SwapRow(usize, usize),
    SwapColumn(usize, usize),
    Swap((usize, usize), (usize, usize)),
    Set(usize, usize),
}

/// Changes any store that tells its shape.
pub fn make_change<R>(alloc: Global, records: &mut R, change: Change) -> Result<(), AllocError>
where
    R: Resizable + Records + ExactRecords + RecordsMut<String>,
    R::Cell: CellText,
    requires { R.is_well_formed records.old }
    ensures { R.is_well_formed records.new }
{
    let shape = (records.count_rows(), records.count_columns());
    match change {
        Change::PushRows(many) => records.push_rows(alloc, many),
        Change::PushColumns(many) => records.push_columns(alloc, many),
        Change::Transpose => records.transpose(alloc),
        Change::CutRows(order) if shape.0 > 0 && shape.1 > 1 => {
            records.cut(alloc, Axis::Rows, order, 1)
        }
        _ => change_shaped(alloc, records, shape, change),
    }
}

/// Changes any store that is lent by one row, column or cell, through its `&mut`, which is a store itself.
pub fn make_lent_change<R>(
    alloc: Global,
    lent: &mut &mut R,
    change: Change,
) -> Result<(), AllocError>
where
    R: Resizable + Records + ExactRecords + RecordsMut<String>,
    R::Cell: CellText,
    requires { R.is_well_formed lent.old.now }
    ensures { R.is_well_formed lent.new.now }
{
    let shape = (lent.count_rows(), lent.count_columns());
    change_shaped(alloc, lent, shape, change)
}

/// Changes any store whose shape is known, as a generic caller does.
fn change_shaped<R>(
    alloc: Global,
    records: &mut R,
    shape: (usize, usize),
    change: Change,
) -> Result<(), AllocError>
where
    R: Resizable + RecordsMut<String>,
    R::Cell: CellText,
    requires well { R.is_well_formed records.old }
    requires even { IsEven (R.grid records.old) }
    requires rows { shape.0 ≡ (R.grid records.old).rows }
    requires columns { shape.1 ≡ (R.grid records.old).columns }
    ensures { R.is_well_formed records.new }
{
    let (rows, columns) = shape;
    match change {
        Change::PushRow => records.push_row(alloc),
        Change::PushColumn => records.push_column(alloc),
        Change::InsertRow(i) => records.insert_row(alloc, i.min(rows)),
        Change::InsertColumn(j) => records.insert_column(alloc, j.min(columns)),
        _ if rows == 0 || columns == 0 => Ok(()),
        Change::Set(i, j) => {
            let text = format!(in alloc; "{i}{j}")?;
            records.set(alloc, Position::new(i % rows, j % columns), text)
        }
        _ => {
            move_cells(records, shape, change);
            Ok(())
        }
    }
}

/// Makes a change that takes no memory to a store with a cell.
fn move_cells<R>(records: &mut R, shape: (usize, usize), change: Change)
where
    R: Resizable,
    R::Cell: Blank,
    requires well { R.is_well_formed records.old }
    requires row { 0 < shape.0 }
    requires column { 0 < shape.1 }
    requires rows { shape.0 ≡ (R.grid records.old).rows }
    requires columns { shape.1 ≡ (R.grid records.old).columns }
    ensures { R.is_well_formed records.new }
{
    let (rows, columns) = shape;
    match change {
        Change::RemoveRow(i) => records.remove_row(i % rows),
        Change::RemoveColumn(j) => records.remove_column(j % columns),
        Change::SwapRow(i, k) => records.swap_row(i % rows, k % rows),
        Change::SwapColumn(j, l) => records.swap_column(j % columns, l % columns),
        Change::Swap((i, j), (k, l)) => records.swap(
            Position::new(i % rows, j % columns),
            Position::new(k % rows, l % columns),
        ),
        _ => {}
    }
}

/// Changes a store that is lent, through its `&mut`.
pub fn change_lent<R>(alloc: Global, mut records: &mut R) -> Result<(), AllocError>
where
    R: Resizable + ExactRecords + RecordsMut<String>,
    R::Cell: CellText,
    requires { R.is_well_formed records.old }
    ensures rows { OnOk result ((R.grid records.new).rows ≡ (R.grid records.old).rows + 1) }
    ensures err { OnErr result (R.grid records.new ≡ R.grid records.old) }
{
    records.push_row(alloc)
}

/// Inserts a row and removes it again, also where it is the first.
pub fn push_and_remove_row<R>(alloc: Global, records: &mut R) -> Result<(), AllocError>
where
    R: Resizable + ExactRecords,
    R::Cell: Blank,
    requires { R.is_well_formed records.old }
    ensures { R.grid records.new ≡ R.grid records.old }
{
    let rows = records.count_rows();
    records.push_row(alloc)?;
    records.remove_row(rows);
    Ok(())
}

/// Inserts a row, or a column, before all others and removes it again.
pub fn insert_and_remove_line<R>(
    alloc: Global,
    records: &mut R,
    axis: Axis,
) -> Result<(), AllocError>
where
    R: Resizable + Records + ExactRecords,
    R::Cell: Blank,
    requires { R.is_well_formed records.old }
    ensures { R.is_well_formed records.new }
{
    records.insert_line(alloc, axis, 0)?;
    if axis.count(records) > 0 {
        records.remove_line(axis, 0);
    }
    Ok(())
}

/// The shape of any store: no columns without rows.
pub fn shape<R>(records: &mut R) -> (usize, usize)
where
    R: Resizable + Records + ExactRecords,
    R::Cell: Blank,
    requires { R.is_well_formed records.old }
    ensures rows { result.0 ≡ (R.grid records.old).rows }
    ensures columns { result.1 ≡ (R.grid records.old).columns }
    ensures kept { R.grid records.new ≡ R.grid records.old }
    ensures rowless { IsEmptyWithoutRows (R.grid records.old) }
{
    (records.count_rows(), records.count_columns())
}

/// The same of a `VecRecords`, whose value says so.
pub fn columns_of<T>(records: &VecRecords<T>) -> usize
    ensures { IsEmptyWithoutRows records.now.grid }
{
    records.count_columns()
}
