//! Calls of steps: options that are data, run on any store.

use std::alloc::{AllocError, Global};
use tabled_grid::config::{Offset, SpannedConfig};
use tabled_grid::records::{
    CellText, ExactRecords, PeekableRecords, Records, RecordsMut, Resizable,
};
use tabled_settings::line_names::{ColumnName, ColumnNames, RowName, RowNames};
use tabled_settings::merge::Merge;
use tabled_settings::rotate::Rotate;
use tabled_settings::sort::Sort;
use tabled_settings::span::Span;
use tabled_settings::split::Split;
use tabled_settings::text_test::TextTest;
use tabled_steps::{Select, Step, run};
use tabled_table::{Table, TextRef};

/// Spans cells of a table.
pub fn spans(alloc: Global, table: &mut Table) -> Result<(), AllocError> {
    use tabled_select::object::{Cell, Columns, Rows};

    table.modify(alloc, Cell::new(0, 0), Span::column(2))?;
    table.modify(alloc, Rows::last(), Span::column(-1))?;
    table.modify(alloc, Columns::first(), (Span::row(0), TextRef("all")))
}

/// Puts panels in, above, below, in the midst and at the side.
pub fn puts_panels_in(alloc: Global, table: &mut Table) -> Result<(), AllocError> {
    use tabled_settings::panel::Panel;

    table.with(alloc, Panel::header(String::from_str(alloc, "Report")?))?;
    table.with(alloc, Panel::footer(String::from_str(alloc, "end")?))?;
    let part = Panel::horizontal(1, String::from_str(alloc, "part")?);
    table.with(alloc, part)?;
    let side = Panel::vertical(0, String::from_str(alloc, "side")?);
    table.with(alloc, side.width(alloc, 2)?)
}

/// Merges cells of equal texts: in the first column, in the last row, and then in all.
pub fn merges(alloc: Global, table: &mut Table) -> Result<(), AllocError> {
    use tabled_select::object::{Columns, Rows};

    table.modify(alloc, Columns::first(), Merge::vertical())?;
    table.modify(alloc, Rows::last(), Merge::horizontal())?;
    table.with(alloc, Merge::vertical())?;
    table.with(alloc, Merge::horizontal())
}

/// A step that writes a text to the rows 1 to 8.
fn writing(alloc: Global) -> Result<Step, AllocError> {
    let rows = Box::new(alloc, Select::Rows(0, 9))?;
    Ok(Step::Set(Select::Skip(1, rows), String::from_str(alloc, "x")?))
}

/// Two steps that are one.
fn turning_and_cutting(alloc: Global) -> Result<Step, AllocError> {
    let turning = Box::new(alloc, Step::Rotate(Rotate::Left))?;
    let cutting = Box::new(alloc, Step::Split(Split::column(2)))?;
    Ok(Step::Both(turning, cutting))
}

/// The three steps.
fn three_steps(alloc: Global) -> Result<Vec<Step>, AllocError> {
    Ok(vec![in alloc;
        writing(alloc)?,
        turning_and_cutting(alloc)?,
        Step::MergeVertical(Merge::vertical()),
    ]?)
}

/// Runs three steps on any store, and says how many of them were done.
pub fn runs<R>(alloc: Global, records: &mut R, cfg: &mut SpannedConfig) -> Result<usize, AllocError>
where
    R: Records + ExactRecords + PeekableRecords + RecordsMut<String> + Resizable,
    R::Cell: CellText,
    requires { R.is_well_formed records.old }
    ensures { R.is_well_formed records.new }
{
    let steps = three_steps(alloc)?;
    let many = steps.len();
    match run(alloc, records, cfg, steps) {
        Ok(()) => Ok(many),
        Err((done, _)) => Ok(done),
    }
}

/// The first row, and those of a region.
fn rows_of_region(alloc: Global, region: &str) -> Result<RowNames, AllocError> {
    let title = String::from_str(alloc, "Region")?;
    let test = TextTest::Is(String::from_str(alloc, region)?);
    let names = [RowName::At(Offset::Start(0)), RowName::Where(title, test)];
    Ok(RowNames::new(Vec::from_array(alloc, names)?))
}

/// The column `Price`, and before it all others but the last.
fn priced_columns(alloc: Global) -> Result<ColumnNames, AllocError> {
    let price = String::from_str(alloc, "Price")?;
    let names = [
        ColumnName::Between(Offset::Start(0), Offset::End(1)),
        ColumnName::Text(price),
    ];
    Ok(ColumnNames::new(Vec::from_array(alloc, names)?))
}

/// Steps that keep the rows of a region and some columns, and sort the rows by the first of these.
pub fn keeping(alloc: Global, region: &str) -> Result<Vec<Step>, AllocError> {
    let rows = rows_of_region(alloc, region)?;
    let columns = priced_columns(alloc)?;
    Ok(vec![in alloc;
        Step::KeepRows(rows),
        Step::KeepColumns(columns),
        Step::Sort(Sort::rows(1).numbers()),
    ]?)
}

/// How many rows and columns of a store are named.
pub fn count_named<R>(
    alloc: Global,
    records: &R,
    rows: &RowNames,
    columns: &ColumnNames,
) -> Result<(usize, usize), AllocError>
where
    R: Records + ExactRecords + PeekableRecords,
    R::Cell: CellText,
    requires { R.is_well_formed records.now }
{
    let rows = rows.find(alloc, records)?;
    let columns = columns.find(alloc, records)?;
    Ok((rows.len(), columns.len()))
}

/// Says whether a step names nothing in a store, so that to do it is of no use.
pub fn is_idle<R>(alloc: Global, records: &R, step: &Step) -> Result<bool, AllocError>
where
    R: Records + ExactRecords + PeekableRecords,
    R::Cell: CellText,
    requires { R.is_well_formed records.now }
{
    step.names_nothing(alloc, records)
}
