//! Calls of the two stores of rows.
//!
//! The cells are blank texts, which take no memory of their own.

use crate::watch::Watch;
use std::alloc::{AllocError, Global};
use std::mem;
use tabled_grid::records::{Blank, ExactRecords, Records, Resizable};

/// How often each change is made and undone.
const TIMES: usize = 20;

/// What is called.
#[derive(Clone, Copy)]
pub(crate) enum Call {
    /// One row becomes as many rows as columns, row by row.
    Growth,
    /// A store is changed many times.
    Change(Change),
}

/// What is changed.
#[derive(Clone, Copy)]
pub(crate) enum Change {
    /// A row or column is inserted in the middle and removed again.
    MiddleRow,
    MiddleColumn,
    /// The first row or column is swapped with the last.
    Rows,
    Columns,
}

/// Does a call on a store of `size x size` blanks, made of an empty store, and counts its rows.
pub(crate) fn run<R>(
    alloc: Global,
    mut records: R,
    size: usize,
    call: Call,
    watch: &mut Watch,
) -> Result<usize, AllocError>
where
    R: Resizable + Records + ExactRecords + Drop,
    R::Cell: Blank,
    requires { R.is_well_formed records }
{
    records.push_row(alloc)?;
    records.push_columns(alloc, size)?;
    watch.start();
    push_other_rows(alloc, &mut records, size)?;
    if let Call::Change(change) = call {
        // A change alone is timed.
        watch.start();
        change_often(alloc, &mut records, change)?;
    }
    watch.stop();
    let rows = records.count_rows();
    mem::forget(records);
    Ok(rows)
}

/// Grows a store of one row, row by row.
fn push_other_rows<R>(alloc: Global, records: &mut R, rows: usize) -> Result<(), AllocError>
where
    R: Resizable,
    R::Cell: Blank,
    requires { R.is_well_formed records.old }
    ensures { R.is_well_formed records.new }
{
    for _ in 1..rows {
        records.push_row(alloc)?;
    }
    Ok(())
}

fn change_often<R>(alloc: Global, records: &mut R, change: Change) -> Result<(), AllocError>
where
    R: Resizable + Records + ExactRecords,
    R::Cell: Blank,
    requires { R.is_well_formed records.old }
    ensures { R.is_well_formed records.new }
{
    for _ in 0..TIMES {
        change_once(alloc, records, change)?;
    }
    Ok(())
}

fn change_once<R>(alloc: Global, records: &mut R, change: Change) -> Result<(), AllocError>
where
    R: Resizable + Records + ExactRecords,
    R::Cell: Blank,
    requires { R.is_well_formed records.old }
    ensures { R.is_well_formed records.new }
{
    let (rows, columns) = (records.count_rows(), records.count_columns());
    if rows == 0 || columns == 0 {
        return Ok(());
    }
    match change {
        Change::MiddleRow => {
            records.insert_row(alloc, rows / 2)?;
            records.remove_row(rows / 2);
        }
        Change::MiddleColumn => {
            records.insert_column(alloc, columns / 2)?;
            records.remove_column(columns / 2);
        }
        Change::Rows => records.swap_row(0, rows - 1),
        Change::Columns => records.swap_column(0, columns - 1),
    }
    Ok(())
}
