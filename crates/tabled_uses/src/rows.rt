//! Rows of cells: lent, limited, skipped, read ahead, and made as they are asked for.

use crate::spelling::Spelling;
use crate::stores::cell;
use std::alloc::{AllocError, Global};
use tabled_grid::records::{CellText, ExactRecords, Records, Text, VecRecords};
use tabled_rows::records::{
    BufRecords, EitherString, EmptyRecords, IntoRecords, IterRows, LimitColumns, LimitRows,
    SkipRows,
};

/// A row of three cells.
fn row(
    alloc: Global,
    first: &str,
    second: &str,
    third: &str,
) -> Result<Vec<Text<String>>, AllocError> {
    Ok(vec![in alloc;
        cell(alloc, first)?,
        cell(alloc, second)?,
        cell(alloc, third)?,
    ]?)
}

/// The rows `a b c / d e f / g h i`.
pub fn three_rows(alloc: Global) -> Result<Vec<Vec<Text<String>>>, AllocError> {
    let first = row(alloc, "a", "b", "c")?;
    let second = row(alloc, "d", "e", "f")?;
    let third = row(alloc, "g", "h", "i")?;
    Ok(vec![in alloc; first, second, third]?)
}

/// Of the three rows the cells up to `columns`, of these the rows up to `rows`, and of these the ones
/// after the first `skip`.
pub fn limited(
    alloc: Global,
    rows: usize,
    columns: usize,
    skip: usize,
) -> Result<String, AllocError> {
    let source = LimitRows::new(LimitColumns::new(three_rows(alloc)?, columns), rows);
    let mut spelling = Spelling::new(alloc);
    for row in SkipRows::new(source, skip).iter_rows() {
        for cell in row {
            spelling.push_cell(cell.text());
        }
        spelling.push("|");
    }
    spelling.end()
}

/// Of the three rows those after the first `skip`, and of these the ones up to `rows`.
pub fn skipped(alloc: Global, skip: usize, rows: usize) -> Result<String, AllocError> {
    let source = IterRows::new(three_rows(alloc)?);
    let mut spelling = Spelling::new(alloc);
    for row in LimitRows::new(SkipRows::new(source, skip), rows).iter_rows() {
        for cell in row {
            spelling.push_cell(cell.text());
        }
        spelling.push("|");
    }
    spelling.end()
}

/// How many of the three rows are read ahead, and all that are given.
pub fn read_ahead(alloc: Global, rows: usize) -> Result<(usize, String), AllocError> {
    let ahead = BufRecords::new(alloc, three_rows(alloc)?, rows)?;
    let count = ahead.as_slice().len();
    let mut spelling = Spelling::new(alloc);
    for row in ahead.iter_rows() {
        for cell in row {
            spelling.push_cell(cell.text());
        }
        spelling.push("|");
    }
    Ok((count, spelling.end()?))
}

/// How many lines of a text are read ahead, and the words of all lines.
///
/// A line is found, and its words are lent, only when they are asked for.
pub fn lines_ahead(alloc: Global, text: &str, rows: usize) -> Result<(usize, String), AllocError> {
    let words = IterRows::new(text.lines().map(|line: &str| line.split_whitespace()));
    let ahead = BufRecords::new(alloc, words, rows)?;
    let count = ahead.as_slice().len();
    let mut spelling = Spelling::new(alloc);
    for row in ahead.iter_rows() {
        for word in row {
            spelling.push_cell(word);
        }
        spelling.push("|");
    }
    Ok((count, spelling.end()?))
}

/// The rows of a lent store.
pub fn lent(alloc: Global, store: &VecRecords<Text<String>>) -> Result<String, AllocError> {
    let mut spelling = Spelling::new(alloc);
    for row in store.iter_rows() {
        for cell in row {
            spelling.push_cell(cell.text());
        }
        spelling.push("|");
    }
    spelling.end()
}

/// The words of a text's lines, of which the first `skip` are passed over and no more than `limit` are given.
///
/// A line is found, and its words are lent, only when they are asked for.
pub fn lines(alloc: Global, text: &str, skip: usize, limit: usize) -> Result<String, AllocError> {
    let words = IterRows::new(text.lines().map(|line: &str| line.split_whitespace()));
    let mut spelling = Spelling::new(alloc);
    for row in LimitRows::new(SkipRows::new(words, skip), limit).iter_rows() {
        for word in row {
            spelling.push_cell(word);
        }
        spelling.push("|");
    }
    spelling.end()
}

/// The shape of empty records, and their rows.
pub fn empty(alloc: Global, records: EmptyRecords) -> Result<String, AllocError> {
    let rows = records.count_rows();
    let columns = records.count_columns();
    let shape = format!(in alloc; "{rows} x {columns}: ")?;
    let mut spelling = Spelling::new(alloc);
    spelling.push(shape.as_str());
    for row in records.iter_rows() {
        for cell in row {
            spelling.push_cell(cell);
        }
        spelling.push("|");
    }
    spelling.end()
}
