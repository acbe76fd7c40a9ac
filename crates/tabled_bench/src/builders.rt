//! Calls of builders.
//!
//! What comes out is counted and then left to the end of the process, so that a run takes no time to free it.

use crate::watch::Watch;
use std::alloc::{AllocError, Global};
use std::mem;
use tabled_table::Table;
use tabled_table::builder::Builder;

const TEXT: &str = "abcdefgh";

/// The texts of each record that is pushed.
const RECORD_LENGTH: usize = 10;

/// A record of texts.
fn record_of(alloc: Global, count: usize) -> Result<Vec<String>, AllocError> {
    let mut texts = Vec::with_capacity(alloc, count)?;
    for _ in 0..count {
        texts.push(String::from_str(alloc, TEXT)?)?;
    }
    Ok(texts)
}

/// A record whose every second text is empty.
fn gapped_record(alloc: Global, count: usize) -> Result<Vec<String>, AllocError> {
    let mut texts = Vec::with_capacity(alloc, count)?;
    for i in 0..count {
        let text = if i % 2 == 0 { TEXT } else { "" };
        texts.push(String::from_str(alloc, text)?)?;
    }
    Ok(texts)
}

/// n records of one length.
fn records(alloc: Global, count: usize) -> Result<Vec<Vec<String>>, AllocError> {
    let mut records = Vec::with_capacity(alloc, count)?;
    for _ in 0..count {
        records.push(record_of(alloc, RECORD_LENGTH)?)?;
    }
    Ok(records)
}

/// n records, each a text longer than the one before.
fn widening(alloc: Global, count: usize) -> Result<Vec<Vec<String>>, AllocError> {
    let mut records = Vec::with_capacity(alloc, count)?;
    for i in 0..count {
        records.push(record_of(alloc, i + 1)?)?;
    }
    Ok(records)
}

/// A builder of `size x size` texts.
fn square(alloc: Global, size: usize) -> Result<Builder, AllocError> {
    let mut records = Vec::with_capacity(alloc, size)?;
    for _ in 0..size {
        records.push(record_of(alloc, size)?)?;
    }
    Builder::from_strings(alloc, records)
}

/// A builder of `size x size` texts whose every second column is empty.
fn gapped(alloc: Global, size: usize) -> Result<Builder, AllocError> {
    let mut records = Vec::with_capacity(alloc, size)?;
    for _ in 0..size {
        records.push(gapped_record(alloc, size)?)?;
    }
    Builder::from_strings(alloc, records)
}

/// Counts the columns of a builder.
fn count_columns(builder: Builder) -> usize {
    let count = builder.count_columns();
    mem::forget(builder);
    count
}

/// Counts the rows of a table.
fn count_rows(table: Table) -> usize {
    let count = table.count_rows();
    mem::forget(table);
    count
}

/// Pushes records, and counts the rows of the table.
fn count_pushed(
    alloc: Global,
    records: Vec<Vec<String>>,
    watch: &mut Watch,
) -> Result<usize, AllocError> {
    watch.start();
    let mut builder = Builder::new(alloc);
    for texts in records {
        builder.push_record(alloc, texts)?;
    }
    let table = builder.build(alloc)?;
    watch.stop();
    Ok(count_rows(table))
}

pub(crate) fn push(alloc: Global, count: usize, watch: &mut Watch) -> Result<usize, AllocError> {
    let records = records(alloc, count)?;
    count_pushed(alloc, records, watch)
}

pub(crate) fn widen(alloc: Global, count: usize, watch: &mut Watch) -> Result<usize, AllocError> {
    let records = widening(alloc, count)?;
    count_pushed(alloc, records, watch)
}

/// Counts the columns that a clean leaves.
pub(crate) fn clean(alloc: Global, size: usize, watch: &mut Watch) -> Result<usize, AllocError> {
    let mut builder = gapped(alloc, size)?;
    watch.start();
    builder.clean();
    watch.stop();
    Ok(count_columns(builder))
}

/// Counts the rows of a table that was turned.
pub(crate) fn transpose(
    alloc: Global,
    size: usize,
    watch: &mut Watch,
) -> Result<usize, AllocError> {
    let builder = square(alloc, size)?;
    watch.start();
    let index = builder.index(alloc)?.hide();
    let table = index.transpose(alloc)?.build(alloc)?;
    watch.stop();
    Ok(count_rows(table))
}
