//! Calls of selectors.

use crate::watch::Watch;
use std::alloc::{AllocError, Global};
use tabled_grid::records::{Resizable, VecRecords};
use tabled_select::object::{Cell, Frame, Object, Rows, Segment};

/// A frame is listed so often, as it has few cells.
const FRAMES: usize = 1_000;

/// n combinations of two cells are listed.
const PAIRS: usize = 100_000;

/// A store of `size x size` blanks.
fn store(alloc: Global, size: usize) -> Result<VecRecords<usize>, AllocError> {
    let mut store = VecRecords::new(alloc, Vec::new(alloc))?;
    store.push_row(alloc)?;
    for _ in 0..size {
        store.push_column(alloc)?;
    }
    // A row that comes now has all its cells at once.
    for _ in 1..size {
        store.push_row(alloc)?;
    }
    Ok(store)
}

/// Counts the entities that an object names.
fn count<O: Object<VecRecords<usize>>>(
    alloc: Global,
    object: &O,
    store: &VecRecords<usize>,
) -> Result<usize, AllocError>
    requires can { O.can_list object.now }
{
    let mut count: usize = 0;
    for _ in object.cells(alloc, store)? {
        count = count.wrapping_add(1);
    }
    Ok(count)
}

pub(crate) fn frame(alloc: Global, size: usize, watch: &mut Watch) -> Result<usize, AllocError> {
    let store = store(alloc, size)?;
    watch.start();
    let mut total: usize = 0;
    for _ in 0..FRAMES {
        total = total.wrapping_add(count(alloc, &Frame, &store)?);
    }
    watch.stop();
    Ok(total)
}

pub(crate) fn not_frame(
    alloc: Global,
    size: usize,
    watch: &mut Watch,
) -> Result<usize, AllocError> {
    let store = store(alloc, size)?;
    watch.start();
    let total = count(alloc, &Segment::all().not(Frame), &store)?;
    watch.stop();
    Ok(total)
}

/// Counts the cells of two parts that share a third of the table.
pub(crate) fn and(alloc: Global, size: usize, watch: &mut Watch) -> Result<usize, AllocError> {
    let store = store(alloc, size)?;
    let third = size / 3;
    let upper = Rows::new(0..size - third);
    let lower = Rows::new(third..size);
    watch.start();
    let total = count(alloc, &upper.and(lower), &store)?;
    watch.stop();
    Ok(total)
}

/// Counts what combinations of two cells name, of which the table has at least the first.
pub(crate) fn pairs(alloc: Global, size: usize, watch: &mut Watch) -> Result<usize, AllocError> {
    let store = store(alloc, size)?;
    watch.start();
    let mut total: usize = 0;
    for i in 0..PAIRS {
        let first = Cell::new(0, i % 100);
        let second = Cell::new(i % 1_000, 0);
        let listed = match i % 3 {
            0 => count(alloc, &first.and(second), &store)?,
            1 => count(alloc, &first.not(second), &store)?,
            _ => count(alloc, &first.intersect(second), &store)?,
        };
        total = total.wrapping_add(listed);
    }
    watch.stop();
    Ok(total)
}
