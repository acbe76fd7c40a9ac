//! Cells exchanged between stores of one vector of cells.

use super::VecRecords;
use crate::config::Position;
use crate::records::blank::Blank;
use crate::records::gather::Exchange;
use crate::records::nested_rows::moves::blanks;
use std::alloc::{AllocError, Global};
use std::mem;

impl<T: Blank> Exchange for VecRecords<T> {
    fn of_blanks(alloc: Global, rows: usize, columns: usize) -> Result<Self, AllocError> {
        let Some(count) = rows.checked_mul(columns) else {
            return Err(AllocError);
        };
        Ok(VecRecords {
            cells: blanks(alloc, count)?,
            rows,
            columns,
        })
    }

    fn exchange(&mut self, pos: Position, other: &mut Self, at: Position) {
        let first = pos.row * self.columns + pos.col;
        let second = at.row * other.columns + at.col;
        mem::swap(&mut self.cells[first], &mut other.cells[second]);
    }
}
