//! Rows in vectors of their own, that grow and shrink.

use super::moves::{
    blank_rows, blanks, insert_blanks, remove_each, swap_cells, swap_each, truncate_each,
    widen_each,
};
use super::turn::turn_rows;
use crate::config::Position;
use crate::records::axis::Axis;
use crate::records::blank::Blank;
use crate::records::exact_records::ExactRecords;
use crate::records::gather::Exchange;
use crate::records::piece_order::PieceOrder;
use crate::records::pieces::cut_lines;
use crate::records::records::Records;
use crate::records::resizable::Resizable;
use std::alloc::{AllocError, Global};
use std::mem;

impl<T: Blank> Exchange for Vec<Vec<T>> {
    fn of_blanks(alloc: Global, rows: usize, columns: usize) -> Result<Self, AllocError> {
        blank_rows(alloc, rows, columns)
    }

    fn exchange(&mut self, pos: Position, other: &mut Self, at: Position) {
        let row = &mut self[pos.row];
        let column = &mut other[at.row];
        mem::swap(&mut row[pos.col], &mut column[at.col]);
    }
}

impl<T: Blank> Resizable for Vec<Vec<T>> {
    ghost use Rattle.tabled_grid.specs.Evenness.{no_columns};
    ghost use Rattle.tabled_grid.specs.Grid.{map_items};

    fn push_row(&mut self, alloc: Global) -> Result<(), AllocError> {
        self.insert_row(alloc, self.count_rows())
    }

    fn push_column(&mut self, alloc: Global) -> Result<(), AllocError> {
        self.insert_column(alloc, self.count_columns())
    }

    fn insert_row(&mut self, alloc: Global, i: usize) -> Result<(), AllocError> {
        let row = blanks(alloc, self.count_columns())?;
        self.insert(i, row)?;
        Ok(())
    }

    fn insert_column(&mut self, alloc: Global, j: usize) -> Result<(), AllocError> {
        insert_blanks(alloc, self, j)?;
        Ok(())
    }

    fn remove_row(&mut self, i: usize) {
        let _row = self.remove(i);
    }

    fn remove_column(&mut self, j: usize) {
        remove_each(self, j);
    }

    fn swap(&mut self, p: Position, q: Position) {
        swap_cells(self, p, q);
    }

    fn swap_row(&mut self, i: usize, k: usize) {
        self.as_mut_slice().swap(i, k);
    }

    fn swap_column(&mut self, j: usize, k: usize) {
        swap_each(self, j, k);
    }

    fn truncate_rows(&mut self, count: usize) {
        self.truncate(count);
    }

    fn truncate_columns(&mut self, count: usize) {
        truncate_each(self, count);
    }

    fn push_rows(&mut self, alloc: Global, many: usize) -> Result<(), AllocError> {
        let mut added = blank_rows(alloc, many, self.count_columns())?;
        self.append(&mut added)?;
        Ok(())
    }

    fn push_columns(&mut self, alloc: Global, many: usize) -> Result<(), AllocError> {
        widen_each(alloc, self, many)?;
        Ok(())
    }

    fn transpose(&mut self, alloc: Global) -> Result<(), AllocError> {
        let columns = self.count_columns();
        if columns == 0 {
            self.clear();
            return Ok(());
        }
        turn_rows(alloc, self, columns)?;
        Ok(())
    }

    fn cut(
        &mut self,
        alloc: Global,
        lines: Axis,
        order: PieceOrder,
        index: usize,
    ) -> Result<(), AllocError> {
        cut_lines(alloc, self, lines, order, index)
    }

    ghost rowless = { λ rows _. no_columns (map_items rows.items) };
}
