//! A store of one vector of cells that grows and shrinks.

use super::VecRecords;
use super::moves::{
    close_up, insert_blanks, push_blanks, remove_run, spread, swap_each, swap_runs,
};
use super::turn::turn;
use crate::config::Position;
use crate::records::axis::Axis;
use crate::records::blank::Blank;
use crate::records::exact_records::ExactRecords;
use crate::records::piece_order::PieceOrder;
use crate::records::pieces::cut_lines;
use crate::records::records::Records;
use crate::records::resizable::Resizable;
use std::alloc::{AllocError, Global};

impl<T: Blank> Resizable for VecRecords<T> {
    fn push_row(&mut self, alloc: Global) -> Result<(), AllocError> {
        self.insert_row(alloc, self.count_rows())
    }

    fn push_column(&mut self, alloc: Global) -> Result<(), AllocError> {
        self.insert_column(alloc, self.count_columns())
    }

    fn insert_row(&mut self, alloc: Global, i: usize) -> Result<(), AllocError> {
        let Some(rows) = self.rows.checked_add(1) else {
            return Err(AllocError);
        };
        insert_blanks(alloc, &mut self.cells, i * self.columns, self.columns)?;
        self.rows = rows;
        Ok(())
    }

    fn insert_column(&mut self, alloc: Global, j: usize) -> Result<(), AllocError> {
        if self.rows == 0 {
            return Ok(());
        }
        push_blanks(alloc, &mut self.cells, self.rows)?;
        spread(&mut self.cells, self.rows, self.columns, j, 1);
        self.columns += 1;
        Ok(())
    }

    fn remove_row(&mut self, i: usize) {
        remove_run(&mut self.cells, i * self.columns, self.columns);
        self.rows -= 1;
        if self.rows == 0 {
            self.columns = 0;
        }
    }

    fn remove_column(&mut self, j: usize) {
        close_up(&mut self.cells, self.rows, self.columns, j, 1);
        self.columns -= 1;
        self.cells.truncate(self.rows * self.columns);
    }

    fn swap(&mut self, p: Position, q: Position) {
        let first = p.row * self.columns + p.col;
        let second = q.row * self.columns + q.col;
        self.cells.swap(first, second);
    }

    fn swap_row(&mut self, i: usize, k: usize) {
        if i == k {
            return;
        }
        let first = i.min(k) * self.columns;
        let second = i.max(k) * self.columns;
        swap_runs(&mut self.cells, first, second, self.columns);
    }

    fn swap_column(&mut self, j: usize, k: usize) {
        swap_each(&mut self.cells, self.rows, self.columns, j, k);
    }

    fn truncate_rows(&mut self, count: usize) {
        self.cells.truncate(count * self.columns);
        self.rows = count;
        if count == 0 {
            self.columns = 0;
        }
    }

    fn push_rows(&mut self, alloc: Global, many: usize) -> Result<(), AllocError> {
        let Some(rows) = self.rows.checked_add(many) else {
            return Err(AllocError);
        };
        let Some(count) = self.columns.checked_mul(many) else {
            return Err(AllocError);
        };
        push_blanks(alloc, &mut self.cells, count)?;
        self.rows = rows;
        Ok(())
    }

    fn push_columns(&mut self, alloc: Global, many: usize) -> Result<(), AllocError> {
        if self.rows == 0 {
            return Ok(());
        }
        // Rows without cells, of which there may be very many, aren't gone through.
        if many == 0 {
            return Ok(());
        }
        let Some(columns) = self.columns.checked_add(many) else {
            return Err(AllocError);
        };
        let Some(count) = self.rows.checked_mul(many) else {
            return Err(AllocError);
        };
        push_blanks(alloc, &mut self.cells, count)?;
        spread(&mut self.cells, self.rows, self.columns, self.columns, many);
        self.columns = columns;
        Ok(())
    }

    fn truncate_columns(&mut self, count: usize) {
        // Rows without cells, of which there may be very many, aren't gone through.
        if count == self.columns {
            return;
        }
        close_up(
            &mut self.cells,
            self.rows,
            self.columns,
            count,
            self.columns - count,
        );
        self.columns = count;
        self.cells.truncate(self.rows * count);
    }

    fn transpose(&mut self, alloc: Global) -> Result<(), AllocError> {
        if self.columns == 0 {
            self.rows = 0;
            return Ok(());
        }
        turn(alloc, self)
    }

    fn cut(
        &mut self,
        alloc: Global,
        lines: Axis,
        order: PieceOrder,
        index: usize,
    ) -> Result<(), AllocError> {
        match (lines, order) {
            (Axis::Rows, PieceOrder::Zip) if self.columns % index == 0 => {
                self.divide_rows(index);
                Ok(())
            }
            _ => cut_lines(alloc, self, lines, order, index),
        }
    }

    ghost rowless = { λ store _. store.rowless };
}
