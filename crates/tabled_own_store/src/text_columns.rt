//! A store of columns of texts.

ghost use Rattle.std.specs.Prelude.{◌≡◌};
ghost use Rattle.tabled_grid.specs.Grid.{map_items};
ghost use Rattle.tabled_own_store.specs.Columns.{AreColumns, column_grid};

use crate::each_column::{blanks, insert_blanks, remove_each, swap_each};
use std::alloc::{AllocError, Global};
use std::marker::Model;
use std::mem;
use tabled_grid::config::Position;
use tabled_grid::records::{
    ExactRecords, GridStore, PeekableRecords, Records, RecordsMut, Resizable,
};

/// Columns of texts, each in a vector of its own. A contract sees them as their grid, with what is
/// true of it.
#[derive(Drop)]
pub struct TextColumns {
    columns: Vec<Vec<String>>,
    rows: usize,
    ghost shape: { AreColumns rows (map_items columns.items) },
}

impl Model for TextColumns {
    ghost use Rattle.std.specs.Global.{Global};
    ghost use Rattle.std.specs.Prelude.{String};
    ghost use Rattle.tabled_grid.specs.Evenness.{EvenGrid};
    ghost use Rattle.tabled_grid.specs.Grid.{map_items};
    ghost use Rattle.tabled_own_store.specs.Columns.{even_columns};

    ghost Value = { EvenGrid (String Global) };

    ghost view = { λ a. even_columns a.rows (map_items a.columns.items) a.shape };
}

impl TextColumns {
    /// A store of columns of r cells each (r x c).
    pub fn new(rows: usize, columns: Vec<Vec<String>>) -> Self
        requires { AreColumns rows (map_items columns.items) }
        ensures { result.grid ≡ column_grid rows (map_items columns.items) }
    {
        TextColumns { columns, rows }
    }
}

impl GridStore for TextColumns {
    ghost use Rattle.tabled_grid.specs.Evenness.{is_even_grid};

    type Cell = String;

    ghost grid = { λ store. store.grid };

    ghost is_well_formed = { λ _. Unit {0} };

    ghost even = { λ store _. is_even_grid store };
}

impl Records for TextColumns {
    fn count_columns(&self) -> usize {
        self.columns.len()
    }

    fn hint_count_rows(&self) -> Option<usize> {
        Some(self.rows)
    }
}

impl ExactRecords for TextColumns {
    fn count_rows(&self) -> usize {
        self.rows
    }
}

impl PeekableRecords for TextColumns {
    fn get_text(&self, pos: Position) -> &str {
        let column = &self.columns[pos.col];
        column[pos.row].as_str()
    }
}

impl RecordsMut<String> for TextColumns {
    fn set(&mut self, _alloc: Global, pos: Position, text: String) -> Result<(), AllocError> {
        let column = &mut self.columns[pos.col];
        column[pos.row] = text;
        Ok(())
    }
}

impl Resizable for TextColumns {
    fn push_row(&mut self, alloc: Global) -> Result<(), AllocError> {
        self.insert_row(alloc, self.count_rows())
    }

    fn push_column(&mut self, alloc: Global) -> Result<(), AllocError> {
        self.insert_column(alloc, self.count_columns())
    }

    fn insert_row(&mut self, alloc: Global, i: usize) -> Result<(), AllocError> {
        let Some(rows) = self.rows.checked_add(1) else {
            return Err(AllocError);
        };
        insert_blanks(alloc, &mut self.columns, i)?;
        self.rows = rows;
        Ok(())
    }

    fn insert_column(&mut self, alloc: Global, j: usize) -> Result<(), AllocError> {
        if self.rows == 0 {
            return Ok(());
        }
        let column = blanks(alloc, self.rows)?;
        self.columns.insert(j, column)?;
        Ok(())
    }

    fn remove_row(&mut self, i: usize) {
        remove_each(&mut self.columns, i);
        self.rows -= 1;
        if self.rows == 0 {
            self.columns.clear();
        }
    }

    fn remove_column(&mut self, j: usize) {
        let _column = self.columns.remove(j);
    }

    fn swap(&mut self, p: Position, q: Position) {
        if p.col == q.col {
            self.columns[p.col].swap(p.row, q.row);
            return;
        }
        // Two columns can't be borrowed at once, so one is taken out meanwhile.
        let none = Vec::new(*self.columns[p.col].allocator());
        let mut column = mem::replace(&mut self.columns[p.col], none);
        mem::swap(&mut column[p.row], &mut self.columns[q.col][q.row]);
        self.columns[p.col] = column;
    }

    fn swap_row(&mut self, i: usize, k: usize) {
        swap_each(&mut self.columns, i, k);
    }

    fn swap_column(&mut self, j: usize, k: usize) {
        // A vector of vectors is a store, too, whose `swap` is of cells.
        self.columns.as_mut_slice().swap(j, k);
    }

    ghost rowless = { λ store _. store.rowless };
}
