//! A store of one vector of cells, row after row.

mod gather;
mod moves;
mod pieces;
mod resizable;
mod text;
mod turn;

ghost use Rattle.std.specs.Prelude.{◌≡◌, ◌<◌, Some, slice_get, IfOk};
ghost use Rattle.tabled_grid.specs.Flat.{IsFull};
ghost use Rattle.tabled_grid.specs.Grid.{IsEven, IsInside, cell_at, grid_of, map_items, with_cell};

use crate::config::Position;
use crate::records::cell_text::CellText;
use crate::records::exact_records::ExactRecords;
use crate::records::from_text::FromText;
use crate::records::grid_store::GridStore;
use crate::records::nested_rows::moves::width;
use crate::records::peekable_records::PeekableRecords;
use crate::records::records::Records;
use crate::records::records_mut::RecordsMut;
use moves::{join, split};
use std::alloc::{AllocError, Global};
use std::marker::Model;
pub use text::Text;

/// A store of rows of cells, all equally long, in one vector. A contract sees it as its grid, with what is
/// true of it.
///
/// More rows or cells than `usize::MAX` are a growth refused.
///
/// Ported from `tabled::grid::records::vec_records::VecRecords`.
#[derive(Drop)]
pub struct VecRecords<T> {
    cells: Vec<T>,
    rows: usize,
    columns: usize,
    ghost full: { IsFull rows columns cells.items },
}

impl<T> Model for VecRecords<T> {
    ghost use Rattle.tabled_grid.specs.Evenness.{EvenGrid, even_grid};

    ghost Value = { EvenGrid T };

    ghost view = { λ a. even_grid a.rows a.columns a.cells.items a.full };
}

impl<T: Drop> VecRecords<T> {
    /// Makes a store of rows (r x c, or 0 x 0 without rows), which have to be equally long. The cells
    /// move after one growth.
    ///
    /// Refused for memory, it drops the rows.
    ///
    /// Ported from `tabled::grid::records::vec_records::VecRecords::new`.
    pub fn new(alloc: Global, rows: Vec<Vec<T>>) -> Result<Self, AllocError>
        requires { IsEven (grid_of (map_items rows.items)) }
        ensures { IfOk result (λ store. store.grid ≡ grid_of (map_items rows.items)) }
    {
        let count = rows.len();
        let columns = width(&rows);
        let cells = join(alloc, rows, columns)?;
        Ok(VecRecords {
            cells,
            rows: count,
            columns,
        })
    }

    /// Takes the rows out.
    ///
    /// Refused for memory, it drops them.
    ///
    /// Ported from `impl From<VecRecords<T>> for Vec<Vec<T>>`.
    pub fn into_rows(self, alloc: Global) -> Result<Vec<Vec<T>>, AllocError>
        ensures { IfOk result (λ rows. map_items rows.items ≡ self.grid.cells) }
    {
        let VecRecords {
            cells,
            rows,
            columns,
        } = self;
        split(alloc, cells, rows, columns)
    }

    /// Replaces the cell at a place inside the shape.
    fn write(&mut self, pos: Position, cell: T)
        requires { IsInside self.old.grid pos }
        ensures { self.new.grid ≡ with_cell self.old.grid pos cell }
    {
        let place = pos.row * self.columns + pos.col;
        self.cells[place] = cell;
    }
}

impl<T> VecRecords<T> {
    /// The cell at a place inside the shape. It stands for `[row][col]`.
    pub fn get(&self, pos: Position) -> &T
        requires { IsInside self.now.grid pos }
        ensures { cell_at self.now.grid pos ≡ Some result.now }
    {
        let place = pos.row * self.columns + pos.col;
        &self.cells[place]
    }

    /// The cells of a row below the number of rows. It stands for `[row]`.
    pub fn row(&self, i: usize) -> &[T]
        requires { i < self.now.grid.rows }
        ensures { slice_get self.now.grid.cells i ≡ Some result.now }
    {
        let start = i * self.columns;
        &self.cells[start..start + self.columns]
    }
}

impl<T> GridStore for VecRecords<T> {
    ghost use Rattle.tabled_grid.specs.Evenness.{is_even_grid};

    type Cell = T;

    ghost grid = { λ store. store.grid };

    ghost is_well_formed = { λ _. Unit {0} };

    ghost even = { λ store _. is_even_grid store };
}

impl<T> Records for VecRecords<T> {
    fn count_columns(&self) -> usize {
        self.columns
    }

    fn hint_count_rows(&self) -> Option<usize> {
        Some(self.rows)
    }
}

impl<T> ExactRecords for VecRecords<T> {
    fn count_rows(&self) -> usize {
        self.rows
    }
}

impl<T: CellText> PeekableRecords for VecRecords<T> {
    fn get_text(&self, pos: Position) -> &str {
        self.get(pos).text()
    }
}

impl<T: FromText> RecordsMut<String> for VecRecords<T> {
    fn set(&mut self, alloc: Global, pos: Position, text: String) -> Result<(), AllocError> {
        self.write(pos, T::from_string(alloc, text)?);
        Ok(())
    }
}

impl<'a, T: FromText> RecordsMut<&'a str> for VecRecords<T> {
    fn set(&mut self, alloc: Global, pos: Position, text: &'a str) -> Result<(), AllocError> {
        self.write(pos, T::from_text(alloc, text)?);
        Ok(())
    }
}
