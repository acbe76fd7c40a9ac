//! Rows of cells in vectors of their own, as a store.
//!
//! A store of this kind is well formed where its rows are equally long.

pub(super) mod moves;
mod resizable;
mod turn;

ghost use Rattle.std.specs.Prelude.{◌≡◌};
ghost use Rattle.tabled_grid.specs.Grid.{IsEven, IsInside, grid_of, map_items, with_cell};

use crate::config::Position;
use crate::records::cell_text::CellText;
use crate::records::exact_records::ExactRecords;
use crate::records::from_text::FromText;
use crate::records::grid_store::GridStore;
use crate::records::peekable_records::PeekableRecords;
use crate::records::records::Records;
use crate::records::records_mut::RecordsMut;
pub use moves::{remove_each, reserve_each, truncate_each, width};
use std::alloc::{AllocError, Global};
pub use turn::turn_rows;

impl<T> GridStore for Vec<Vec<T>> {
    ghost use Rattle.tabled_grid.specs.Grid.{IsEven, grid_of, map_items};

    type Cell = T;

    ghost grid = { λ rows. grid_of (map_items rows.items) };

    ghost is_well_formed = { λ rows. IsEven (grid_of (map_items rows.items)) };

    ghost even = { λ _ well. well };
}

impl<T> Records for Vec<Vec<T>> {
    /// The number of columns: that of cells of the first row, and none without rows.
    fn count_columns(&self) -> usize {
        width(self)
    }

    fn hint_count_rows(&self) -> Option<usize> {
        Some(self.len())
    }
}

impl<T> ExactRecords for Vec<Vec<T>> {
    fn count_rows(&self) -> usize {
        self.len()
    }
}

impl<T: CellText> PeekableRecords for Vec<Vec<T>> {
    fn get_text(&self, pos: Position) -> &str {
        let row = &self[pos.row];
        row[pos.col].text()
    }
}

impl<T: FromText> RecordsMut<String> for Vec<Vec<T>> {
    fn set(&mut self, alloc: Global, pos: Position, text: String) -> Result<(), AllocError> {
        write(self, pos, T::from_string(alloc, text)?);
        Ok(())
    }
}

impl<'a, T: FromText> RecordsMut<&'a str> for Vec<Vec<T>> {
    fn set(&mut self, alloc: Global, pos: Position, text: &'a str) -> Result<(), AllocError> {
        write(self, pos, T::from_text(alloc, text)?);
        Ok(())
    }
}

/// Replaces the cell at a place inside the shape.
fn write<T: Drop>(rows: &mut Vec<Vec<T>>, pos: Position, cell: T)
    requires even { IsEven (grid_of (map_items rows.old.items)) }
    requires inside { IsInside (grid_of (map_items rows.old.items)) pos }
    ensures { grid_of (map_items rows.new.items) ≡ with_cell (grid_of (map_items rows.old.items)) pos cell }
{
    let row = &mut rows[pos.row];
    row[pos.col] = cell;
}
