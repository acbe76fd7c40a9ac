//! A store of one's own: one row of texts.

use std::alloc::{AllocError, Global};
use tabled_grid::config::Position;
use tabled_grid::records::{
    CellText, ExactRecords, GridStore, PeekableRecords, Records, RecordsMut, Text,
};

/// One row of texts (`1 x c`).
#[derive(Drop)]
pub struct Line {
    pub cells: Vec<Text<String>>,
}

impl GridStore for Line {
    ghost use Rattle.std.specs.Prelude.{[], ◌∷◌, refl};
    ghost use Rattle.tabled_grid.specs.Grid.{grid_of};

    type Cell = Text<String>;

    ghost grid = { λ line. grid_of (line.cells.items ∷ []) };

    ghost is_well_formed = { λ line. Unit {0} };

    ghost even = { λ _ _. record { tall = refl; wide = (refl, tt) } };
}

impl Records for Line {
    fn count_columns(&self) -> usize {
        self.cells.len()
    }

    fn hint_count_rows(&self) -> Option<usize> {
        Some(1)
    }
}

impl ExactRecords for Line {
    fn count_rows(&self) -> usize {
        1
    }
}

impl PeekableRecords for Line {
    fn get_text(&self, pos: Position) -> &str {
        self.cells[pos.col].text()
    }
}

impl RecordsMut<String> for Line {
    fn set(&mut self, _alloc: Global, pos: Position, text: String) -> Result<(), AllocError> {
        self.cells[pos.col] = Text::new(text);
        Ok(())
    }
}
