//! The edge of a table.

ghost use Rattle.std.specs.Prelude.{◌≡◌};
ghost use Rattle.std.specs.Iterator.{YieldsFirst, item_count};
ghost use Rattle.tabled_select.specs.Algebra.{cells_of};
ghost use Rattle.tabled_select.specs.Selectors.{frame};
ghost use Rattle.tabled_select.specs.Walks.{frame_left};

use crate::object::Object;
use std::alloc::{AllocError, Global};
use std::marker::Model;
use tabled_grid::config::Entity;
use tabled_grid::records::{ExactRecords, Records};

/// The cells of the first and the last row and of the first and the last column, each once.
///
/// ```text
/// x x x x
/// x . . x
/// x x x x
/// ```
///
/// Ported from `tabled::settings::object::Frame`, which names all cells and not the edge that its
/// documentation promises.
#[derive(Clone, Copy, Debug, Default, PartialEq, Eq, PartialOrd, Ord, Hash)]
pub struct Frame;

impl<I: Records + ExactRecords> Object<I> for Frame {
    type Iter = FrameIter;

    ghost lists = { λ _ g entities. entities ≡ cells_of (frame g.rows g.columns) };

    fn cells(&self, _alloc: Global, records: &I) -> Result<FrameIter, AllocError> {
        Ok(FrameIter {
            rows: records.count_rows(),
            columns: records.count_columns(),
            row: 0,
            col: 0,
        })
    }
}

/// Goes over the cells on the edge of a table, row by row. A contract sees it as where it stands.
///
/// Each takes constant time: the inner cells of a row are jumped over.
///
/// Ported from `tabled::settings::object::FrameIter`.
#[derive(Clone, Copy, Drop)]
pub struct FrameIter {
    rows: usize,
    columns: usize,
    row: usize,
    col: usize,
}

impl Model for FrameIter {
    ghost use Rattle.tabled_select.specs.Walks.{FrameWalk, StandsOnEdge};

    ghost Value = { FrameWalk };

    ghost view = { λ a. record { rows = a.rows; columns = a.columns; row = a.row; col = a.col } };

    ghost invariant = { λ a. StandsOnEdge a.rows a.columns a.row a.col };

    ghost inverse = { λ s. record { rows = s.rows; columns = s.columns; row = s.row; col = s.col } };
}

impl Iterator for FrameIter {
    type Item = Entity;

    ghost next_gives = { YieldsFirst (λ s. cells_of (frame_left s)) };

    ghost remaining = { item_count (λ s. cells_of (frame_left s)) };

    fn next(&mut self) -> Option<Entity> {
        if self.row >= self.rows || self.columns == 0 {
            return None;
        }
        let cell = Entity::Cell(self.row, self.col);
        let last_col = self.columns - 1;
        if self.col == last_col {
            self.col = 0;
            self.row += 1;
        } else if self.row > 0 && self.row < self.rows - 1 {
            // Between the first and the last row only the ends of a row are on the edge.
            self.col = last_col;
        } else {
            self.col += 1;
        }
        Some(cell)
    }
}
