//! What names cells of a table: all of them, a column, a row or one cell.

ghost use Rattle.std.specs.Prelude.{◌≡◌, ◌↔◌, ◌+◌, ◌<◌, ◌≤◌, true};
ghost use Rattle.std.specs.Iterator.{YieldsFirst, item_count};
ghost use Rattle.tabled_grid.specs.Entity.{column_named, inside, lines_named, names, places_in, row_named};
ghost use Rattle.tabled_grid.specs.Rectangles.{In};
ghost use Rattle.tabled_grid.specs.declared.config.position.Position.{Position};

use crate::config::position::Position;
use crate::config::rectangle::Rectangle;
use crate::config::size::Size;
use std::marker::Model;

/// The cells of a table that are named together.
///
/// Ported from `tabled::grid::config::Entity`.
#[derive(Clone, Copy, Debug, PartialEq, Eq, PartialOrd, Ord, Hash)]
pub enum Entity {
    /// All cells.
    Global,
    /// The cells of a column.
    Column(usize),
    /// The cells of a row.
    Row(usize),
    /// The cell in a row and a column.
    Cell(usize, usize),
}

impl Entity {
    /// The cells of a table (`rows x columns`) that are named, as a rectangle. It has no cells where none is named.
    ///
    /// Of this project.
    pub fn block(self, rows: usize, columns: usize) -> Rectangle
        ensures cells { inside self rows columns ≡ places_in result }
        ensures named { (p : Position) → In result p ↔ ((names self p ≡ true) × (p.row < rows) × (p.col < columns)) }
        ensures bottom { result.first.row + result.size.height ≤ rows }
        ensures right { result.first.col + result.size.width ≤ columns }
    {
        let (row, col) = self.indexes();
        let (top, height) = lines_named(row, rows);
        let (left, width) = lines_named(col, columns);
        Rectangle {
            first: Position {
                row: top,
                col: left,
            },
            size: Size { height, width },
        }
    }

    /// The row and the column that are named, each if it is one alone.
    fn indexes(self) -> (Option<usize>, Option<usize>)
        ensures { result ≡ (row_named self, column_named self) }
    {
        match self {
            Entity::Global => (None, None),
            Entity::Column(col) => (None, Some(col)),
            Entity::Row(row) => (Some(row), None),
            Entity::Cell(row, col) => (Some(row), Some(col)),
        }
    }

    /// Goes over the named cells of a table of `count_rows x count_columns`, row by row. Those that
    /// it names outside the table are left out.
    ///
    /// Ported from `tabled::grid::config::Entity::iter`.
    pub fn iter(&self, count_rows: usize, count_columns: usize) -> EntityIterator
        ensures { result ≡ inside self.now count_rows count_columns }
    {
        EntityIterator::of(self.block(count_rows, count_columns))
    }
}

/// The first of `count` lines that are named by an index, or without one, and how many are.
fn lines_named(index: Option<usize>, count: usize) -> (usize, usize)
    ensures { result ≡ lines_named index count }
{
    match index {
        None => (0, count),
        Some(line) if line < count => (line, 1),
        Some(_) => (count, 0),
    }
}

impl From<Position> for Entity {
    ghost use Rattle.tabled_grid.specs.declared.config.entity.Entity.TheVariants.{Cell};

    ghost from_gives = { λ pos entity. entity ≡ Cell pos.row pos.col };

    fn from(pos: Position) -> Self {
        Entity::Cell(pos.row, pos.col)
    }
}

impl From<(usize, usize)> for Entity {
    ghost use Rattle.tabled_grid.specs.declared.config.entity.Entity.TheVariants.{Cell};

    ghost from_gives = { λ pair entity. entity ≡ Cell pair.0 pair.1 };

    fn from(pair: (usize, usize)) -> Self {
        Entity::Cell(pair.0, pair.1)
    }
}

/// Goes over places, row by row. A contract sees it as the list of the places that are left.
///
/// Ported from `tabled::grid::config::EntityIterator`.
#[derive(Debug, Drop)]
pub struct EntityIterator {
    row: usize,
    end_row: usize,
    col: usize,
    first_col: usize,
    end_col: usize,
}

impl Model for EntityIterator {
    ghost use Rattle.std.specs.Prelude.{◌-◌, ◌<◌, ◌≤◌, List, drop};
    ghost use Rattle.tabled_grid.specs.declared.config.position.Position.{Position};

    ghost Value = { List Position };

    ghost use Rattle.tabled_grid.specs.Entity.{block};

    ghost view = { λ a. drop (a.col - a.first_col) (block a.row a.end_row a.first_col a.end_col) };

    ghost invariant = { λ a. a.row < a.end_row → (a.first_col ≤ a.col) × (a.col < a.end_col) };
}

impl EntityIterator {
    ghost use Rattle.std.specs.Prelude.{◌≡◌, ◌+◌, ◌<◌, ◌^◌};
    ghost use Rattle.tabled_grid.specs.Entity.{places_in};

    /// The places of a block.
    fn of(block: Rectangle) -> Self
        requires bottom { block.first.row + block.size.height < 2 ^ 64 }
        requires right { block.first.col + block.size.width < 2 ^ 64 }
        ensures { result ≡ places_in block }
    {
        let Rectangle { first, size } = block;
        // A block without columns has no row to begin with.
        let height = if size.width > 0 { size.height } else { 0 };
        EntityIterator {
            row: first.row,
            end_row: first.row + height,
            col: first.col,
            first_col: first.col,
            end_col: first.col + size.width,
        }
    }
}

impl Iterator for EntityIterator {
    type Item = Position;

    ghost next_gives = { YieldsFirst (λ s. s) };

    ghost remaining = { item_count (λ s. s) };

    fn next(&mut self) -> Option<Position> {
        if self.row >= self.end_row {
            return None;
        }
        let pos = Position::new(self.row, self.col);
        self.col += 1;
        if self.col == self.end_col {
            self.col = self.first_col;
            self.row += 1;
        }
        Some(pos)
    }
}
