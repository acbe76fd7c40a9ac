//! One cell.

ghost use Rattle.std.specs.Prelude.{◌≡◌, [], ◌∷◌};
ghost use Rattle.std.specs.Iterator.{YieldsFirst, item_count};
ghost use Rattle.tabled_select.specs.Algebra.{cells_of};

use crate::object::Object;
use std::alloc::{AllocError, Global};
use std::marker::Model;
use tabled_grid::config::{Entity, Position};
use tabled_grid::records::GridStore;

/// One cell, by its row and its column. A contract sees it as its place.
///
/// It is named in every table, also in one that doesn't reach so far. `Cell::new(0, 1)` is
///
/// ```text
/// . x .
/// . . .
/// ```
///
/// Ported from `tabled::settings::object::Cell`.
#[derive(Clone, Copy, Debug, Default, PartialEq, Eq, PartialOrd, Ord, Hash)]
pub struct Cell {
    row: usize,
    col: usize,
}

impl Model for Cell {
    ghost use Rattle.tabled_grid.specs.declared.config.position.Position.{Position};

    ghost Value = { Position };

    ghost view = { λ a. record { row = a.row; col = a.col } };

    ghost inverse = { λ pos. record { row = pos.row; col = pos.col } };
}

impl Cell {
    ghost use Rattle.std.specs.Prelude.{◌≡◌};

    /// The cell in a row and a column.
    ///
    /// Ported from `tabled::settings::object::Cell::new`.
    pub fn new(row: usize, col: usize) -> Self
        ensures row { result.row ≡ row }
        ensures col { result.col ≡ col }
    {
        Cell { row, col }
    }
}

impl From<Position> for Cell {
    ghost from_gives = { λ pos cell. cell ≡ pos };

    fn from(pos: Position) -> Self {
        Cell::new(pos.row, pos.col)
    }
}

impl From<(usize, usize)> for Cell {
    ghost from_gives = { λ pair cell. cell ≡ record { row = pair.0; col = pair.1 } };

    fn from(pair: (usize, usize)) -> Self {
        Cell::new(pair.0, pair.1)
    }
}

impl From<Cell> for Position {
    ghost from_gives = { λ cell pos. pos ≡ cell };

    fn from(cell: Cell) -> Self {
        Position::new(cell.row, cell.col)
    }
}

impl<R: GridStore> Object<R> for Cell {
    type Iter = EntityOnce;

    ghost lists = { λ cell _ entities. entities ≡ cells_of (cell ∷ []) };

    fn cells(&self, _alloc: Global, _records: &R) -> Result<EntityOnce, AllocError> {
        Ok(EntityOnce::new(Some(Entity::Cell(self.row, self.col))))
    }
}

/// The cell at the place, as `Cell`.
impl<R: GridStore> Object<R> for Position {
    type Iter = EntityOnce;

    ghost lists = { λ pos _ entities. entities ≡ cells_of (pos ∷ []) };

    fn cells(&self, _alloc: Global, _records: &R) -> Result<EntityOnce, AllocError> {
        Ok(EntityOnce::new(Some(Entity::from(*self))))
    }
}

/// The cell in a row and a column, as `Cell`.
impl<R: GridStore> Object<R> for (usize, usize) {
    type Iter = EntityOnce;

    ghost lists = { λ pair _ entities. entities ≡ cells_of (record { row = pair.0; col = pair.1 } ∷ []) };

    fn cells(&self, _alloc: Global, _records: &R) -> Result<EntityOnce, AllocError> {
        Ok(EntityOnce::new(Some(Entity::from(*self))))
    }
}

/// Gives one entity, or none. A contract sees it as what is left.
///
/// Ported from `tabled::settings::object::EntityOnce`.
#[derive(Clone, Copy, Drop)]
pub struct EntityOnce {
    entity: Option<Entity>,
}

impl Model for EntityOnce {
    ghost use Rattle.std.specs.Prelude.{Option};
    ghost use Rattle.tabled_grid.specs.declared.config.entity.Entity.{Entity};

    ghost Value = { Option Entity };

    ghost view = { λ a. a.entity };

    ghost inverse = { λ v. record { entity = v } };
}

impl EntityOnce {
    ghost use Rattle.std.specs.Prelude.{◌≡◌};

    pub(crate) fn new(entity: Option<Entity>) -> Self
        ensures { result ≡ entity }
    {
        EntityOnce { entity }
    }
}

impl Iterator for EntityOnce {
    type Item = Entity;

    ghost use Rattle.std.specs.Option.{option_to_list};

    ghost next_gives = { YieldsFirst (λ s. option_to_list s) };

    ghost remaining = { item_count (λ s. option_to_list s) };

    fn next(&mut self) -> Option<Entity> {
        self.entity.take()
    }
}
