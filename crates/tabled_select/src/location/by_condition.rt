//! Cells by what a closure says of their text.

ghost use Rattle.std.specs.Prelude.{◌≡◌, List};
ghost use Rattle.std.specs.Fn.{FnReturnsAt};
ghost use Rattle.tabled_grid.specs.Grid.{map_grid};
ghost use Rattle.tabled_grid.specs.declared.config.position.Position.{Position};
ghost use Rattle.tabled_select.specs.Algebra.{cells_of};
ghost use Rattle.tabled_select.specs.Locators.{PicksPlaces};

use crate::location::Location;
use crate::location::search::{Cells, Places, search};
use crate::object::Object;
use std::alloc::{AllocError, Global};
use std::marker::Model;
use std::vec;
use tabled_grid::config::{Entity, Position};
use tabled_grid::records::{CellText, ExactRecords, PeekableRecords, Records};

/// The cells to whose texts a closure says yes, row by row. A contract sees them as the closure.
///
/// The closure is asked once for each cell of the table, in order.
///
/// Ported from `tabled::settings::location::ByCondition`.
#[derive(Clone, Copy, Drop)]
pub struct ByCondition<F> {
    says: F,
}

impl<F> Model for ByCondition<F> {
    ghost Value = { F };

    ghost view = { λ a. a.says };

    ghost inverse = { λ says. record { says = says } };
}

impl<F> ByCondition<F> {
    ghost use Rattle.std.specs.Prelude.{◌≡◌};

    /// The cells to whose texts a closure says yes.
    ///
    /// Ported from `tabled::settings::location::ByCondition::new`.
    pub fn new(says: F) -> Self
    where
        F: Fn(&str) -> bool,
        ensures { result ≡ says }
    {
        ByCondition { says }
    }
}

impl<F, R> Location<R> for ByCondition<F>
where
    F: Fn(&str) -> bool,
    R: Records + ExactRecords + PeekableRecords,
    R::Cell: CellText,
{
    type Coordinate = Position;

    type IntoIter = Vec<Position>;

    ghost locates = { λ says g found. PicksPlaces (FnReturnsAt F.Fn says) (map_grid R.Cell.text_of g) found };

    ghost can_locate = { λ says. F.IsAlwaysCallable says };

    fn locate(&mut self, alloc: Global, records: &R) -> Result<Vec<Position>, AllocError> {
        search::<Places, R, F>(alloc, records, Entity::Global, &self.says)
    }
}

impl<F, R> Object<R> for ByCondition<F>
where
    F: Fn(&str) -> bool,
    R: Records + ExactRecords + PeekableRecords,
    R::Cell: CellText,
{
    type Iter = vec::IntoIter<Entity>;

    ghost lists = { λ says g entities. (found : List Position) × PicksPlaces (FnReturnsAt F.Fn says) (map_grid R.Cell.text_of g) found × (entities ≡ cells_of found) };

    ghost can_list = { λ says. F.IsAlwaysCallable says };

    fn cells(&self, alloc: Global, records: &R) -> Result<vec::IntoIter<Entity>, AllocError> {
        Ok(search::<Cells, R, F>(alloc, records, Entity::Global, &self.says)?.into_iter())
    }
}
