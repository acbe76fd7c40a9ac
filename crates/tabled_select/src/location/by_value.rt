//! One cell, by comparing texts.

ghost use Rattle.std.specs.Prelude.{◌≡◌, List, option_to_list};
ghost use Rattle.std.specs.Fn.{FnReturnsAtPair};
ghost use Rattle.tabled_grid.specs.Grid.{map_grid};
ghost use Rattle.tabled_grid.specs.declared.config.entity.Entity.{Entity};
ghost use Rattle.tabled_grid.specs.declared.config.position.Position.{Position};
ghost use Rattle.tabled_select.specs.Algebra.{cells_of};
ghost use Rattle.tabled_select.specs.Locators.{NamedHeldLast};

use crate::object::{EntityOnce, NamedPlaces, Object, entities};
use std::alloc::{AllocError, Global};
use std::marker::Model;
use tabled_grid::config::{Entity, Position};
use tabled_grid::records::{CellText, ExactRecords, PeekableRecords, Records};

/// One of the cells of an object, that is found by comparing texts. A contract sees it as the object and
/// the closure.
///
/// The first cell is held. Each later one takes its place if the closure says yes to its text and the
/// held text, in this order. The cell that is held last is the one.
///
/// Ported from `tabled::settings::location::ByValue`.
#[derive(Clone, Copy, Drop)]
pub struct ByValue<O, F> {
    search: O,
    takes: F,
}

impl<O, F> Model for ByValue<O, F> {
    ghost Value = { O × F };

    ghost view = { λ a. (a.search, a.takes) };

    ghost inverse = { λ v. record { search = v.0; takes = v.1 } };
}

impl<O, F> ByValue<O, F> {
    ghost use Rattle.std.specs.Prelude.{◌≡◌};

    /// The cell of an object that a closure leaves held.
    ///
    /// Ported from `tabled::settings::location::ByValue::new`.
    pub fn new(search: O, takes: F) -> Self
    where
        F: Fn(&str, &str) -> bool,
        ensures { result ≡ (search, takes) }
    {
        ByValue { search, takes }
    }
}

impl<O, F, R> Object<R> for ByValue<O, F>
where
    O: Object<R>,
    F: Fn(&str, &str) -> bool,
    R: Records + ExactRecords + PeekableRecords,
    R::Cell: CellText,
{
    type Iter = EntityOnce;

    ghost lists = { λ s g found. (all : List Entity) × (last : List Position) × O.lists s.0 g all × NamedHeldLast (FnReturnsAtPair F.Fn s.1) (map_grid R.Cell.text_of g) all last × (found ≡ cells_of last) };

    ghost can_list = { λ s. O.can_list s.0 × F.IsAlwaysCallable s.1 };

    fn cells(&self, alloc: Global, records: &R) -> Result<EntityOnce, AllocError> {
        let all = entities(alloc, &self.search, records)?;
        let held = held_last(records, all, &self.takes);
        Ok(EntityOnce::new(held.map(Entity::from)))
    }
}

/// The place that is held last, of those that entities name.
fn held_last<R, F>(records: &R, entities: Vec<Entity>, takes: &F) -> Option<Position>
where
    R: Records + ExactRecords + PeekableRecords,
    R::Cell: CellText,
    F: Fn(&str, &str) -> bool,
    requires well { R.is_well_formed records.now }
    requires can { F.IsAlwaysCallable takes.now }
    ensures { NamedHeldLast (FnReturnsAtPair F.Fn takes.now) (map_grid R.Cell.text_of (R.grid records.now)) entities.items (option_to_list result) }
{
    let mut rest = NamedPlaces::new(entities, records.count_rows(), records.count_columns());
    let mut held = rest.next()?;
    for pos in rest {
        if takes(records.get_text(pos), records.get_text(held)) {
            held = pos;
        }
    }
    Some(held)
}
