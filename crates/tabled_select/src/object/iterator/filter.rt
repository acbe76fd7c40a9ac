//! Objects that keep the entities that a closure picks.

ghost use Rattle.std.specs.Prelude.{◌≡◌, List};
ghost use Rattle.std.specs.Fn.{FnReturns};
ghost use Rattle.tabled_grid.specs.declared.config.entity.Entity.{Entity};
ghost use Rattle.tabled_select.specs.Steps.{Filters};

use crate::object::{Object, entities};
use std::alloc::{AllocError, Global};
use std::marker::{Model, PhantomData};
use std::vec;
use tabled_grid::config::Entity;
use tabled_grid::records::GridStore;

/// The entities of an object to which a closure says yes. A contract sees it as both.
///
/// The closure is asked once for each entity, in order, while the entities are listed.
///
/// Ported from `tabled::settings::object::FilterObject`.
#[derive(Clone, Copy, Drop)]
pub struct FilterObject<O, F, R> {
    pub(super) object: O,
    pub(super) predicate: F,
    pub(super) records: PhantomData<R>,
}

impl<O, F, R> Model for FilterObject<O, F, R> {
    ghost Value = { O × F };

    ghost view = { λ a. (a.object, a.predicate) };

    ghost inverse = { λ v. record { object = v.0; predicate = v.1; records = record {} } };
}

impl<O, F, R> Object<R> for FilterObject<O, F, R>
where
    O: Object<R>,
    F: Fn(Entity) -> bool,
    R: GridStore,
{
    type Iter = FilterObjectIter;

    ghost lists = { λ s g entities. (all : List Entity) × O.lists s.0 g all × Filters (λ e b. FnReturns F.Fn s.1 (e, tt) b) all entities };

    ghost can_list = { λ s. O.can_list s.0 × F.IsAlwaysCallable s.1 };

    fn cells(&self, alloc: Global, records: &R) -> Result<FilterObjectIter, AllocError> {
        let mut all = entities(alloc, &self.object, records)?;
        keep(&mut all, &self.predicate);
        Ok(all.into_iter())
    }
}

/// Keeps the entities to which a closure says yes, asking it once for each, in order.
fn keep<F: Fn(Entity) -> bool>(entities: &mut Vec<Entity>, predicate: &F)
    requires { F.IsAlwaysCallable predicate.now }
    ensures { Filters (λ e b. FnReturns F.Fn predicate.now (e, tt) b) entities.old.items entities.new.items }
{
    entities.retain(|entity| predicate(*entity));
}

/// Gives the entities to which a closure said yes.
///
/// Ported from `tabled::settings::object::FilterObjectIter`.
pub type FilterObjectIter = vec::IntoIter<Entity>;
