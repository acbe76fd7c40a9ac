//! The cells that an object leaves out.

ghost use Rattle.std.specs.Prelude.{◌≡◌, List};
ghost use Rattle.tabled_grid.specs.declared.config.entity.Entity.{Entity};
ghost use Rattle.tabled_select.specs.Algebra.{others};

use crate::object::cell::EntityOnce;
use crate::object::sieve::SieveIter;
use crate::object::{Object, entities};
use std::alloc::{AllocError, Global};
use std::marker::{Model, PhantomData};
use tabled_grid::config::Entity;
use tabled_grid::records::{ExactRecords, Records};

/// The cells of the table that an object doesn't name, row by row. A contract sees it as the
/// object.
///
/// Listing is refused where memory runs out.
///
/// Ported from `tabled::settings::object::InversionCombination`.
#[derive(Copy, Drop)]
#[derive_where(Clone; O)]
pub struct InversionCombination<O, I> {
    pub(super) object: O,
    pub(super) records: PhantomData<I>,
}

impl<O, I> Model for InversionCombination<O, I> {
    ghost Value = { O };

    ghost view = { λ a. a.object };

    ghost inverse = { λ object. record { object = object; records = record {} } };
}

impl<O, I> Object<I> for InversionCombination<O, I>
where
    O: Object<I>,
    I: Records + ExactRecords,
{
    type Iter = InversionIter;

    ghost lists = { λ s g entities. (a : List Entity) × O.lists s g a × (entities ≡ others a g.rows g.columns) };

    ghost can_list = { λ s. O.can_list s };

    fn cells(&self, alloc: Global, records: &I) -> Result<InversionIter, AllocError> {
        let rows = records.count_rows();
        let columns = records.count_columns();
        let named = entities(alloc, &self.object, records)?;
        let all = vec![in alloc; Entity::Global]?;
        SieveIter::new(alloc, all, named, rows, columns, false)
    }
}

/// Gives the cells of an inversion. A contract sees it as the list of what is left.
///
/// Ported from `tabled::settings::object::InversionIter`.
pub type InversionIter = SieveIter<EntityOnce>;
