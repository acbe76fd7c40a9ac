//! Objects without their first entities.

ghost use Rattle.std.specs.Prelude.{◌≡◌, List, drop};
ghost use Rattle.tabled_grid.specs.declared.config.entity.Entity.{Entity};

use crate::object::Object;
use std::alloc::{AllocError, Global};
use std::iter;
use std::marker::{Model, PhantomData};
use tabled_grid::records::GridStore;

/// An object without its first entities. A contract sees it as the object and their number.
///
/// Ported from `tabled::settings::object::SkipObject`.
#[derive(Clone, Copy, Drop)]
pub struct SkipObject<O, R> {
    pub(super) object: O,
    pub(super) n: usize,
    pub(super) records: PhantomData<R>,
}

impl<O, R> Model for SkipObject<O, R> {
    ghost use Rattle.std.specs.Prelude.{ℕ};

    ghost Value = { O × ℕ };

    ghost view = { λ a. (a.object, a.n) };

    ghost inverse = { λ v. record { object = v.0; n = v.1; records = record {} } };
}

impl<O: Object<R>, R: GridStore> Object<R> for SkipObject<O, R> {
    type Iter = SkipObjectIter<O::Iter>;

    ghost lists = { λ s g entities. (all : List Entity) × O.lists s.0 g all × (entities ≡ drop s.1 all) };

    ghost can_list = { λ s. O.can_list s.0 };

    fn cells(&self, alloc: Global, records: &R) -> Result<SkipObjectIter<O::Iter>, AllocError> {
        Ok(self.object.cells(alloc, records)?.skip(self.n))
    }
}

/// Gives what an iterator gives after its first entities.
///
/// Ported from `tabled::settings::object::SkipObjectIter`.
pub type SkipObjectIter<I> = iter::Skip<I>;
