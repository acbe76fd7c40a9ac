//! Objects that keep entities at even distances.

ghost use Rattle.std.specs.Prelude.{◌≡◌, List};
ghost use Rattle.tabled_grid.specs.declared.config.entity.Entity.{Entity};
ghost use Rattle.tabled_select.specs.Steps.{every};

use crate::object::Object;
use std::alloc::{AllocError, Global};
use std::marker::{Model, PhantomData};
use std::mem;
use tabled_grid::records::GridStore;

/// The entities 0, n, 2n and so on of an object, and none where n is 0. A contract sees it as the
/// object and n.
///
/// Ported from `tabled::settings::object::StepByObject`.
#[derive(Clone, Copy, Drop)]
pub struct StepByObject<O, R> {
    pub(super) object: O,
    pub(super) n: usize,
    pub(super) records: PhantomData<R>,
}

impl<O, R> Model for StepByObject<O, R> {
    ghost use Rattle.std.specs.Prelude.{ℕ};

    ghost Value = { O × ℕ };

    ghost view = { λ a. (a.object, a.n) };

    ghost inverse = { λ v. record { object = v.0; n = v.1; records = record {} } };
}

impl<O: Object<R>, R: GridStore> Object<R> for StepByObject<O, R> {
    type Iter = StepByObjectIter<O::Iter>;

    ghost lists = { λ s g entities. (all : List Entity) × O.lists s.0 g all × (entities ≡ every s.1 all) };

    ghost can_list = { λ s. O.can_list s.0 };

    fn cells(&self, alloc: Global, records: &R) -> Result<StepByObjectIter<O::Iter>, AllocError> {
        let all = self.object.cells(alloc, records)?;
        match self.n.checked_sub(1) {
            Some(gap) => Ok(StepByObjectIter {
                entities: Some(all),
                ahead: 0,
                gap,
            }),
            None => Ok(StepByObjectIter {
                entities: None,
                ahead: 0,
                gap: 0,
            }),
        }
    }
}

/// Gives every n-th of what an iterator gives, the first one included, or nothing. A contract sees
/// it as the iterator, if there is one, and how many are passed over now and then each time.
///
/// Ported from `tabled::settings::object::StepByObjectIter`.
#[derive(Drop)]
pub struct StepByObjectIter<I> {
    entities: Option<I>,
    ahead: usize,
    gap: usize,
}

impl<I> Model for StepByObjectIter<I> {
    ghost use Rattle.tabled_select.specs.Walks.{Hops};

    ghost Value = { Hops I };

    ghost view = { λ a. record { source = a.entities; ahead = a.ahead; gap = a.gap } };

    ghost inverse = { λ s. record { entities = s.source; ahead = s.ahead; gap = s.gap } };
}

impl<I: Iterator> Iterator for StepByObjectIter<I>
where
    I::Item: Drop,
{
    type Item = I::Item;

    ghost use Rattle.std.specs.Prelude.{IfSome};
    ghost use Rattle.tabled_select.specs.Walks.{HopsIfAny, hops_left};

    ghost can_next = { λ s. IfSome s.source I.can_next };

    ghost next_gives = { HopsIfAny I.next_gives };

    ghost remaining = { λ s. hops_left I.remaining s.source s.ahead s.gap };

    fn next(&mut self) -> Option<I::Item> {
        match &mut self.entities {
            Some(entities) => {
                let ahead = mem::replace(&mut self.ahead, self.gap);
                entities.nth(ahead)
            }
            None => None,
        }
    }
}
