//! The cells of two objects.

ghost use Rattle.tabled_select.specs.Algebra.{ListsOfTwo, named_by_either};

use crate::object::named_places::{NamedPlaces, count_named};
use crate::object::place_set::PlaceSet;
use crate::object::{Object, entities};
use std::alloc::{AllocError, Global};
use std::marker::{Model, PhantomData};
use tabled_grid::config::Entity;
use tabled_grid::records::{ExactRecords, Records};

/// The cells of two objects inside the table, each once. A contract sees it as the two objects.
///
/// Listing is refused where memory runs out.
///
/// Ported from `tabled::settings::object::UnionCombination`.
#[derive(Copy, Drop)]
#[derive_where(Clone; L, R)]
pub struct UnionCombination<L, R, I> {
    pub(super) lhs: L,
    pub(super) rhs: R,
    pub(super) records: PhantomData<I>,
}

impl<L, R, I> Model for UnionCombination<L, R, I> {
    ghost Value = { L × R };

    ghost view = { λ a. (a.lhs, a.rhs) };

    ghost inverse = { λ v. record { lhs = v.0; rhs = v.1; records = record {} } };
}

impl<L, R, I> Object<I> for UnionCombination<L, R, I>
where
    L: Object<I>,
    R: Object<I>,
    I: Records + ExactRecords,
{
    type Iter = UnionIter;

    ghost lists = { λ s. ListsOfTwo (L.lists s.0) (R.lists s.1) named_by_either };

    ghost can_list = { λ s. L.can_list s.0 × R.can_list s.1 };

    fn cells(&self, alloc: Global, records: &I) -> Result<UnionIter, AllocError> {
        let rows = records.count_rows();
        let columns = records.count_columns();
        let mut all = entities(alloc, &self.lhs, records)?;
        all.extend(self.rhs.cells(alloc, records)?)?;
        let named = count_named(&all, rows, columns);
        let seen = PlaceSet::room_for(alloc, &all, rows, columns, named)?;
        Ok(UnionIter {
            places: NamedPlaces::new(all, rows, columns),
            seen,
        })
    }
}

/// Gives the cells of a union. A contract sees it as the list of what is left.
///
/// Ported from `tabled::settings::object::UnionIter`.
#[derive(Drop)]
pub struct UnionIter {
    places: NamedPlaces,
    seen: PlaceSet,
}

impl Model for UnionIter {
    ghost use Rattle.std.specs.Prelude.{List, false};
    ghost use Rattle.std.specs.List.{AllByRecursion, filter};
    ghost use Rattle.tabled_grid.specs.declared.config.entity.Entity.{Entity};
    ghost use Rattle.tabled_select.specs.Algebra.{cells_of, firsts};
    ghost use Rattle.tabled_select.specs.Marks.{HasRoom, passes};
    ghost use Rattle.tabled_select.specs.Sets.{marks_of};

    ghost Value = { List Entity };

    ghost view = { λ a. cells_of (filter (passes false (marks_of a.seen)) (firsts a.places)) };

    ghost invariant = { λ a. AllByRecursion (HasRoom (marks_of a.seen)) a.places };
}

impl Iterator for UnionIter {
    type Item = Entity;

    ghost use Rattle.std.specs.Iterator.{YieldsFirst, item_count};

    ghost next_gives = { YieldsFirst (λ s. s) };

    ghost remaining = { item_count (λ s. s) };

    #[inline(always)]
    fn next(&mut self) -> Option<Entity> {
        while let Some(pos) = self.places.next() {
            if self.seen.insert(pos) {
                return Some(Entity::from(pos));
            }
        }
        None
    }
}
