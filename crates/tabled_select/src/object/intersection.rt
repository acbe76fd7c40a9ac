//! The cells that two objects share.

ghost use Rattle.tabled_select.specs.Algebra.{ListsOfTwo, named_by_both};

use crate::object::sieve::SieveIter;
use crate::object::{Object, entities};
use std::alloc::{AllocError, Global};
use std::marker::{Model, PhantomData};
use tabled_grid::config::Entity;
use tabled_grid::records::{ExactRecords, Records};

/// The cells of the first object that the second names too, with the first's repeats. A contract
/// sees it as the two objects.
///
/// Listing is refused where memory runs out.
///
/// Ported from `tabled::settings::object::IntersectionCombination`.
#[derive(Copy, Drop)]
#[derive_where(Clone; L, R)]
pub struct IntersectionCombination<L, R, I> {
    pub(super) lhs: L,
    pub(super) rhs: R,
    pub(super) records: PhantomData<I>,
}

impl<L, R, I> Model for IntersectionCombination<L, R, I> {
    ghost Value = { L × R };

    ghost view = { λ a. (a.lhs, a.rhs) };

    ghost inverse = { λ v. record { lhs = v.0; rhs = v.1; records = record {} } };
}

impl<L, R, I> Object<I> for IntersectionCombination<L, R, I>
where
    L: Object<I>,
    R: Object<I>,
    I: Records + ExactRecords,
{
    type Iter = IntersectIter<L::Iter>;

    ghost lists = { λ s. ListsOfTwo (L.lists s.0) (R.lists s.1) named_by_both };

    ghost can_list = { λ s. L.can_list s.0 × R.can_list s.1 };

    fn cells(&self, alloc: Global, records: &I) -> Result<IntersectIter<L::Iter>, AllocError> {
        let rows = records.count_rows();
        let columns = records.count_columns();
        let lhs = entities(alloc, &self.lhs, records)?;
        let rhs = entities(alloc, &self.rhs, records)?;
        SieveIter::new(alloc, lhs, rhs, rows, columns, true)
    }
}

/// Gives the cells of an intersection. A contract sees it as the list of what is left.
///
/// Ported from `tabled::settings::object::IntersectIter`.
pub type IntersectIter<L> = SieveIter<L>;
