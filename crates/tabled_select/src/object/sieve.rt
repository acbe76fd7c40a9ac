//! Cells sifted by a set of places.

ghost use Rattle.std.specs.Prelude.{◌≡◌, IfOk};
ghost use Rattle.std.specs.Iterator.{YieldsFirst, item_count};
ghost use Rattle.tabled_select.specs.Algebra.{cells_of, flat, sifted};

use crate::object::named_places::{NamedPlaces, count_named};
use crate::object::place_set::PlaceSet;
use std::alloc::{AllocError, Global};
use std::marker::{Model, PhantomData};
use tabled_grid::config::Entity;

/// Gives those cells of one object that another names too, or else the others. A contract sees it as
/// the list of what is left.
///
/// Of this project, for `DiffIter`, `IntersectIter` and `InversionIter`. `L` is the iterator of the one object.
#[derive(Drop)]
pub struct SieveIter<L> {
    places: NamedPlaces,
    set: PlaceSet,
    keeps_members: bool,
    listed: PhantomData<L>,
}

impl<L> Model for SieveIter<L> {
    ghost use Rattle.std.specs.Prelude.{List};
    ghost use Rattle.std.specs.List.{AllByRecursion, filter};
    ghost use Rattle.tabled_grid.specs.declared.config.entity.Entity.{Entity};
    ghost use Rattle.tabled_select.specs.Algebra.{cells_of};
    ghost use Rattle.tabled_select.specs.Marks.{passes};
    ghost use Rattle.tabled_select.specs.Sets.{covers, marks_of};

    ghost Value = { List Entity };

    ghost view = { λ a. cells_of (filter (passes a.keeps_members (marks_of a.set)) a.places) };

    ghost invariant = { λ a. AllByRecursion (covers a.set) a.places };
}

impl<L> SieveIter<L> {
    /// The cells in a table of `rows x columns` that entities name and others name too, or else don't.
    ///
    /// Refused where memory runs out.
    pub(super) fn new(
        alloc: Global,
        entities: Vec<Entity>,
        others: Vec<Entity>,
        rows: usize,
        columns: usize,
        keeps_members: bool,
    ) -> Result<Self, AllocError>
        ensures { IfOk result (λ left. left ≡ cells_of (sifted keeps_members (flat entities.items rows columns) (flat others.items rows columns))) }
    {
        let named = count_named(&entities, rows, columns).saturating_add(count_named(
            &others, rows, columns,
        ));
        let set = PlaceSet::of(alloc, others, rows, columns, named)?;
        Ok(SieveIter {
            places: NamedPlaces::new(entities, rows, columns),
            set,
            keeps_members,
            listed: PhantomData,
        })
    }
}

impl<L> Iterator for SieveIter<L> {
    type Item = Entity;

    ghost next_gives = { YieldsFirst (λ s. s) };

    ghost remaining = { item_count (λ s. s) };

    #[inline(always)]
    fn next(&mut self) -> Option<Entity> {
        while let Some(pos) = self.places.next() {
            if self.set.contains(pos) == self.keeps_members {
                return Some(Entity::from(pos));
            }
        }
        None
    }
}
