//! Objects, which name cells of a table.
//!
//! A contract sees an object as the list of the entities that it names in a table.

ghost use Rattle.std.specs.Prelude.{◌≡◌, List, IfOk};
ghost use Rattle.tabled_grid.specs.Grid.{Grid};
ghost use Rattle.tabled_grid.specs.declared.config.entity.Entity.{Entity};
ghost use Rattle.tabled_select.specs.Located.{Lists};

mod cell;
mod columns;
mod diff;
mod entity_list;
mod frame;
mod from_last;
mod intersection;
mod inversion;
mod iterator;
mod listed;
mod listed_marks;
mod marked;
mod named_places;
mod place_set;
mod rows;
mod segment;
mod sieve;
mod union;

pub use cell::{Cell, EntityOnce};
pub use columns::{Column, Columns, ColumnsIter, FirstColumn, LastColumn, LastColumnOffset};
pub use diff::{DiffCombination, DiffIter};
pub use entity_list::EntityList;
pub use frame::{Frame, FrameIter};
pub use intersection::{IntersectIter, IntersectionCombination};
pub use inversion::{InversionCombination, InversionIter};
pub use iterator::{
    FilterObject, FilterObjectIter, ObjectIterator, SkipObject, SkipObjectIter, StepByObject,
    StepByObjectIter,
};
pub use listed::entities;
pub(crate) use named_places::NamedPlaces;
pub use rows::{FirstRow, LastRow, LastRowOffset, Row, Rows, RowsIter};
pub use segment::{SectorIter, Segment, SegmentAll};
pub use sieve::SieveIter;
use std::alloc::{AllocError, Global};
use std::marker::PhantomData;
use tabled_grid::config::Entity;
use tabled_grid::records::GridStore;
pub use union::{UnionCombination, UnionIter};

/// Names cells of a store.
///
/// An object may name an entity more than once, and entities outside the table.
///
/// Ported from `tabled::settings::object::Object`.
pub trait Object<R: GridStore> {
    /// What goes over the named entities.
    type Iter: Iterator<Item = Entity> + Drop;

    /// The entities that are named in a store with a grid.
    ghost lists: { Self → Grid R.Cell → List Entity → Type 0 };

    /// The condition of use: a closure may be called on every argument of its kind. There is none, where nothing
    /// else is said.
    ghost can_list: { Self → Type 0 } = { λ _. Unit {0} };

    /// Goes over the named entities, in order.
    ///
    /// Refused where memory runs out. The store is only read.
    ///
    /// Ported from `tabled::settings::object::Object::cells`.
    fn cells(&self, alloc: Global, records: &R) -> Result<Self::Iter, AllocError>
        requires well { R.is_well_formed records.now }
        requires can { can_list self.now }
        ensures lists { IfOk result (Lists Self.Iter.Iterator (lists self.now (R.grid records.now))) };

    /// The cells of both, each once, in the order of their first places: its own, then the other's.
    ///
    /// All are listed as `Cell`. What is named outside the table is left out.
    ///
    /// Ported from `tabled::settings::object::Object::and`.
    final fn and<O>(self, rhs: O) -> UnionCombination<Self, O, R>
    where
        Self: Sized,
        ensures { result ≡ (self, rhs) }
    {
        UnionCombination {
            lhs: self,
            rhs,
            records: PhantomData,
        }
    }

    /// Its own cells that the other doesn't name, in its own order and with its repeats.
    ///
    /// All are listed as `Cell`. What is named outside the table is left out.
    ///
    /// Ported from `tabled::settings::object::Object::not`.
    final fn not<O>(self, rhs: O) -> DiffCombination<Self, O, R>
    where
        Self: Sized,
        ensures { result ≡ (self, rhs) }
    {
        DiffCombination {
            lhs: self,
            rhs,
            records: PhantomData,
        }
    }

    /// Its own cells that the other names too, in its own order and with its repeats.
    ///
    /// All are listed as `Cell`. What is named outside the table is left out.
    ///
    /// Ported from `tabled::settings::object::Object::intersect`.
    final fn intersect<O>(self, rhs: O) -> IntersectionCombination<Self, O, R>
    where
        Self: Sized,
        ensures { result ≡ (self, rhs) }
    {
        IntersectionCombination {
            lhs: self,
            rhs,
            records: PhantomData,
        }
    }

    /// The cells of the table that aren't named, row by row. All are listed as `Cell`.
    ///
    /// Ported from `tabled::settings::object::Object::inverse`.
    final fn inverse(self) -> InversionCombination<Self, R>
    where
        Self: Sized,
        ensures { result ≡ self }
    {
        InversionCombination {
            object: self,
            records: PhantomData,
        }
    }
}
