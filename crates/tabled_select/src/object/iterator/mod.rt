//! Objects made of the entities that another object lists.

ghost use Rattle.std.specs.Prelude.{◌≡◌};

mod filter;
mod skip;
mod step_by;

use crate::object::Object;
pub use filter::{FilterObject, FilterObjectIter};
pub use skip::{SkipObject, SkipObjectIter};
use std::marker::PhantomData;
pub use step_by::{StepByObject, StepByObjectIter};
use tabled_grid::config::Entity;
use tabled_grid::records::GridStore;

/// What every object can be made into.
///
/// Ported from `tabled::settings::object::ObjectIterator`.
pub trait ObjectIterator<R: GridStore>: Object<R> {
    /// Leaves out the first entities.
    ///
    /// Ported from `tabled::settings::object::ObjectIterator::skip`.
    final fn skip(self, n: usize) -> SkipObject<Self, R>
    where
        Self: Sized,
        ensures { result ≡ (self, n) }
    {
        SkipObject {
            object: self,
            n,
            records: PhantomData,
        }
    }

    /// Keeps the entities 0, n, 2n and so on, and none where n is 0.
    ///
    /// Ported from `tabled::settings::object::ObjectIterator::step_by`.
    final fn step_by(self, n: usize) -> StepByObject<Self, R>
    where
        Self: Sized,
        ensures { result ≡ (self, n) }
    {
        StepByObject {
            object: self,
            n,
            records: PhantomData,
        }
    }

    /// Keeps the entities for which the closure says yes.
    ///
    /// Ported from `tabled::settings::object::ObjectIterator::filter`.
    final fn filter<F>(self, predicate: F) -> FilterObject<Self, F, R>
    where
        Self: Sized,
        F: Fn(Entity) -> bool,
        ensures { result ≡ (self, predicate) }
    {
        FilterObject {
            object: self,
            predicate,
            records: PhantomData,
        }
    }
}

impl<O: Object<R>, R: GridStore> ObjectIterator<R> for O {}
