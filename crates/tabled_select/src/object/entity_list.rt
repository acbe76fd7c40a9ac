//! Entities that are at hand, as an object.

ghost use Rattle.std.specs.Prelude.{◌≡◌};

use crate::object::Object;
use std::alloc::{AllocError, Global};
use std::vec;
use tabled_grid::config::Entity;
use tabled_grid::records::GridStore;

/// Names its entities, in their order and as often as they stand in it, whatever the table.
///
/// Of this project.
#[derive(Debug, Drop)]
pub struct EntityList(pub Vec<Entity>);

impl<R: GridStore> Object<R> for EntityList {
    type Iter = vec::IntoIter<Entity>;

    ghost lists = { λ s _ entities. entities ≡ s.0.items };

    fn cells(&self, alloc: Global, _records: &R) -> Result<vec::IntoIter<Entity>, AllocError> {
        Ok(Vec::from_slice(alloc, &self.0)?.into_iter())
    }
}
