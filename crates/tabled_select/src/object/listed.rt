//! What an object lists, as a vector.

ghost use Rattle.std.specs.Prelude.{IfOk};

use crate::object::Object;
use std::alloc::{AllocError, Global};
use tabled_grid::config::Entity;
use tabled_grid::records::GridStore;

/// The entities that an object names in a store, in order.
///
/// Refused where memory runs out, it gives no part of them. Object and store are only read.
///
/// Of this project.
pub fn entities<R: GridStore, O: Object<R>>(
    alloc: Global,
    object: &O,
    records: &R,
) -> Result<Vec<Entity>, AllocError>
    requires well { R.is_well_formed records.now }
    requires can { O.can_list object.now }
    ensures { IfOk result (λ all. O.lists object.now (R.grid records.now) all.items) }
{
    object.cells(alloc, records)?.collect(alloc)
}
