//! What a location finds, as a vector.

ghost use Rattle.std.specs.Prelude.{IfOk};

use crate::location::Location;
use std::alloc::{AllocError, Global};
use tabled_grid::records::GridStore;

/// The coordinates that a location finds in a store, in order.
///
/// Refused where memory runs out, it gives no part of them. The store is only read.
///
/// Of this project.
pub fn coordinates<R: GridStore, L: Location<R>>(
    alloc: Global,
    location: &mut L,
    records: &R,
) -> Result<Vec<L::Coordinate>, AllocError>
where
    L::Coordinate: Drop,
    <L::IntoIter as IntoIterator>::IntoIter: Drop,
    requires well { R.is_well_formed records.now }
    requires can { L.can_locate location.old }
    ensures can { L.can_locate location.new }
    ensures left { L.is_left location.old location.new }
    ensures lists { IfOk result (λ all. L.locates location.old (R.grid records.now) all.items) }
{
    location.locate(alloc, records)?.into_iter().collect(alloc)
}
