//! What a location finds, as marks.

ghost use Rattle.std.specs.Prelude.{ℕ, List, IfOk};
ghost use Rattle.tabled_select.specs.Located.{TellsLocated};

use crate::location::Location;
use std::alloc::{AllocError, Global};
use tabled_grid::records::GridStore;

/// A mark for each index below a count, `true` where a location finds it in a store.
///
/// What is found from the count on is passed over. Refused where memory runs out, it gives no part of them. The
/// store is only read.
///
/// Of this project.
pub fn marks<R, L>(
    alloc: Global,
    location: &mut L,
    records: &R,
    count: usize,
) -> Result<Vec<bool>, AllocError>
where
    R: GridStore,
    L: Location<R, Coordinate = usize>,
    <L::IntoIter as IntoIterator>::IntoIter: Drop,
    requires well { R.is_well_formed records.now }
    requires can { L.can_locate location.old }
    ensures can { L.can_locate location.new }
    ensures left { L.is_left location.old location.new }
    ensures marks { IfOk result (λ marks. (found : List ℕ) × L.locates location.old (R.grid records.now) found × TellsLocated found count marks.items) }
{
    let found = location.locate_below(alloc, records, &count)?;
    let mut marks = vec![in alloc; false; count]?;
    for index in found {
        if let Some(mark) = marks.get_mut(index) {
            *mark = true;
        }
    }
    Ok(marks)
}
