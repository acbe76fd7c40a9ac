//! Options and stores for tests, and how they are applied and read.

mod letter;
mod push_row;

pub(crate) use letter::{CountedCopies, Letter, Log};
pub(crate) use push_row::PushRow;
use std::alloc::{AllocError, Global};
use tabled_grid::config::Entity;
use tabled_grid::records::GridStore;
use tabled_options::{CellOption, TableOption};
use tabled_select::object::EntityList;
use tabled_testing::{Flat, flat};

/// The store `a b / c d`.
pub(crate) fn two_rows(alloc: Global) -> Result<Flat, AllocError> {
    flat(alloc, "a b / c d /")
}

/// An object that names these entities.
pub(crate) fn listed(alloc: Global, entities: &[Entity]) -> EntityList {
    match Vec::from_slice(alloc, entities) {
        Ok(entities) => EntityList(entities),
        Err(_) => EntityList(Vec::new(alloc)),
    }
}

/// Applies an option to a table.
pub(crate) fn apply<R, C, D, O>(
    alloc: Global,
    option: O,
    records: &mut R,
    cfg: &mut C,
    dimension: &mut D,
) -> Result<(), AllocError>
where
    R: GridStore,
    O: TableOption<R, C, D>,
    requires well { R.is_well_formed records.old }
    requires can { O.can_change option }
    ensures { R.is_well_formed records.new }
{
    option.change(alloc, records, cfg, dimension)
}

/// Applies an option to an entity.
pub(crate) fn apply_to<R, C, O>(
    alloc: Global,
    option: O,
    records: &mut R,
    cfg: &mut C,
    entity: Entity,
) -> Result<(), AllocError>
where
    R: GridStore,
    O: CellOption<R, C>,
    requires well { R.is_well_formed records.old }
    requires can { O.can_change option }
    ensures { R.is_well_formed records.new }
{
    option.change(alloc, records, cfg, entity)
}
