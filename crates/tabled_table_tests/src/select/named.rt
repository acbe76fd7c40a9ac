//! What an object names, as words.

use std::alloc::{AllocError, Global};
use tabled_grid::config::Entity;
use tabled_grid::records::{Resizable, VecRecords};
use tabled_select::object::{Object, entities};

/// A table of zeros.
fn zeros(alloc: Global, rows: usize, columns: usize) -> Result<VecRecords<usize>, AllocError> {
    let mut table = VecRecords::new(alloc, Vec::new(alloc))?;
    for _ in 0..rows {
        table.push_row(alloc)?;
    }
    for _ in 0..columns {
        table.push_column(alloc)?;
    }
    Ok(table)
}

/// The word of an entity: `all`, `c0` for a column, `r0` for a row, `0:0` for a cell.
fn word(alloc: Global, entity: Entity) -> Result<String, AllocError> {
    match entity {
        Entity::Global => String::from_str(alloc, "all"),
        Entity::Column(col) => format!(in alloc; "c{col}"),
        Entity::Row(row) => format!(in alloc; "r{row}"),
        Entity::Cell(row, col) => format!(in alloc; "{row}:{col}"),
    }
}

/// The words of entities, with a blank between them.
pub(crate) fn words(alloc: Global, entities: Vec<Entity>) -> Result<String, AllocError> {
    let mut words = String::new(alloc);
    for entity in entities {
        if !words.is_empty() {
            words.push(' ')?;
        }
        words.push_str(word(alloc, entity)?.as_str())?;
    }
    Ok(words)
}

/// The words of the entities that an object names in a table of a shape.
fn named<O>(alloc: Global, object: O, shape: (usize, usize)) -> Result<String, AllocError>
where
    O: Object<VecRecords<usize>> + Drop,
    requires { O.can_list object }
{
    let table = zeros(alloc, shape.0, shape.1)?;
    words(alloc, entities(alloc, &object, &table)?)
}

/// Whether these are the words of the entities that an object names in a table of a shape.
pub(crate) fn names<O>(alloc: Global, object: O, shape: (usize, usize), want: &str) -> bool
where
    O: Object<VecRecords<usize>> + Drop,
    requires { O.can_list object }
{
    match named(alloc, object, shape) {
        Ok(words) => words.as_str() == want,
        Err(_) => false,
    }
}

/// How many entities an object names in a table of a shape.
pub(crate) fn count<O>(alloc: Global, object: O, shape: (usize, usize)) -> Result<usize, AllocError>
where
    O: Object<VecRecords<usize>> + Drop,
    requires { O.can_list object }
{
    let table = zeros(alloc, shape.0, shape.1)?;
    Ok(entities(alloc, &object, &table)?.len())
}
