//! Steps that name nothing in a table.

ghost use Rattle.std.specs.Prelude.{◌≡◌, ◌==◌, IfOk, length};
ghost use Rattle.tabled_grid.specs.Grid.{map_grid};
ghost use Rattle.tabled_select.specs.Algebra.{flat};
ghost use Rattle.tabled_steps.specs.Kinds.{sorted_by};
ghost use Rattle.tabled_steps.specs.Naming.{names_none, names_nothing, no_cell_named};

use crate::select::Select;
use crate::step::Step;
use std::alloc::{AllocError, Global};
use tabled_grid::config::Entity;
use tabled_grid::records::{CellText, ExactRecords, PeekableRecords, Records};
use tabled_settings::sort::{Sort, SortColumn};

impl Select {
    /// Says whether no cell of a store is named.
    fn names_none<R>(&self, alloc: Global, records: &R) -> Result<bool, AllocError>
    where
        R: Records + ExactRecords + PeekableRecords,
        R::Cell: CellText,
        requires well { R.is_well_formed records.now }
        ensures { IfOk result (λ none. none ≡ names_none self.now (map_grid R.Cell.text_of (R.grid records.now))) }
    {
        let all = self.representatives(alloc, records)?;
        Ok(name_no_cell(&all, records.count_rows(), records.count_columns()))
    }
}

/// Says whether entities name no cell of a table.
fn name_no_cell(entities: &[Entity], rows: usize, columns: usize) -> bool
    ensures { result ≡ (length (flat entities.now rows columns) == 0) }
{
    for entity in entities {
        match entity.iter(rows, columns).next() {
            Some(_) => return false,
            None => {}
        }
    }
    true
}

impl Step {
    /// Says whether the step names nothing in a store: one of its selectors no cell, or what it takes away, keeps or
    /// sorts by is no line there. It may be refused for memory.
    ///
    /// Of this project.
    pub fn names_nothing<R>(&self, alloc: Global, records: &R) -> Result<bool, AllocError>
    where
        R: Records + ExactRecords + PeekableRecords,
        R::Cell: CellText,
        requires well { R.is_well_formed records.now }
        ensures { IfOk result (λ nothing. nothing ≡ names_nothing self.now (map_grid R.Cell.text_of (R.grid records.now))) }
    {
        match self {
            Step::Set(select, _)
            | Step::Charset(_, select)
            | Step::Wrap(_, select)
            | Step::Truncate(_, select)
            | Step::Replace(_, _, select)
            | Step::ColumnSpan(_, select)
            | Step::RowSpan(_, select)
            | Step::Merge(_, select) => select.names_none(alloc, records),
            Step::Dup(destination, source) => {
                if destination.names_none(alloc, records)? {
                    return Ok(true);
                }
                source.names_none(alloc, records)
            }
            Step::Extract(a, b, c, d) => {
                Select::Segment(*a, *b, *c, *d).names_none(alloc, records)
            }
            Step::RemoveRows(a, b) => Select::Rows(*a, *b).names_none(alloc, records),
            Step::RemoveColumns(a, b) => Select::Columns(*a, *b).names_none(alloc, records),
            Step::RemoveNamed(name) => { Select::Name(name.clone()?).names_none(alloc, records) }
            Step::KeepRows(names) => {
                let found = names.find(alloc, records)?;
                let kept: Vec<Entity> = found.into_iter().map(Entity::Row).collect(alloc)?;
                Ok(name_no_cell(&kept, records.count_rows(), records.count_columns()))
            }
            Step::KeepColumns(names) => {
                let found = names.find(alloc, records)?;
                let kept: Vec<Entity> = found.into_iter().map(Entity::Column).collect(alloc)?;
                Ok(name_no_cell(&kept, records.count_rows(), records.count_columns()))
            }
            Step::Sort(sort) => sorts_none(alloc, sort, records),
            _ => Ok(false),
        }
    }
}

/// Says whether there is nothing to sort in a store: no row, or no column to sort by.
fn sorts_none<R>(alloc: Global, sort: &Sort, records: &R) -> Result<bool, AllocError>
where
    R: Records + ExactRecords + PeekableRecords,
    R::Cell: CellText,
    requires well { R.is_well_formed records.now }
    ensures { IfOk result (λ none. none ≡ no_cell_named (sorted_by sort.now) (map_grid R.Cell.text_of (R.grid records.now))) }
{
    if sort.from >= records.count_rows() {
        return Ok(true);
    }
    match &sort.column {
        SortColumn::Index(index) => Select::Column(*index).names_none(alloc, records),
        SortColumn::Name(name) => Select::Name(name.clone()?).names_none(alloc, records),
    }
}
