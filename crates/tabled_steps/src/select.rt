//! Selectors as data.

ghost use Rattle.std.specs.Prelude.{◌≡◌, ◌∷◌, [], ℕ, List, IfOk};
ghost use Rattle.std.specs.Option.{IfSome};
ghost use Rattle.tabled_grid.specs.Grid.{Grid, map_grid};
ghost use Rattle.tabled_steps.specs.Groups.{AreGroupedIn, AreRepresentatives};
ghost use Rattle.tabled_steps.specs.Selected.{selected, single};

use crate::groups::{Groups, group_columns, group_rows, group_segment};
use std::alloc::{AllocError, Global};
use std::vec;
use tabled_grid::config::Entity;
use tabled_grid::records::{CellText, ExactRecords, PeekableRecords, Records};
use tabled_select::location::{ByColumnName, ByContent};
use tabled_select::object::{
    Cell, Column, Columns, EntityList, FirstColumn, FirstRow, Frame, LastColumn, LastRow, Object,
    ObjectIterator, Row, Rows, Segment, entities,
};

/// A selector that is data: it names what the selector of the same name in `tabled_select` names.
///
/// Of this project.
#[derive(Debug, Drop)]
pub enum Select {
    /// All cells, as one entity.
    All,
    /// A cell, by its row and column.
    Cell(usize, usize),
    Row(usize),
    Column(usize),
    FirstRow,
    LastRow,
    FirstColumn,
    LastColumn,
    /// The row n rows before the last one.
    LastRowMinus(usize),
    /// The row n rows past the last one.
    LastRowPlus(usize),
    LastColumnMinus(usize),
    LastColumnPlus(usize),
    /// The rows of a range, by its start and its end.
    Rows(usize, usize),
    Columns(usize, usize),
    /// The cells of a range of rows and a range of columns.
    Segment(usize, usize, usize, usize),
    /// The cells on the edge.
    Frame,
    /// The cells with a text.
    Content(String),
    /// The columns with a text in the first row.
    Name(String),
    /// The cells of both, each once.
    And(Box<Select>, Box<Select>),
    /// The cells of the first that the second doesn't name.
    Not(Box<Select>, Box<Select>),
    /// The cells of the first that the second names, too.
    Intersect(Box<Select>, Box<Select>),
    /// The cells that aren't named.
    Inverse(Box<Select>),
    /// What is named without the first n entities.
    Skip(usize, Box<Select>),
    /// Of what is named the entities 0, n, 2n and so on.
    StepBy(usize, Box<Select>),
}

impl Select {
    /// The one entity that is named in any table, if it is known without one.
    pub(crate) fn single(&self) -> Option<Entity>
        ensures single { result ≡ single self.now }
        ensures selected { IfSome result (λ entity. (texts : Grid (List ℕ)) → selected texts self.now ≡ entity ∷ []) }
    {
        match self {
            Select::All => Some(Entity::Global),
            Select::Cell(i, j) => Some(Entity::Cell(*i, *j)),
            Select::Row(i) => Some(Entity::Row(*i)),
            Select::Column(j) => Some(Entity::Column(*j)),
            _ => None,
        }
    }

    /// The entities that stand for those that are named in a store.
    #[cycle(listing)]
    pub(crate) fn representatives<R>(
        &self,
        alloc: Global,
        records: &R,
    ) -> Result<Vec<Entity>, AllocError>
    where
        R: Records + ExactRecords + PeekableRecords,
        R::Cell: CellText,
        requires well { R.is_well_formed records.now }
        ensures { IfOk result (λ all. AreRepresentatives R.Cell.text_of self.now (R.grid records.now) all.items) }
    {
        self.groups(alloc, records)?.into_representatives(alloc)
    }

    /// Groups of the entities that are named in a store, in order.
    ///
    /// Its work grows with the cells of the store, and not with what is named outside.
    #[cycle(listing)]
    fn groups<R>(&self, alloc: Global, records: &R) -> Result<Groups, AllocError>
    where
        R: Records + ExactRecords + PeekableRecords,
        R::Cell: CellText,
        requires well { R.is_well_formed records.now }
        ensures { IfOk result (AreGroupedIn (R.grid records.now) (selected (map_grid R.Cell.text_of (R.grid records.now)) self.now)) }
    {
        match self {
            Select::Rows(a, b) => group_rows(alloc, records, *a, *b),
            Select::Columns(a, b) => group_columns(alloc, records, *a, *b),
            Select::Segment(a, b, c, d) => group_segment(alloc, records, (*a, *b), (*c, *d)),
            Select::Skip(n, x) => x.groups(alloc, records)?.skip(alloc, records, *n),
            Select::StepBy(n, x) => x.groups(alloc, records)?.step_by(alloc, records, *n),
            _ => Ok(Groups::Each(self.list(alloc, records)?)),
        }
    }

    /// The entities that are named in a store, in order.
    ///
    /// Cells are combined inside the store alone, so those that stand for the entities of the parts do.
    #[cycle(listing)]
    fn list<R>(&self, alloc: Global, records: &R) -> Result<Vec<Entity>, AllocError>
    where
        R: Records + ExactRecords + PeekableRecords,
        R::Cell: CellText,
        requires well { R.is_well_formed records.now }
        ensures { IfOk result (λ all. all.items ≡ selected (map_grid R.Cell.text_of (R.grid records.now)) self.now) }
    {
        match self {
            Select::All => entities(alloc, &Segment::all(), records),
            Select::Cell(i, j) => entities(alloc, &Cell::new(*i, *j), records),
            Select::Row(i) => entities(alloc, &Row::from(*i), records),
            Select::Column(j) => entities(alloc, &Column::from(*j), records),
            Select::FirstRow => entities(alloc, &FirstRow, records),
            Select::LastRow => entities(alloc, &LastRow, records),
            Select::FirstColumn => entities(alloc, &FirstColumn, records),
            Select::LastColumn => entities(alloc, &LastColumn, records),
            Select::LastRowMinus(n) => entities(alloc, &(LastRow - *n), records),
            Select::LastRowPlus(n) => entities(alloc, &(LastRow + *n), records),
            Select::LastColumnMinus(n) => entities(alloc, &(LastColumn - *n), records),
            Select::LastColumnPlus(n) => entities(alloc, &(LastColumn + *n), records),
            Select::Rows(a, b) => entities(alloc, &Rows::new(*a..*b), records),
            Select::Columns(a, b) => entities(alloc, &Columns::new(*a..*b), records),
            Select::Segment(a, b, c, d) => entities(alloc, &Segment::new(*a..*b, *c..*d), records),
            Select::Frame => entities(alloc, &Frame, records),
            Select::Content(text) => { entities(alloc, &ByContent::new(text.clone()?), records) }
            Select::Name(text) => entities(alloc, &ByColumnName::new(text.clone()?), records),
            Select::And(x, y) => {
                let lhs = EntityList(x.representatives(alloc, records)?);
                let rhs = EntityList(y.representatives(alloc, records)?);
                entities(alloc, &lhs.and(rhs), records)
            }
            Select::Not(x, y) => {
                let lhs = EntityList(x.representatives(alloc, records)?);
                let rhs = EntityList(y.representatives(alloc, records)?);
                entities(alloc, &lhs.not(rhs), records)
            }
            Select::Intersect(x, y) => {
                let lhs = EntityList(x.representatives(alloc, records)?);
                let rhs = EntityList(y.representatives(alloc, records)?);
                entities(alloc, &lhs.intersect(rhs), records)
            }
            Select::Inverse(x) => {
                let named = EntityList(x.representatives(alloc, records)?);
                entities(alloc, &named.inverse(), records)
            }
            Select::Skip(n, x) => {
                let listed = EntityList(x.list(alloc, records)?);
                entities(alloc, &listed.skip(*n), records)
            }
            Select::StepBy(n, x) => {
                let listed = EntityList(x.list(alloc, records)?);
                entities(alloc, &listed.step_by(*n), records)
            }
        }
    }
}

impl<R> Object<R> for Select
where
    R: Records + ExactRecords + PeekableRecords,
    R::Cell: CellText,
{
    type Iter = vec::IntoIter<Entity>;

    ghost lists = { λ s g entities. entities ≡ selected (map_grid R.Cell.text_of g) s };

    ghost can_list = { λ _. Unit {0} };

    fn cells(&self, alloc: Global, records: &R) -> Result<vec::IntoIter<Entity>, AllocError> {
        Ok(self.list(alloc, records)?.into_iter())
    }
}
