//! Calls of selectors: what each names in a store, and a table changed where they say.

use std::alloc::{AllocError, Global};
use tabled_grid::config::{Entity, Position};
use tabled_grid::records::{Text, VecRecords};
use tabled_select::object::{
    Cell, Column, Columns, Frame, Object, ObjectIterator, Row, Rows, Segment, entities,
};
use tabled_steps::Select;
use tabled_table::{Table, TextRef};

/// A store of texts, as a table has it.
type Store = VecRecords<Text<String>>;

/// How many entities an object names.
fn count<O: Object<Store>>(alloc: Global, object: &O, store: &Store) -> Result<usize, AllocError>
    requires { O.can_list object.now }
{
    Ok(entities(alloc, object, store)?.len())
}

pub fn lists_places(alloc: Global, store: &Store) -> Result<usize, AllocError> {
    let cell = Cell::new(1, 2);
    let same = Cell::from(Position::from(cell));
    let pair = Cell::from((1, 2));
    count(alloc, &cell, store)?;
    count(alloc, &same, store)?;
    count(alloc, &pair, store)?;
    count(alloc, &Position::new(1, 2), store)?;
    count(alloc, &(1, 2), store)
}

pub fn lists_rows(alloc: Global, store: &Store) -> Result<usize, AllocError> {
    let third = usize::from(Row::from(2));
    count(alloc, &Rows::new(1..), store)?;
    count(alloc, &Rows::new(..=third), store)?;
    count(alloc, &Rows::one(third), store)?;
    count(alloc, &Rows::first(), store)?;
    count(alloc, &(Rows::first() + 1), store)?;
    count(alloc, &Rows::last(), store)?;
    count(alloc, &(Rows::last() - 1), store)?;
    count(alloc, &(Rows::last() + 1), store)
}

pub fn lists_columns(alloc: Global, store: &Store) -> Result<usize, AllocError> {
    let third = usize::from(Column::from(2));
    count(alloc, &Columns::new(..), store)?;
    count(alloc, &Columns::new(0..third), store)?;
    count(alloc, &Columns::one(third), store)?;
    count(alloc, &Columns::first(), store)?;
    count(alloc, &(Columns::first() + 1), store)?;
    count(alloc, &Columns::last(), store)?;
    count(alloc, &(Columns::last() - 1), store)?;
    count(alloc, &(Columns::last() + 1), store)
}

pub fn lists_blocks(alloc: Global, store: &Store) -> Result<usize, AllocError> {
    count(alloc, &Segment::all(), store)?;
    count(alloc, &Segment::new(1.., ..2), store)?;
    count(alloc, &Select::Frame, store)?;
    count(alloc, &Frame, store)
}

pub fn lists_combinations(alloc: Global, store: &Store) -> Result<usize, AllocError> {
    let corner = Rows::first().intersect(Columns::first());
    count(alloc, &Cell::new(0, 0).and(Cell::new(1, 1)), store)?;
    count(alloc, &Segment::all().not(Frame), store)?;
    count(alloc, &Frame.inverse(), store)?;
    count(
        alloc,
        &Rows::last().and(corner).not(Cell::new(0, 1)).inverse(),
        store,
    )
}

pub fn lists_steps(alloc: Global, store: &Store) -> Result<usize, AllocError> {
    count(alloc, &Rows::new(1..).skip(1), store)?;
    count(alloc, &Columns::new(1..).step_by(2), store)?;
    count(
        alloc,
        &Frame.filter(|entity| entity != Entity::Cell(0, 0)),
        store,
    )?;
    let steps = Segment::new(.., ..).skip(1).step_by(2);
    count(
        alloc,
        &steps.filter(|_| true).and(Cell::new(0, 0)).skip(1),
        store,
    )
}

/// Goes over the entities of an object one after another.
pub fn goes_over_rows(alloc: Global, store: &Store) -> Result<usize, AllocError> {
    let mut last = 0;
    for entity in Rows::new(1..).skip(1).cells(alloc, store)? {
        if let Entity::Row(row) = entity {
            last = row;
        }
    }
    Ok(last)
}

pub fn writes_where_they_say(alloc: Global, table: &mut Table) -> Result<(), AllocError> {
    table.modify(alloc, Rows::new(1..).step_by(2), TextRef("x"))?;
    table.modify(alloc, Columns::new(1..).skip(1), TextRef("x"))?;
    table.modify(alloc, Segment::new(1.., ..).skip(1), TextRef("x"))?;
    table.modify(alloc, Frame.step_by(2).skip(1), TextRef("x"))?;
    table.modify(
        alloc,
        Frame.filter(|entity| entity != Entity::Cell(0, 0)),
        TextRef("x"),
    )
}

pub fn writes_combinations(alloc: Global, table: &mut Table) -> Result<(), AllocError> {
    table.modify(alloc, Rows::first().and(Rows::last()), TextRef("x"))?;
    table.modify(alloc, Rows::new(1..).not(Columns::one(0)), TextRef("x"))?;
    table.modify(alloc, Rows::one(1).intersect(Columns::one(0)), TextRef("x"))?;
    table.modify(alloc, Frame.inverse().skip(1), TextRef("x"))
}
