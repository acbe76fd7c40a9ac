//! Combinations: of plain objects, of lists that repeat and leave the table, and of many cells.

use super::named::{count, names};
use std::alloc::Global;
use std::cell;
use std::test::Fail;
use tabled_grid::config::Entity::{self, Cell as At, Row};
use tabled_grid::records::VecRecords;
use tabled_rows::records::EmptyRecords;
use tabled_select::object::{
    Cell, Columns, EntityList, Object, ObjectIterator, Rows, Segment, entities,
};

/// Whether these are the words of what two objects name together, of what the first names without the
/// second, and of what both name.
fn combine<A, B>(alloc: Global, a: A, b: B, shape: (usize, usize), want: [&str; 3]) -> bool
where
    A: Object<VecRecords<usize>> + Copy,
    B: Object<VecRecords<usize>> + Copy,
    requires first { A.can_list a }
    requires second { B.can_list b }
{
    let [and, not, both] = want;
    names(alloc, a.and(b), shape, and)
        && names(alloc, a.not(b), shape, not)
        && names(alloc, a.intersect(b), shape, both)
}

#[test]
fn combines_places(rt: HostRuntime) {
    let (first, last) = (Cell::new(0, 0), Cell::new(1, 2));
    for &(a, b, shape, want) in &[
        (first, last, (2, 3), ["0:0 1:2", "0:0", ""]),
        (first, first, (2, 3), ["0:0", "", "0:0"]),
        (first, last, (0, 0), ["", "", ""]),
        (last, first, (2, 2), ["0:0", "", ""]),
    ] {
        assert!(rt; combine(rt.alloc(), a, b, shape, want));
    }
}

#[test]
fn combines_rows_and_columns(rt: HostRuntime) {
    let alloc = rt.alloc();
    let (row, column) = (Rows::one(1), Columns::one(1));
    for &(shape, want, turned) in &[
        (
            (3, 3),
            ["1:0 1:1 1:2 0:1 2:1", "1:0 1:2", "1:1"],
            ["0:1 1:1 2:1 1:0 1:2", "0:1 2:1", "1:1"],
        ),
        ((2, 1), ["1:0", "1:0", ""], ["1:0", "", ""]),
    ] {
        assert!(rt; combine(alloc, row, column, shape, want));
        assert!(rt; combine(alloc, column, row, shape, turned));
    }
    let whole = ["0:0 0:1 0:2 1:0 1:1 1:2", "0:0 0:1 0:2", "1:0 1:1 1:2"];
    assert!(rt; combine(alloc, Segment::all(), row, (2, 3), whole));
    let first = ["0:0 0:1 0:2", "0:1 0:2", "0:0"];
    assert!(rt; combine(alloc, Rows::first(), Cell::new(0, 0), (2, 3), first));
}

#[test]
fn inverts(rt: HostRuntime) {
    let alloc = rt.alloc();
    for &(row, shape, want) in &[
        (0, (2, 3), "1:0 1:1 1:2"),
        (2, (2, 1), "0:0 1:0"),
        (0, (0, 0), ""),
    ] {
        assert!(rt; names(alloc, Rows::one(row).inverse(), shape, want));
    }
    assert!(rt; names(alloc, Rows::first().inverse(), (2, 3), "1:0 1:1 1:2"));
    assert!(rt;
        names(
            alloc,
            Cell::new(0, 0).inverse(),
            (2, 3),
            "0:1 0:2 1:0 1:1 1:2"
        )
    );
    assert!(rt; names(alloc, Segment::all().inverse(), (2, 3), ""));
}

const REPEATS: [Entity; 4] = [Row(0), Row(0), At(5, 5), Entity::Global];

const LAST: [Entity; 3] = [At(1, 1), At(1, 1), At(0, 1)];

/// An object that names these entities.
fn listed(alloc: Global, entities: &[Entity]) -> EntityList {
    match Vec::from_slice(alloc, entities) {
        Ok(entities) => EntityList(entities),
        Err(_) => EntityList(Vec::new(alloc)),
    }
}

#[test]
fn takes_entities_as_they_are(rt: HostRuntime) {
    let alloc = rt.alloc();
    for &(first, second, and, not, both) in &[
        (
            REPEATS.as_slice(),
            LAST.as_slice(),
            "0:0 0:1 1:0 1:1",
            "0:0 0:0 0:0 1:0",
            "0:1 0:1 0:1 1:1",
        ),
        (
            LAST.as_slice(),
            REPEATS.as_slice(),
            "1:1 0:1 0:0 1:0",
            "",
            "1:1 1:1 0:1",
        ),
    ] {
        let shape = (2, 2);
        let (a, b) = (listed(alloc, first), listed(alloc, second));
        assert!(rt; names(alloc, a.and(b), shape, and));
        let (a, b) = (listed(alloc, first), listed(alloc, second));
        assert!(rt; names(alloc, a.not(b), shape, not));
        let (a, b) = (listed(alloc, first), listed(alloc, second));
        assert!(rt; names(alloc, a.intersect(b), shape, both));
    }
}

#[test]
fn takes_parts_of_lists(rt: HostRuntime) {
    let alloc = rt.alloc();
    let steps = listed(alloc, &REPEATS).skip(1).step_by(2);
    assert!(rt; names(alloc, steps, (2, 2), "r0 all"));
    let others = listed(alloc, &LAST).inverse();
    assert!(rt; names(alloc, others, (2, 2), "0:0 1:0"));
}

/// Says yes, and counts how often it is asked.
fn ask(asked: &cell::Cell<u8>) -> bool {
    asked.set(asked.get().wrapping_add(1));
    true
}

#[test]
fn asks_each_closure_once_an_entity(rt: HostRuntime) {
    let alloc = rt.alloc();
    let (left, right) = (cell::Cell::new(0u8), cell::Cell::new(0u8));
    let of_four = listed(alloc, &REPEATS).filter(|_| ask(&left));
    let of_three = listed(alloc, &LAST).filter(|_| ask(&right));
    let not = of_four.not(of_three);
    let of_four = listed(alloc, &REPEATS).filter(|_| ask(&left));
    let of_three = listed(alloc, &LAST).filter(|_| ask(&right));
    let both = of_four.intersect(of_three).inverse();
    assert!(rt; names(alloc, not.and(both), (2, 2), "0:0 1:0"));
    assert_eq!(rt; (left.get(), right.get()), (8, 6));
}

#[test]
fn combines_many_cells(rt: HostRuntime) {
    let alloc = rt.alloc();
    let first = Cell::new(0, 0);
    for &(rows, columns) in &[(1, 2_000), (2_000, 1), (40, 50)] {
        let shape = (rows, columns);
        assert!(rt; count(alloc, Segment::all().and(first), shape) == Ok(2_000));
        assert!(rt; count(alloc, Segment::all().not(first), shape) == Ok(1_999));
        assert!(rt; count(alloc, first.intersect(Segment::all()), shape) == Ok(1));
        assert!(rt; count(alloc, first.inverse(), shape) == Ok(1_999));
    }
}

#[test]
fn looks_up_few_cells_of_a_table_too_large_to_mark(rt: HostRuntime) -> Result<(), Fail> {
    let table = EmptyRecords::new(usize::MAX, 2);
    let both = Cell::new(0, 0).and(Cell::new(1, 1)).not(Cell::new(7, 0));
    assert_eq!(rt; entities(rt.alloc(), &both, &table)?.len(), 2);
    Ok(())
}
