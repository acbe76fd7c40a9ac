//! What locators find by the texts of a table.

use super::named::words;
use std::alloc::{AllocError, Global};
use std::cell::Cell;
use tabled_grid::config::Position;
use tabled_rows::records::EmptyRecords;
use tabled_select::location::{Location, Locator, coordinates, marks};
use tabled_select::object::{Columns, Object, Rows, Segment, entities};
use tabled_testing::{Flat, flat};

/// The words of the entities that an object names in a table of texts.
fn named_in<O>(alloc: Global, object: O, table: &str) -> Result<String, AllocError>
where
    O: Object<Flat> + Drop,
    requires { O.can_list object }
{
    let table = flat(alloc, table)?;
    words(alloc, entities(alloc, &object, &table)?)
}

/// Whether these are the words of the entities that an object names in a table of texts.
fn finds<O>(alloc: Global, object: O, table: &str, want: &str) -> bool
where
    O: Object<Flat> + Drop,
    requires { O.can_list object }
{
    match named_in(alloc, object, table) {
        Ok(words) => words.as_str() == want,
        Err(_) => false,
    }
}

/// The text `1`.
fn one(alloc: Global) -> String {
    match String::from_str(alloc, "1") {
        Ok(text) => text,
        Err(_) => String::new(alloc),
    }
}

/// Tables, with the columns that have a first `1`, and the cells that are `1`.
const ONES: &[(&str, &str, &str)] = &[
    ("1 2 3 / 1 2 3 / 1 2 3 /", "c0", "0:0 1:0 2:0"),
    ("1 2 3 / 1 1 3 / 1 2 1 /", "c0", "0:0 1:0 1:1 2:0 2:2"),
    (
        "1 1 3 / 1 1 3 / 1 1 1 /",
        "c0 c1",
        "0:0 0:1 1:0 1:1 2:0 2:1 2:2",
    ),
    (
        "1 1 1 / 1 1 3 / 1 1 1 /",
        "c0 c1 c2",
        "0:0 0:1 0:2 1:0 1:1 2:0 2:1 2:2",
    ),
    (
        "0 1 1 / 1 1 3 / 1 1 1 /",
        "c1 c2",
        "0:1 0:2 1:0 1:1 2:0 2:1 2:2",
    ),
    ("0 0 0 / 1 1 3 / 1 1 1 /", "", "1:0 1:1 2:0 2:1 2:2"),
    ("11 01 10 /", "", ""),
    ("", "", ""),
    ("/ / /", "", ""),
];

#[test]
fn finds_texts(rt: HostRuntime) {
    let alloc = rt.alloc();
    for &(table, columns, cells) in ONES {
        assert!(rt; finds(alloc, Locator::column(one(alloc)), table, columns));
        assert!(rt; finds(alloc, Locator::content(one(alloc)), table, cells));
        let by = Locator::by(|text| text == "1");
        assert!(rt; finds(alloc, by, table, cells));
    }
}

#[test]
fn holds_one_place(rt: HostRuntime) {
    let alloc = rt.alloc();
    for &(table, longest, first, last) in &[
        ("a / ccc / bb / ddd /", "1:0", "0:0", "3:0"),
        ("a b / c d /", "0:0", "0:0", "1:1"),
        ("a bb ccc /", "0:2", "0:0", "0:2"),
        ("/ / /", "", "", ""),
    ] {
        let longer = Locator::value(Segment::all(), |text, held| text.len() > held.len());
        assert!(rt; finds(alloc, longer, table, longest));
        let never = Locator::value(Segment::all(), |_, _| false);
        assert!(rt; finds(alloc, never, table, first));
        let always = Locator::value(Segment::all(), |_, _| true);
        assert!(rt; finds(alloc, always, table, last));
    }
}

/// Counts a question, and answers whether the count is odd.
fn is_odd(asked: &Cell<u8>) -> bool {
    asked.set(asked.get().wrapping_add(1));
    asked.get() & 1 == 1
}

#[test]
fn asks_for_each_text_once(rt: HostRuntime) {
    let alloc = rt.alloc();
    let table = "a b c / d e f /";
    let asked = Cell::new(0);
    let odd = Locator::by(|_| is_odd(&asked));
    assert!(rt; finds(alloc, odd, table, "0:0 0:2 1:1"));
    assert!(rt; asked.get() == 6);
    let asked = Cell::new(0);
    let odd = Locator::value(Segment::all(), |_, _| is_odd(&asked));
    assert!(rt; finds(alloc, odd, table, "1:2"));
    assert!(rt; asked.get() == 5);
}

#[test]
fn always_and_never_says_yes(rt: HostRuntime) {
    let alloc = rt.alloc();
    for &(table, all) in &[
        ("é \u{20AC} / \u{1F633} d /", "0:0 0:1 1:0 1:1"),
        ("", ""),
        ("/ / /", ""),
    ] {
        assert!(rt; finds(alloc, Locator::by(|_| true), table, all));
        assert!(rt; finds(alloc, Locator::by(|_| false), table, ""));
    }
}

/// What a location finds in a table.
fn located<L>(alloc: Global, mut location: L, table: &str) -> Result<Vec<L::Coordinate>, AllocError>
where
    L: Location<Flat> + Drop,
    L::Coordinate: Drop,
    <L::IntoIter as IntoIterator>::IntoIter: Drop,
    requires { L.can_locate location }
{
    let table = flat(alloc, table)?;
    coordinates(alloc, &mut location, &table)
}

/// Whether a location finds these rows or columns in a table.
fn locates<L>(alloc: Global, location: L, table: &str, want: &[usize]) -> bool
where
    L: Location<Flat, Coordinate = usize> + Drop,
    <L::IntoIter as IntoIterator>::IntoIter: Drop,
    requires { L.can_locate location }
{
    match located(alloc, location, table) {
        Ok(found) => found.as_slice() == want,
        Err(_) => false,
    }
}

#[test]
fn locates_rows_and_columns(rt: HostRuntime) {
    let alloc = rt.alloc();
    let cases: &[(&str, &[usize], usize)] = &[
        ("1 1 / 1 1 /", &[1], 1),
        ("1 1 1 / 1 1 1 / 1 1 1 /", &[1, 2], 2),
        ("", &[], 0),
    ];
    for &(table, behind, last) in cases {
        assert!(rt; locates(alloc, Rows::new(1..), table, behind));
        assert!(rt; locates(alloc, Columns::new(1..), table, behind));
        assert!(rt; locates(alloc, Rows::first(), table, &[0]));
        assert!(rt; locates(alloc, Columns::first(), table, &[0]));
        assert!(rt; locates(alloc, Rows::last(), table, &[last]));
        assert!(rt; locates(alloc, Columns::last(), table, &[last]));
        assert!(rt; locates(alloc, Rows::one(7), table, &[7]));
        assert!(rt; locates(alloc, Columns::one(7), table, &[7]));
    }
}

/// Whether these are the marks of what a location finds below a count.
fn marked<L>(alloc: Global, mut location: L, count: usize, want: &[bool]) -> bool
where
    L: Location<EmptyRecords, Coordinate = usize> + Drop,
    <L::IntoIter as IntoIterator>::IntoIter: Drop,
    requires { L.can_locate location }
{
    match marks(alloc, &mut location, &EmptyRecords::new(3, 3), count) {
        Ok(marks) => marks.as_slice() == want,
        Err(_) => false,
    }
}

#[test]
fn marks_rows_and_columns_of_any_range(rt: HostRuntime) {
    let alloc = rt.alloc();
    let cases: &[(usize, usize, usize, &[bool])] = &[
        (1, 3, 3, &[false, true, true]),
        (0, usize::MAX, 2, &[true, true]),
        (2, usize::MAX, 4, &[false, false, true, true]),
        (7, usize::MAX, 2, &[false, false]),
        (0, usize::MAX, 0, &[]),
    ];
    for &(start, end, count, want) in cases {
        assert!(rt; marked(alloc, Rows::new(start..end), count, want));
        assert!(rt; marked(alloc, Columns::new(start..end), count, want));
    }
    assert!(rt; marked(alloc, Rows::new(..=usize::MAX), 2, &[true, true]));
    assert!(rt; marked(alloc, Columns::new(..=usize::MAX), 2, &[true, true]));
    assert!(rt; marked(alloc, Rows::last(), 3, &[false, false, true]));
    assert!(rt; marked(alloc, Columns::one(usize::MAX), 2, &[false, false]));
}

/// Whether a location finds these places in a table.
fn locates_places<L>(alloc: Global, location: L, table: &str, want: &[Position]) -> bool
where
    L: Location<Flat, Coordinate = Position> + Drop,
    <L::IntoIter as IntoIterator>::IntoIter: Drop,
    requires { L.can_locate location }
{
    match located(alloc, location, table) {
        Ok(found) => found.as_slice() == want,
        Err(_) => false,
    }
}

#[test]
fn locates_texts(rt: HostRuntime) {
    let alloc = rt.alloc();
    let (first, second) = (Position::new(0, 0), Position::new(0, 1));
    let cases: &[(&str, &[usize], &[Position])] = &[
        ("1 1 /", &[0, 1], &[first, second]),
        ("1 /", &[0], &[first]),
        ("/ / /", &[], &[]),
    ];
    for &(table, columns, places) in cases {
        assert!(rt; locates(alloc, Locator::column(one(alloc)), table, columns));
        assert!(rt; locates_places(alloc, Locator::content(one(alloc)), table, places));
        assert!(rt; locates_places(alloc, Locator::by(|_| true), table, places));
    }
}
