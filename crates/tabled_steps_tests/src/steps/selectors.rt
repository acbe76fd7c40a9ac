//! Selectors that are data: how many entities each kind names.

use super::worded::steps;
use std::alloc::Global;
use tabled_select::object::entities;
use tabled_steps::Step;
use tabled_testing::flat;

/// How many entities the selector of these words names in a table.
fn count(alloc: Global, words: &str) -> Option<usize> {
    let table = flat(alloc, "a b c / d e f / g h i /").ok()?;
    let line = format!(in alloc; "set {words} x").ok()?;
    match steps(alloc, line.as_str())?.pop()? {
        Step::Set(select, _) => Some(entities(alloc, &select, &table).ok()?.len()),
        _ => None,
    }
}

/// The words of a selector behind the number of the entities that it names.
const KINDS: &[&str] = &[
    "1: all",
    "1: cell 1 2",
    "1: row 1",
    "1: column 1",
    "1: first-row",
    "1: last-row",
    "1: first-column",
    "1: last-column",
    "1: last-row-minus 1",
    "1: last-row-plus 1",
    "1: last-column-minus 1",
    "1: last-column-plus 1",
    "2: rows 1 3",
    "2: columns 0 2",
    "4: segment 0 2 1 3",
    "8: frame",
    "1: content a",
    "1: name b",
    "5: and row 0 column 0",
    "2: not row 0 cell 0 0",
    "1: intersect row 0 column 0",
    "6: inverse row 0",
    "2: skip 1 rows 0 3",
    "2: step 2 rows 0 3",
];

/// Whether a selector names as many entities as stands before it.
fn names(alloc: Global, case: &str) -> Option<bool> {
    let (many, words) = case.split_once(": ")?;
    Some(count(alloc, words)? == many.parse::<usize>().ok()?)
}

#[test]
fn each_kind_names_its_entities(rt: HostRuntime) {
    for &case in KINDS {
        assert!(rt; names(rt.alloc(), case) == Some(true), "{case}");
    }
}
