//! What options hint at.

use super::testing::{Letter, Log};
use std::test::Fail;
use tabled_grid::config::Entity;
use tabled_options::{CellOption, Settings, TableOption, combine_entity};
use tabled_testing::Flat;

#[test]
fn combines_entities(rt: HostRuntime) {
    let cases = &[
        (Entity::Row(1), Entity::Cell(1, 2), Entity::Row(1)),
        (Entity::Row(1), Entity::Cell(2, 1), Entity::Global),
        (Entity::Row(1), Entity::Row(1), Entity::Row(1)),
        (Entity::Row(1), Entity::Row(0), Entity::Global),
        (Entity::Row(0), Entity::Column(0), Entity::Global),
        (Entity::Column(1), Entity::Cell(2, 1), Entity::Column(1)),
        (Entity::Column(1), Entity::Cell(1, 2), Entity::Global),
        (Entity::Column(1), Entity::Column(1), Entity::Column(1)),
        (Entity::Cell(1, 1), Entity::Cell(1, 1), Entity::Cell(1, 1)),
        (Entity::Cell(1, 1), Entity::Cell(1, 2), Entity::Global),
        (Entity::Global, Entity::Row(1), Entity::Global),
        (Entity::Global, Entity::Global, Entity::Global),
    ];
    for &(a, b, want) in cases {
        assert_eq!(rt; combine_entity(a, b), want, "{a:?} and {b:?}");
        assert_eq!(rt; combine_entity(b, a), want, "{b:?} and {a:?}");
    }
}

/// What an option on tables hints at.
fn hint_of<O: TableOption<Flat, Log, ()>>(option: &O) -> Option<Entity> {
    option.hint_change()
}

/// What an option on cells hints at.
fn cell_hint_of<O: CellOption<Flat, Log>>(option: &O) -> Option<Entity> {
    option.hint_change()
}

#[test]
fn hints_at_changes(rt: HostRuntime) {
    let (row, cell) = (Some(Entity::Row(0)), Some(Entity::Cell(0, 0)));
    let other = Some(Entity::Cell(0, 1));
    for &(first, second, third, left, right) in &[
        (None, None, None, None, None),
        (None, row, None, row, row),
        (row, None, None, row, row),
        (cell, other, row, Some(Entity::Global), row),
    ] {
        let [a, b, c] = [first, second, third].map(|hint| Letter::hinting('a', hint));
        assert!(rt; hint_of(&(a, b, c)) == left && cell_hint_of(&(a, b, c)) == left);
        assert!(rt; hint_of(&Settings::new(a, Settings::new(b, c))) == right);
    }
}

#[test]
fn pairs_and_vectors_hint(rt: HostRuntime) -> Result<(), Fail> {
    let row = Some(Entity::Row(1));
    let [none, other] = [None, row].map(|hint| Letter::hinting('a', hint));
    for &(first, second, want) in &[(none, other, row), (other, none, row), (none, none, None)] {
        assert!(rt; hint_of(&(first, second)) == want && cell_hint_of(&(first, second)) == want);
        let list = vec![in rt.alloc(); first, second]?;
        assert!(rt; hint_of(&list) == Some(Entity::Global));
    }
    Ok(())
}
