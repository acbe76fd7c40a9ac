//! Objects that repeat entities and leave the table, and ranges at the end of `usize`.

ghost use Rattle.std.specs.Prelude.{◌≡◌};

use super::tables::{exclaimed, makes_flat, makes_nested, makes_refusing};
use std::alloc::{AllocError, Global};
use std::vec;
use tabled_grid::config::Entity;
use tabled_grid::config::Offset::{End, Start};
use tabled_grid::records::GridStore;
use tabled_options::{Modify, TextRef};
use tabled_select::object::{Cell, EntityList, Object, ObjectIterator, Rows, entities};
use tabled_settings::disable::Remove;
use tabled_settings::duplicate::Dup;
use tabled_settings::extract::Extract;
use tabled_settings::format::Format;
use tabled_settings::reverse::Reverse;
use tabled_settings::split::Split;
use tabled_testing::{Flat, flat};

/// Names these entities, whatever the table.
#[derive(Clone, Copy)]
struct Told(&'static [Entity]);

impl<R: GridStore> Object<R> for Told {
    type Iter = vec::IntoIter<Entity>;

    ghost lists = { λ told _ entities. entities ≡ told.0.now };

    fn cells(&self, alloc: Global, records: &R) -> Result<vec::IntoIter<Entity>, AllocError> {
        EntityList(Vec::from_slice(alloc, self.0)?).cells(alloc, records)
    }
}

const MAX: usize = usize::MAX;

const REPEATS: Told = Told(&[
    Entity::Row(0),
    Entity::Row(0),
    Entity::Cell(5, 5),
    Entity::Global,
]);

#[test]
fn a_text_is_answered_anew_each_time_that_it_is_named(rt: HostRuntime) {
    let exclaimed = Modify::list(REPEATS, Format::content(exclaimed));
    assert!(rt; makes_flat(rt.alloc(), "a b /", exclaimed, "a!!! b!!! /"));
}

/// Whether an object names these entities of the table `a b`.
fn names<O>(alloc: Global, object: O, want: &[Entity]) -> Result<bool, AllocError>
where
    O: Object<Flat> + Drop,
    requires { O.can_list object }
{
    let store = flat(alloc, "a b /")?;
    Ok(entities(alloc, &object, &store)?.as_slice() == want)
}

#[test]
fn what_repeats_and_leaves_the_table_is_named_once_and_inside_it(rt: HostRuntime) {
    let alloc = rt.alloc();
    let cells = [Entity::Cell(0, 0), Entity::Cell(0, 1)];
    assert!(rt; names(alloc, REPEATS, REPEATS.0) == Ok(true));
    assert!(rt; names(alloc, REPEATS.and(REPEATS), &cells) == Ok(true));
    assert!(rt; names(alloc, Rows::new(MAX..=MAX), &[]) == Ok(true));
}

#[test]
fn what_lies_past_the_table_changes_nothing(rt: HostRuntime) {
    let (alloc, old) = (rt.alloc(), "a b / c d /");
    let last = Reverse::columns(MAX).limit(Start(1));
    assert!(rt; makes_flat(alloc, old, last, old));
    let last = Modify::list(Rows::new(MAX..=MAX), TextRef("x"));
    assert!(rt; makes_flat(alloc, old, last, old));
    for &(row, col) in &[(2, 0), (0, 2), (2, 2)] {
        let past = Cell::new(row, col);
        assert!(rt; makes_flat(alloc, old, Dup::new(past, Rows::first()), old));
        assert!(rt; makes_flat(alloc, old, Dup::new(Rows::first(), past), old));
    }
}

#[test]
fn ranges_from_or_to_the_end_of_usize_end_at_the_table(rt: HostRuntime) {
    let (alloc, old) = (rt.alloc(), "a b / c d /");
    assert!(rt; makes_flat(alloc, old, Extract::rows(MAX..), ""));
    for &(columns, new) in &[(1, "b / d /"), (MAX, "/ /")] {
        let part = Extract::segment(0..9, columns..MAX);
        assert!(rt; makes_nested(alloc, old, part, new));
        let part = Extract::segment(0..9, columns..MAX);
        assert!(rt; makes_refusing(alloc, (1, 1), old, part, new));
    }
    for &(first, new) in &[(0, ""), (1, "a b /")] {
        let rows = Remove::row(Rows::new(first..MAX));
        assert!(rt; makes_nested(alloc, old, rows, new));
        let rows = Remove::row(Rows::new(first..MAX));
        assert!(rt; makes_refusing(alloc, (1, 1), old, rows, new));
    }
}

#[test]
fn reversals_at_the_end_of_usize_change_nothing(rt: HostRuntime) {
    let alloc = rt.alloc();
    for &(old, reverse) in &[
        ("a b c /", Reverse::columns(0).limit(End(MAX))),
        ("a / b / c /", Reverse::rows(1).limit(Start(MAX))),
        ("a / b / c /", Reverse::rows(MAX)),
    ] {
        assert!(rt; makes_nested(alloc, old, reverse, old), "{old}");
        assert!(rt; makes_refusing(alloc, (1, 1), old, reverse, old), "{old}");
    }
}

#[test]
fn pieces_of_the_greatest_size_change_nothing(rt: HostRuntime) {
    for &old in &[
        "",
        "/ /",
        "a /",
        "a b c /",
        "a / b / c /",
        "a b c d e / f g h i j /",
    ] {
        for &split in &[
            Split::column(MAX),
            Split::column(MAX).concat(),
            Split::row(MAX),
            Split::row(MAX).retain(),
        ] {
            assert!(rt; makes_nested(rt.alloc(), old, split, old), "{old}");
            assert!(rt;
                makes_refusing(rt.alloc(), (1, 1), old, split, old),
                "{old}"
            );
        }
    }
}
