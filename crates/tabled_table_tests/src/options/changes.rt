//! What options do to the table `a b / c d`.

use super::testing::{apply, listed, two_rows};
use std::alloc::{AllocError, Global};
use tabled_grid::config::{Entity, SpannedConfig};
use tabled_options::{EmptySettings, Modify, Settings, TableOption, TextRef};
use tabled_select::object::{Cell, Rows};
use tabled_testing::{Flat, spells};

/// Whether an option makes these texts of the table.
fn makes<O>(alloc: Global, option: O, want: &str) -> bool
where
    O: TableOption<Flat, SpannedConfig, ()> + Drop,
    requires { O.can_change option }
{
    let Ok(mut store) = two_rows(alloc) else {
        return false;
    };
    let mut spans = SpannedConfig::new(alloc);
    let done = apply(alloc, option, &mut store, &mut spans, &mut ());
    done == Ok::<(), AllocError>(()) && spells(alloc, &store, want)
}

#[test]
fn changes_tables(rt: HostRuntime) {
    let alloc = rt.alloc();
    let settings = Settings::empty()
        .modify(Cell::new(0, 0), TextRef("x"))
        .modify(Rows::one(1), TextRef("y"));
    assert!(rt; makes(alloc, settings, "x b / y y /"));
    assert!(rt; makes(alloc, EmptySettings, "a b / c d /"));
}

#[test]
fn changes_what_objects_list(rt: HostRuntime) {
    let alloc = rt.alloc();
    let cases: &[(&[Entity], &str)] = &[
        (&[], "a b / c d /"),
        (&[Entity::Row(1)], "a b / y y /"),
        (&[Entity::Column(1)], "a y / c y /"),
        (&[Entity::Cell(0, 0), Entity::Cell(0, 2)], "y b / c d /"),
        (
            &[Entity::Row(0), Entity::Row(0), Entity::Cell(5, 5)],
            "y y / c d /",
        ),
        (&[Entity::Global], "y y / y y /"),
    ];
    for &(entities, want) in cases {
        let pair = Modify::list(listed(alloc, entities), (TextRef("x"), TextRef("y")));
        assert!(rt; makes(alloc, pair, want));
        let settings = Settings::new(TextRef("x"), TextRef("y"));
        assert!(rt; makes(alloc, Modify::list(listed(alloc, entities), settings), want));
    }
}
