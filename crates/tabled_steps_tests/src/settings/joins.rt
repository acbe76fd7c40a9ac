//! Tables that are joined to others without rows or columns, or with no text for what the first one lacks.

use super::tables::{makes_flat, makes_nested};
use std::alloc::{AllocError, Global};
use std::test::Fail;
use tabled_grid::records::Axis;
use tabled_settings::concat::Concat;
use tabled_table::Table;
use tabled_testing::flat;

/// The join of a second table, below or on the right.
fn join(alloc: Global, axis: Axis, second: &str) -> Result<Concat, AllocError> {
    let second = Table::from_records(alloc, flat(alloc, second)?);
    Ok(match axis {
        Axis::Rows => Concat::vertical(alloc, second),
        Axis::Columns => Concat::horizontal(alloc, second),
    })
}

#[test]
fn tables_without_cells_are_joined(rt: HostRuntime) -> Result<(), Fail> {
    let alloc = rt.alloc();
    for &(old, axis, second, new) in &[
        ("a b /", Axis::Rows, "/", "a b / _ _ /"),
        ("a b /", Axis::Rows, "", "a b /"),
        ("a b /", Axis::Columns, "/ /", "a b / - - /"),
        ("", Axis::Columns, "", ""),
    ] {
        let dash = String::from_str(alloc, "-")?;
        let concat = join(alloc, axis, second)?.default_cell(dash);
        assert!(rt; makes_flat(alloc, old, concat, new), "{old}");
        let dash = String::from_str(alloc, "-")?;
        let concat = join(alloc, axis, second)?.default_cell(dash);
        assert!(rt; makes_nested(alloc, old, concat, new), "{old}");
    }
    Ok(())
}

#[test]
fn the_default_cell_is_empty(rt: HostRuntime) -> Result<(), Fail> {
    let alloc = rt.alloc();
    for &(axis, second, new) in &[
        (Axis::Rows, "x y /", "a _ / x y /"),
        (Axis::Columns, "x / y /", "a x / _ y /"),
    ] {
        assert!(rt; makes_flat(alloc, "a /", join(alloc, axis, second)?, new));
    }
    Ok(())
}
