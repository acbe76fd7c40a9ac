//! Parts of tables that are kept or taken away.

ghost use Rattle.std.specs.Prelude.{◌≡◌};

use super::tables::{makes_flat, makes_nested, makes_refusing};
use std::alloc::{AllocError, Global};
use tabled_grid::records::GridStore;
use tabled_select::location::Location;
use tabled_select::object::{Column, Columns};
use tabled_settings::disable::Remove;
use tabled_settings::extract::Extract;

#[test]
fn ranges_to_the_end_are_kept(rt: HostRuntime) {
    let (alloc, old) = (rt.alloc(), "a b / c d /");
    assert!(rt; makes_flat(alloc, old, Extract::segment(0..9, 1..), "b / d /"));
    assert!(rt; makes_flat(alloc, old, Extract::rows(5..), ""));
    assert!(rt; makes_flat(alloc, old, Extract::columns(5..), "/ /"));
    assert!(rt; makes_flat(alloc, old, Extract::rows(..=usize::MAX), old));
    assert!(rt; makes_flat(alloc, old, Extract::columns(1..=usize::MAX), "b / d /"));
    let (old, new) = ("a b c / d e f / 0.1:1x2", "b c / e f / 0.0:1x2");
    assert!(rt; makes_flat(alloc, old, Extract::columns(1..), new));
    assert!(rt; makes_nested(alloc, old, Extract::columns(1..), new));
}

#[test]
fn one_column_is_removed(rt: HostRuntime) {
    for &(old, new) in &[
        ("", ""),
        ("/ /", "/ /"),
        ("a /", "/"),
        ("a b / c d /", "a / c /"),
        ("a b c / d e f / 0.0:2x2", "a b / d e / 0.0:2x2"),
    ] {
        let last = Remove::column(Columns::last());
        assert!(rt; makes_nested(rt.alloc(), old, last, new), "{old}");
        let last = Remove::column(Columns::last());
        assert!(rt; makes_refusing(rt.alloc(), (1, 1), old, last, new), "{old}");
    }
    let second = Remove::column(Column::from(1));
    let old = "a b c / d e f / 0.0:1x3";
    assert!(rt; makes_flat(rt.alloc(), old, second, "a c / d f /"));
}

/// Indexes that are told, whatever the table.
#[derive(Clone, Copy)]
struct Told(&'static [usize]);

impl<R: GridStore> Location<R> for Told {
    type Coordinate = usize;

    type IntoIter = Vec<usize>;

    ghost locates = { λ told _ found. found ≡ told.0.now };

    ghost can_locate = { λ _. Unit {0} };

    fn locate(&mut self, alloc: Global, _records: &R) -> Result<Vec<usize>, AllocError> {
        Vec::from_slice(alloc, self.0)
    }
}

#[test]
fn told_rows_and_columns_are_removed(rt: HostRuntime) {
    let cases = &[
        (Told(&[0, 2, 0, 9]), "q / s /", "q s /"),
        (Told(&[3, 2, 1]), "p /", "p /"),
        (Told(&[usize::MAX, 1, usize::MAX]), "p / r / s /", "p r s /"),
        (Told(&[]), "p / q / r / s /", "p q r s /"),
    ];
    for &(told, rows, columns) in cases {
        assert!(rt; makes_flat(rt.alloc(), "p / q / r / s /", Remove::row(told), rows));
        assert!(rt; makes_flat(rt.alloc(), "p q r s /", Remove::column(told), columns));
        assert!(rt; makes_nested(rt.alloc(), "p / q / r / s /", Remove::row(told), rows));
        assert!(rt;
            makes_refusing(
                rt.alloc(),
                (1, 1),
                "p q r s /",
                Remove::column(told),
                columns
            )
        );
    }
}
