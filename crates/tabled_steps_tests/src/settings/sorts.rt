//! Rows in the order of a column, by their own calls.

use super::tables::{makes_flat, makes_or_keeps};
use std::test::Fail;
use tabled_settings::sort::Sort;

#[test]
fn rows_are_sorted_by_texts(rt: HostRuntime) {
    let alloc = rt.alloc();
    for (old, sort, new) in [
        ("b 1 / a 2 / c 3 /", Sort::rows(0), "a 2 / b 1 / c 3 /"),
        (
            "b 1 / a 2 / c 3 /",
            Sort::rows(0).descending(),
            "c 3 / b 1 / a 2 /",
        ),
        ("n m / 10 x / 9 y /", Sort::rows(1), "n m / 10 x / 9 y /"),
        (
            "n m / y 2 / x 1 /",
            Sort::rows(1).index(1),
            "n m / x 1 / y 2 /",
        ),
        // A column that isn't there, and rows that aren't.
        ("b / a /", Sort::rows(0).index(1), "b / a /"),
        ("b / a /", Sort::rows(2), "b / a /"),
        ("b / a /", Sort::rows(usize::MAX), "b / a /"),
        ("", Sort::rows(0), ""),
    ] {
        assert!(rt; makes_flat(alloc, old, sort, new), "{old}");
    }
}

#[test]
fn rows_are_sorted_as_numbers(rt: HostRuntime) {
    let alloc = rt.alloc();
    let old = "n / 10 / x / -2 / 9.5 / y / 010 / -.5 /";
    for (sort, new) in [
        (
            Sort::rows(1).numbers(),
            "n / -2 / -.5 / 9.5 / 10 / 010 / x / y /",
        ),
        (
            Sort::rows(1).numbers().descending(),
            "n / 10 / 010 / 9.5 / -.5 / -2 / x / y /",
        ),
        (
            Sort::rows(3).numbers(),
            "n / 10 / x / -2 / -.5 / 9.5 / 010 / y /",
        ),
    ] {
        assert!(rt; makes_flat(alloc, old, sort, new));
    }
}

#[test]
fn long_numbers_are_sorted_exactly(rt: HostRuntime) {
    let old = "n / 1000000000000.1 / x / 1000000000000 / 0 / -.0000001 / -.0000002 /";
    for (sort, new) in [
        (
            Sort::rows(1).numbers(),
            "n / -.0000002 / -.0000001 / 0 / 1000000000000 / 1000000000000.1 / x /",
        ),
        (
            Sort::rows(1).numbers().descending(),
            "n / 1000000000000.1 / 1000000000000 / 0 / -.0000001 / -.0000002 / x /",
        ),
    ] {
        assert!(rt; makes_flat(rt.alloc(), old, sort, new));
    }
}

#[test]
fn equal_rows_keep_their_order(rt: HostRuntime) {
    let alloc = rt.alloc();
    let old = "b 1 / a 2 / b 3 / a 4 / b 5 /";
    assert!(rt; makes_flat(alloc, old, Sort::rows(0), "a 2 / a 4 / b 1 / b 3 / b 5 /"));
    let down = Sort::rows(0).descending();
    assert!(rt; makes_flat(alloc, old, down, "b 1 / b 3 / b 5 / a 2 / a 4 /"));
}

#[test]
fn rows_are_sorted_by_a_name(rt: HostRuntime) -> Result<(), Fail> {
    let alloc = rt.alloc();
    let old = "a n n / x 2 1 / y 1 2 /";
    let named = Sort::rows(1).name(String::from_str(alloc, "n")?).numbers();
    assert!(rt; makes_flat(alloc, old, named, "a n n / y 1 2 / x 2 1 /"));
    let unknown = Sort::rows(1).name(String::from_str(alloc, "m")?);
    assert!(rt; makes_flat(alloc, old, unknown, old));
    Ok(())
}

#[test]
fn merged_cells_go_along_with_sorted_rows(rt: HostRuntime) {
    let alloc = rt.alloc();
    for (old, sort, new) in [
        (
            "n m / y 2 / x 1 / 1.0:1x2",
            Sort::rows(1),
            "n m / x 1 / y 2 / 2.0:1x2",
        ),
        (
            "c 1 / a 2 / d 3 / 0.0:2x1",
            Sort::rows(0),
            "a 2 / c 1 / d 3 / 0.0:2x1",
        ),
        // Rows that come apart.
        (
            "d 1 / a 2 / b 3 / 0.0:2x1",
            Sort::rows(0),
            "a 2 / b 3 / d 1 /",
        ),
    ] {
        assert!(rt; makes_flat(alloc, old, sort, new), "{old}");
    }
}

// With ample memory nothing is refused. Where each allocation is refused in turn, the table stays as it was.
#[test]
fn keeps_the_table_at_a_refusal(rt: HostRuntime) {
    let alloc = rt.alloc();
    for (sort, new) in [
        (Sort::rows(1), "n m / x 10 / y 9 / 2.0:1x2"),
        (
            Sort::rows(1).index(1).numbers(),
            "n m / y 9 / x 10 / 1.0:1x2",
        ),
    ] {
        let old = "n m / y 9 / x 10 / 1.0:1x2";
        assert!(rt; makes_or_keeps(alloc, old, sort, new));
    }
}
