//! Cells, rows, columns, blocks and the frame.

use super::named::names;
use std::ops::Bound::{Excluded, Included, Unbounded};
use tabled_grid::config::Position;
use tabled_select::object::{Cell, Column, Columns, Frame, LastColumnOffset, Row, Rows, Segment};

#[test]
fn names_cells(rt: HostRuntime) {
    let alloc = rt.alloc();
    for &(row, col, shape, want) in &[(1, 100, (2, 3), "1:100"), (1, 1, (0, 0), "1:1")] {
        let cell = Cell::new(row, col);
        assert!(rt; names(alloc, cell, shape, want));
        assert!(rt; names(alloc, Position::from(cell), shape, want));
        assert!(rt; names(alloc, (row, col), shape, want));
    }
}

#[test]
fn names_ranges(rt: HostRuntime) {
    let alloc = rt.alloc();
    for &(from, to, shape, rows, columns) in &[
        (Unbounded, Unbounded, (2, 3), "r0 r1", "c0 c1 c2"),
        (Unbounded, Unbounded, (2, 0), "r0 r1", ""),
        (Unbounded, Unbounded, (0, 0), "", ""),
        (Unbounded, Unbounded, (0, 3), "", ""),
        (Included(2), Unbounded, (0, 0), "", ""),
        (Included(3), Unbounded, (0, 0), "", ""),
        (Included(1), Unbounded, (2, 3), "r1", "c1 c2"),
        (Included(2), Unbounded, (2, 3), "", "c2"),
        (Included(2), Excluded(3), (2, 3), "r2", "c2"),
        (Included(0), Excluded(1), (2, 3), "r0", "c0"),
        (Included(1), Excluded(2), (2, 3), "r1", "c1"),
        (
            Included(1),
            Included(4),
            (2, 3),
            "r1 r2 r3 r4",
            "c1 c2 c3 c4",
        ),
        (Included(3), Unbounded, (2, 3), "", ""),
        (Included(3), Excluded(1), (2, 3), "", ""),
        (Excluded(1), Unbounded, (4, 1), "r2 r3", ""),
        (Included(usize::MAX), Included(usize::MAX), (2, 3), "", ""),
    ] {
        assert!(rt; names(alloc, Rows::new((from, to)), shape, rows));
        assert!(rt; names(alloc, Columns::new((from, to)), shape, columns));
    }
    for &(start, end, rows, columns) in &[(1, 5, "r1 r2 r3 r4", "c1 c2 c3 c4"), (3, 1, "", "")] {
        assert!(rt; names(alloc, Rows::new(start..end), (4, 1), rows));
        assert!(rt; names(alloc, Columns::new(start..end), (4, 1), columns));
    }
    assert!(rt; names(alloc, Rows::new(usize::MAX..=usize::MAX), (4, 1), ""));
    assert!(rt; names(alloc, Columns::new(usize::MAX..=usize::MAX), (4, 1), ""));
}

#[test]
fn names_rows_from_either_end(rt: HostRuntime) {
    let alloc = rt.alloc();
    for &(n, shape, after_first, before_last, after_last) in &[
        (0, (5, 2), "r0", "r4", "r4"),
        (1, (5, 2), "r1", "r3", "r5"),
        (2, (5, 2), "r2", "r2", "r6"),
        (3, (5, 2), "r3", "r1", "r7"),
        (4, (5, 2), "r4", "r0", "r8"),
        (5, (5, 2), "r5", "", "r9"),
        (100, (5, 2), "r100", "", "r104"),
        (usize::MAX, (5, 2), "r18446744073709551615", "", ""),
        (0, (100, 2), "r0", "r99", "r99"),
        (1, (0, 0), "r1", "", ""),
        (1, (0, 2), "r1", "", ""),
        (1, (5, 0), "r1", "", ""),
    ] {
        assert!(rt; names(alloc, Rows::first() + n, shape, after_first));
        assert!(rt; names(alloc, Rows::last() - n, shape, before_last));
        assert!(rt; names(alloc, Rows::last() + n, shape, after_last));
    }
}

#[test]
fn names_columns_from_either_end(rt: HostRuntime) {
    let alloc = rt.alloc();
    for &(n, shape, after_first, before_last, after_last) in &[
        (0, (5, 2), "c0", "c1", "c1"),
        (1, (5, 2), "c1", "c0", "c2"),
        (2, (5, 2), "c2", "", "c3"),
        (100, (5, 2), "c100", "", "c101"),
        (0, (2, 5), "c0", "c4", "c4"),
        (1, (2, 5), "c1", "c3", "c5"),
        (4, (2, 5), "c4", "c0", "c8"),
        (5, (2, 5), "c5", "", "c9"),
        (usize::MAX, (2, 5), "c18446744073709551615", "", ""),
        (0, (5, 29), "c0", "c28", "c28"),
        (1, (0, 0), "c1", "", ""),
        (1, (2, 0), "c1", "", ""),
        (1, (5, 0), "c1", "", ""),
        (1, (0, 5), "c1", "", ""),
    ] {
        assert!(rt; names(alloc, Columns::first() + n, shape, after_first));
        assert!(rt; names(alloc, Columns::last() - n, shape, before_last));
        assert!(rt; names(alloc, Columns::last() + n, shape, after_last));
    }
}

#[test]
fn names_one_row_or_column(rt: HostRuntime) {
    let alloc = rt.alloc();
    for &(shape, first_row, last_row, first_column, last_column) in &[
        ((5, 2), "r0", "r4", "c0", "c1"),
        ((5, 29), "r0", "r4", "c0", "c28"),
        ((100, 2), "r0", "r99", "c0", "c1"),
        ((0, 0), "", "", "", ""),
        ((5, 0), "", "", "", ""),
        ((0, 5), "", "", "", ""),
    ] {
        assert!(rt; names(alloc, Rows::first(), shape, first_row));
        assert!(rt; names(alloc, Rows::last(), shape, last_row));
        assert!(rt; names(alloc, Columns::first(), shape, first_column));
        assert!(rt; names(alloc, Columns::last(), shape, last_column));
    }
    assert!(rt; names(alloc, Rows::one(7), (2, 3), "r7"));
    assert!(rt; names(alloc, Columns::one(7), (2, 3), "c7"));
}

#[test]
fn names_the_frame(rt: HostRuntime) {
    for &(shape, want) in &[
        ((2, 3), "0:0 0:1 0:2 1:0 1:1 1:2"),
        ((3, 3), "0:0 0:1 0:2 1:0 1:2 2:0 2:1 2:2"),
        ((0, 0), ""),
        ((2, 0), ""),
        ((0, 2), ""),
        ((1, 1), "0:0"),
        ((1, 3), "0:0 0:1 0:2"),
        ((3, 1), "0:0 1:0 2:0"),
        ((4, 4), "0:0 0:1 0:2 0:3 1:0 1:3 2:0 2:3 3:0 3:1 3:2 3:3"),
    ] {
        assert!(rt; names(rt.alloc(), Frame, shape, want));
    }
}

#[test]
fn names_blocks(rt: HostRuntime) {
    let (all, from_1) = ((Unbounded, Unbounded), (Included(1), Unbounded));
    let (from_2, from_3) = ((Included(2), Unbounded), (Included(3), Unbounded));
    let (from_5, one) = ((Included(5), Unbounded), (Included(1), Excluded(2)));
    for &(rows, columns, want) in &[
        (all, all, "0:0 0:1 0:2 1:0 1:1 1:2"),
        (from_1, all, "1:0 1:1 1:2"),
        (from_2, all, ""),
        (all, from_1, "0:1 0:2 1:1 1:2"),
        (all, from_2, "0:2 1:2"),
        (all, from_3, ""),
        (from_1, from_1, "1:1 1:2"),
        (one, one, "1:1"),
        (from_5, all, ""),
        (all, from_5, ""),
        (from_5, from_5, ""),
        (one, (Included(2), Excluded(4)), "1:2 1:3"),
    ] {
        let block = Segment::new(rows, columns);
        assert!(rt; names(rt.alloc(), block, (2, 3), want));
    }
    assert!(rt; names(rt.alloc(), Segment::all(), (0, 0), "all"));
}

#[test]
fn converts_and_compares(rt: HostRuntime) {
    assert_eq!(rt; usize::from(Row::from(3)), usize::from(Column::from(3)));
    assert_eq!(rt; Cell::default(), Cell::from(Position::new(0, 0)));
    assert_eq!(rt; LastColumnOffset::default(), Columns::last() - 0);
    assert!(rt; Cell::new(0, 9) < Cell::new(1, 0));
    assert!(rt; Columns::last() + 1 < Columns::last() - 2);
}
