//! Spans of columns and of rows, and merges of equal neighbours.

use super::case::ends;

/// Spans of size 1 or more, which go over visible cells.
const OVER_VISIBLE: &[&str] = &[
    // A height, a width beside it, and a width that is cut at the table's end.
    "a b c / d e f / g h i / | rspan 2 cell 0 0; cspan 2 cell 0 1; cspan 1000 cell 2 0 | in place | a b c / d e f / g h i / 0.0:2x1 0.1:1x2 2.0:1x3",
    // A width takes the place of an anchor that it covers.
    "a b c / d e f / | rspan 2 cell 0 0; cspan 2 cell 1 1; cspan 2 cell 0 0 | in place | a b c / d e f / 0.0:2x2",
    // None crosses another rectangle.
    "a b c / d e f / | rspan 2 cell 0 1; cspan 2 cell 1 0 | in place | a b c / d e f / 0.1:2x1",
    "a b / c d / e f / | cspan 2 cell 1 0; rspan 3 cell 0 1 | in place | a b / c d / e f / 1.0:1x2",
    // Another size at an anchor is set by way of size 1.
    "a b c / | cspan 2 cell 0 0; cspan 3 cell 0 0; rspan 1 cell 0 0 | in place | a b c / 0.0:1x2",
    "a b c / | cspan 2 cell 0 0; cspan 1 cell 0 0; cspan 3 cell 0 0 | in place | a b c / 0.0:1x3",
    // Hidden anchors go at once, after the last cell.
    "a b c d / e f g h / | rspan 2 cell 0 0; cspan 2 cell 1 1; cspan 2 all | in place | a b c d / e f g h / 0.0:2x2 0.2:1x2",
    // Each cell by the map as it then stands.
    "a b c / d e f / g h i / | cspan 2 all | in place | a b c / d e f / g h i / 0.0:1x2 1.0:1x2 2.0:1x2",
    "_ _ _ / _ _ _ / _ _ _ / | cspan 2 all | _ _ _ / _ _ _ / _ _ _ / 0.0:1x2 1.0:1x2 2.0:1x2",
    "a b c / d e f / g h i / | rspan 2 all | in place | a b c / d e f / g h i / 0.0:2x1 0.1:2x1 0.2:2x1",
    "a b c / d e f / g h i / | rspan 2 cell 1 2; cspan 10000 all | in place | a b c / d e f / g h i / 0.0:1x3 1.0:1x3",
    "a b c / d e f / g h i / | cspan 2 cell 2 1; rspan 10000 all | in place | a b c / d e f / g h i / 0.0:3x1 0.1:3x1",
    "a b c / d e f / g h i / | rspan 3 cell 0 2; cspan 10000 row 1 | in place | a b c / d e f / g h i / 0.2:3x1",
    "a b c / | cspan 2 cell 0 1; rspan 9 all | in place | a b c / 0.1:1x2",
    // Rows, columns and places, also outside.
    "a b c / d e f / | rspan 2 row 0; cspan 2 column 1 | in place | a b c / d e f / 0.0:2x1 0.1:2x2",
    "a b c / | cspan 2 cell 0 3; rspan 2 column 10000; cspan 10000 cell 0 1 | in place | a b c / 0.1:1x2",
    "/ / | cspan 2 all; rspan 0 all | in place | / /",
    " | cspan 2 all; rspan 2 all | in place | ",
    "a b c / | cspan 2 all | in place | a b c / 0.0:1x2",
    "a / b / | rspan 2 cell 0 0 | in place | a / b / 0.0:2x1",
];

#[test]
fn spans_go_over_visible_cells(rt: HostRuntime) {
    for case in OVER_VISIBLE.iter() {
        assert!(rt; ends(rt.alloc(), *case) == Some(true), "{case}");
    }
}

/// Spans of size 0 and below, which go over all cells.
const OVER_ALL: &[&str] = &[
    "a b c / | cspan -1 row 0 | b c _ / 0.0:1x2",
    "a b c / | cspan 0 row 0 | _ _ _ / 0.0:1x3",
    "a b c / | cspan -0 cell 0 1 | b _ _ / 0.0:1x3",
    "a / b / c / | rspan -1 column 0 | b / c / _ / 0.0:2x1",
    "a / b / c / | rspan 0 cell 1 0 | set !0 | set b / b / c / !0 | set b / _ / c / !0 | b / _ / _ / 0.0:3x1",
    "0 1 2 / 1 2 3 / 4 5 6 / | cspan 100 cell 0 0; cspan 2 cell 1 1; cspan -1 cell 2 1 | 0 1 2 / 1 2 3 / 5 _ 6 / 0.0:1x3 1.1:1x2 2.0:1x2",
    "0 1 2 / 1 2 3 / 4 5 6 / | rspan 100 cell 0 0; rspan 2 cell 1 1; rspan -1 cell 2 2 | 0 1 2 / 1 2 6 / 4 5 _ / 0.0:3x1 1.1:2x1 1.2:2x1",
    // No test is made.
    "a b / c d / | rspan 2 cell 0 1; cspan -1 cell 1 1 | a b / d _ / 0.1:2x1 1.0:1x2 meeting",
    // Hidden anchors go.
    "a b c / | cspan 2 cell 0 1; cspan 0 cell 0 2 | c _ _ / 0.0:1x3",
    "a b c / | cspan -10000 cell 0 2 | set !0 | set c b c / !0 | set c _ c / !0 | c _ _ / 0.0:1x3",
    "a / b / c / | rspan -10000 cell 2 0 | c / _ / _ / 0.0:3x1",
    // In the first column a width goes.
    "a b / | cspan 2 cell 0 0; cspan -1 cell 0 0 | a b /",
    "a / | cspan 0 all; rspan 0 all | a /",
    "a b / | cspan -1 cell 0 2; rspan 0 row 1 | a b /",
    "a b c / | cspan -1 cell 0 2 | set !0 | set a c c / !0 | a c _ / 0.1:1x2",
    "a / b / c / | rspan -1 cell 2 0 | set !0 | set a / c / c / !0 | a / c / _ / 1.0:2x1",
    // Row by row, also for heights.
    "a b / c d / | rspan -1 all | set !0 | set !0 | set !0 | set c b / c d / !0 | set c b / _ d / !0 | set c d / _ d / !0 | c d / _ _ / 0.0:2x1 0.1:2x1",
    // Refused, the merged cells stay as they were, also hidden anchors.
    "a b c / 0.1:1x2 | cspan 0 cell 0 0 | set !0 | set !0 | set a _ c / 0.1:1x2 !0 | a _ _ / 0.0:1x3",
];

#[test]
fn spans_go_over_all_cells(rt: HostRuntime) {
    for case in OVER_ALL.iter() {
        assert!(rt; ends(rt.alloc(), *case) == Some(true), "{case}");
    }
}

const MERGES: &[&str] = &[
    // Runs of three, of two and of one.
    "a b / a c / a c / | vmerge | in place | a b / a c / a c / 0.0:3x1 1.1:2x1",
    "a a a / b c c / | hmerge | in place | a a a / b c c / 0.0:1x3 1.1:1x2",
    "a / a / a / a / b / | vmerge; vmerge | in place | a / a / a / a / b / 0.0:4x1",
    "a / a / b / b / b / a / | vmerge; vmerge | a / a / b / b / b / a / 0.0:2x1 2.0:3x1",
    "a / a / b / | vmerge | in place | a / a / b / 0.0:2x1",
    "a a b / | hmerge | in place | a a b / 0.0:1x2",
    // Equal texts that are no neighbours.
    "a / b / a / | vmerge; hmerge | in place | a / b / a /",
    // Empty texts are equal too.
    "_ _ / | hmerge | in place | _ _ / 0.0:1x2",
    // Rows and then columns: what the first merged, the second leaves.
    "a a / a a / | vmerge; hmerge | in place | a a / a a / 0.0:2x1 0.1:2x1",
    // Anchors and hidden cells end a run, and stay.
    "a / a / a / a / a / 2.0:1x2 | vmerge | in place | a / a / a / a / a / 0.0:2x1 2.0:1x2 3.0:2x1 meeting",
    "a a / a a / a a / a a / 2.0:1x2 | vmerge | in place | a a / a a / a a / a a / 0.0:2x1 0.1:2x1 2.0:1x2",
    "a a a / 0.0:1x2 | hmerge | in place | a a a / 0.0:1x2",
    // Of an entity, the runs among its cells: of a column the vertical ones, of a row the horizontal ones.
    "a a / a a / a b / | merge vertical column 0 | in place | a a / a a / a b / 0.0:3x1",
    "a a / a a / a b / | merge horizontal row 1 | in place | a a / a a / a b / 1.0:1x2",
    "a a / a a / a b / | merge vertical all | in place | a a / a a / a b / 0.0:3x1 0.1:2x1",
    "a a / a a / a b / | merge horizontal all | in place | a a / a a / a b / 0.0:1x2 1.0:1x2",
    "a a a / a a a / | merge vertical columns 1 3 | in place | a a a / a a a / 0.1:2x1 0.2:2x1",
    "a a / b b / | merge horizontal name a | in place | a a / b b /",
    "a a / a a / a a / | merge horizontal rows 0 9; merge vertical all | in place | a a / a a / a a / 0.0:1x2 1.0:1x2 2.0:1x2",
    "a / a / a / a / | merge vertical column 0; merge vertical column 0 | in place | a / a / a / a / 0.0:4x1",
    // Of several entities at once, also with merged cells there.
    "a a / b b / c c / | merge horizontal rows 0 2 | in place | a a / b b / c c / 0.0:1x2 1.0:1x2",
    "a a a / a a a / a a a / 0.0:2x1 1.2:2x1 | merge horizontal rows 0 3 | in place | a a a / a a a / a a a / 0.0:2x1 0.1:1x2 1.2:2x1 2.0:1x2",
    "a a / b b / c c / | merge horizontal step 2 rows 0 3 | in place | a a / b b / c c / 0.0:1x2 2.0:1x2",
    "a a b / a c b / d c b / | merge vertical skip 1 columns 0 3 | in place | a a b / a c b / d c b / 0.2:3x1 1.1:2x1",
    "a a a / a a a / 0.0:1x2 | merge vertical columns 0 3; merge horizontal rows 0 2 | in place | a a a / a a a / 0.0:1x2 0.2:2x1 1.0:1x2",
    "a / a / | merge vertical columns 0 1; merge horizontal rows 0 2 | in place | a / a / 0.0:2x1",
    // The other pairings, and what lies outside.
    "a a / a a / | merge vertical rows 0 2; merge horizontal columns 0 2; merge vertical frame; merge horizontal cell 0 0 | in place | a a / a a /",
    "a a / a a / | merge vertical column 2; merge horizontal row 10000 | in place | a a / a a /",
    // Anchors and hidden cells end a run.
    "a a / a a / a a / a a / 2.0:1x2 | merge vertical column 1 | in place | a a / a a / a a / a a / 0.1:2x1 2.0:1x2",
    "a a a a / b b b b / 0.1:2x1 | merge horizontal row 0; merge horizontal row 1 | in place | a a a a / b b b b / 0.1:2x1 0.2:1x2 1.2:1x2",
    // Without cells.
    " | vmerge; hmerge | in place | ",
    "a / | vmerge; hmerge | in place | a /",
];

#[test]
fn equal_neighbours_are_merged(rt: HostRuntime) {
    for case in MERGES.iter() {
        assert!(rt; ends(rt.alloc(), *case) == Some(true), "{case}");
    }
}
