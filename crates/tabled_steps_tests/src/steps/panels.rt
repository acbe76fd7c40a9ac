//! Panels.

use super::case::ends;

const PANELS: &[&str] = &[
    // One after another: the second and the third cross none.
    "0 1 2 / 1 2 3 / 4 5 6 / | vpanel 1 S; header N; hpanel 2 x | N _ _ _ / 0 S 1 2 / 1 _ 2 3 / 4 _ 5 6 / 0.0:1x4 1.1:3x1",
    // First, last and in between.
    "a b / c d / | hpanel 0 P | P _ / a b / c d / 0.0:1x2",
    "a b / c d / | hpanel 1 P | a b / P _ / c d / 1.0:1x2",
    "a b / c d / | hpanel 2 P | a b / c d / P _ / 2.0:1x2",
    "a b / c d / | vpanel 1 P | growth !0 | set !0 | a P b / c _ d / 0.1:2x1",
    "a b / c d / | vpanel 2 P | growth !0 | set !0 | a b P / c d _ / 0.2:2x1",
    "a b / | header N | growth !0 | set !0 | N _ / a b / 0.0:1x2",
    "a b / | footer N | growth !0 | set !0 | a b / N _ / 1.0:1x2",
    "a / b / | vpanelw 0 2 xyz | growth !0 | set !0 | xy\nz a / _ b / 0.0:2x1",
    // One cell is no merged cell.
    "a / | footer N | a / N /",
    "a / | vpanel 0 N | N a /",
    // Past the end, and on tables without rows or columns.
    "a b / | hpanel 2 P; vpanel 3 P | in place | a b /",
    "a b / | hpanel 5 P | in place | a b /",
    "a / c / | hpanel 3 P; vpanel 2 P | in place | a / c /",
    " | header N; footer N; vpanel 0 N | ",
    "/ / | header N; footer N; hpanel 1 N | in place | / /",
    "/ / | vpanel 0 N | N / _ / 0.0:2x1",
    // Two panels in one line.
    "a b / | header N; header M | M _ / N _ / a b / 0.0:1x2 1.0:1x2",
    // Anchors from the line on go further, all at once, and others stay.
    "a b / c d / e f / 0.0:2x1 0.1:2x1 | header N | N _ / a b / c d / e f / 0.0:1x2 1.0:2x1 1.1:2x1",
    "a b / c d / 0.0:2x1 | header N | growth !0 | set !0 | N _ / a b / c d / 0.0:1x2 1.0:2x1",
    "a b c d / 0.0:1x2 0.2:1x2 | vpanel 2 P | a b P c d / 0.0:1x2 0.3:1x2",
    "a b / c d / 0.0:1x2 | hpanel 1 P | growth !0 | set !0 | a b / P _ / c d / 0.0:1x2 1.0:1x2",
    "a b / c d / 0.0:1x2 | hpanel 0 P | growth !0 | set !0 | P _ / a b / c d / 0.0:1x2 1.0:1x2",
    "a b / c d / 0.1:2x1 | vpanel 1 P | growth !0 | set !0 | a P b / c _ d / 0.1:2x1 0.2:2x1",
    // Merged cells that begin before the line hold a cell of it: wide and high ones alike, and outside of the
    // table too.
    "a b / c d / 0.0:2x2 | hpanel 1 P; vpanel 1 P | a b / c d / 0.0:2x2",
    "a / c / 0.1:2x1 | hpanel 1 P | a / c / 0.1:2x1 meeting",
    "a b / 0.1:2x1 | footer P | a b / 0.1:2x1 meeting",
    // An anchor in the last row that there can be goes away.
    "a b / 18446744073709551615.0:1x2 | header N | N _ / a b / 0.0:1x2",
];

#[test]
fn panels(rt: HostRuntime) {
    for case in PANELS.iter() {
        assert!(rt; ends(rt.alloc(), *case) == Some(true), "{case}");
    }
}

/// Texts that are cut to a width.
const WIDTHS: &[&str] = &[
    "a / | vpanelw 0 3 123456789 | 123\n456\n789 a /",
    "a / | vpanelw 0 2 123456789 | 12\n34\n56\n78\n9 a /",
    "a / | vpanelw 0 1 123456789 | 1\n2\n3\n4\n5\n6\n7\n8\n9 a /",
    "a / | vpanelw 0 9 123456789 | 123456789 a /",
    // No text, and no width.
    "a / | vpanelw 0 3  | _ a /",
    "a / | vpanelw 0 0 abc | _ a /",
    // Lines are cut each by itself, and empty ones stay; a carriage return takes a column.
    "a / | vpanelw 0 3 a\r\\n | a\r\n a /",
    "a / | vpanelw 0 2 abcd\\nef\\n\\ng | ab\ncd\nef\n\ng a /",
    "a / | vpanelw 0 2 ab\\ncd | ab\ncd a /",
    "a / | vpanelw 0 1 a\r\\n | a\n\r\n a /",
    // A wide character that doesn't fit becomes a replacement character, which ends its piece.
    "a / | vpanelw 0 1 a\u{1F633} | a\n\u{FFFD} a /",
    "a / | vpanelw 0 2 a\u{1F633} | a\u{FFFD} a /",
    "a / | vpanelw 0 2 a\u{1F633}b | a\u{FFFD}\nb a /",
    "a / | vpanelw 0 2 a\u{1F633}\u{301}b | a\u{FFFD}\u{301}\nb a /",
    "a / | vpanelw 0 3 \u{1F633}\u{1F633} | \u{1F633}\u{FFFD} a /",
    "a / | vpanelw 0 2 \u{1F633}b | \u{1F633}\nb a /",
    // A character without columns stays with the one before it.
    "a / | vpanelw 0 2 ae\u{301}b | ae\u{301}\nb a /",
    "a / | vpanelw 0 1 \u{301}ab | \u{301}a\nb a /",
];

#[test]
fn texts_are_cut_to_a_width(rt: HostRuntime) {
    for case in WIDTHS.iter() {
        assert!(rt; ends(rt.alloc(), *case) == Some(true), "{case}");
    }
}
