//! Texts that are written, and steps after one another.

use super::case::ends;

const CASES: &[&str] = &[
    "a b c / | set all x | set !0 | set x b c / !0 | set x x c / !0 | x x x /",
    "a b c / | set first-row x | set !0 | set x b c / !0 | set x x c / !0 | x x x /",
    "a b / c d / | set and row 0 cell 1 1 x | set !0 | set x b / c d / !0 | set x x / c d / !0 | x x / c x /",
    "a b / | set content a x | set !0 | x b /",
    "a a / | set content a b | b b /",
    " | set all x; header N | in place | ",
    // Without columns nothing is found by its text.
    " | set name 1 x; set content 1 x | ",
    "/ / / | set name 1 x; set content 1 x | / / /",
    "1 2 3 / 4 5 6 / | dup last-column first-row | 1 2 1 / 4 5 2 /",
    "1 2 3 / 4 5 6 / | dup columns 0 2 first-row | 1 1 3 / 2 2 6 /",
    "a b / c d / | dup last-row first-row | set !0 | set a b / a d / !0 | a b / a b /",
    // Texts without control characters stay as they are, and aren't written.
    "a\u{7} b c\u{7} / | clean all | set !0 | set a b c\u{7} / !0 | a b c /",
    "a b / | set all p\\tq; clean all | set !0 | set p\tq b / !0 | set p\tq p\tq / !1 | set pq p\tq / !1 | pq pq /",
    "a b / | set all p\\tq; tabs 0 all | set !0 | set p\tq b / !0 | set p\tq p\tq / !1 | set pq p\tq / !1 | pq pq /",
    "abcde b / | wrap 3 all | set !0 | abc\nde b /",
    "abcde b / | wrap 5 all; wrap 0 column 1 | abcde _ /",
    "abcde b abc / | truncate 2 all | set !0 | set a\u{2026} b abc / !0 | a\u{2026} b a\u{2026} /",
    "abcde b / | truncate 5 all; truncate 0 column 1 | abcde _ /",
    "aba c ab / | replace a xy all | set !0 | set xybxy c ab / !0 | xybxy c xyb /",
    "aaa b / | replace aa b columns 0 2; replace c d all | ba b /",
    // Steps after one another, of which some are one.
    "a b / c d / |  | in place | a b / c d /",
    "a b / c d / | rotate top; split column 9 zip clean | in place | c d / a b /",
    "a b / | set cell 0 0 x + set cell 0 1 y | set !0 | set x b / !0 | x y /",
    "a b / | rotate left + header N | growth !0 | growth b / a / !0 | set b / a / !0 | N / b / a /",
    "a b / | set cell 0 0 x; set cell 0 1 y; vmerge | set !0 | set x b / !1 | x y /",
    "a b c d e / f g h i j / | set cell 0 0 A; set cell 1 0 F + split column 2 zip clean | growth A b c d e / F g h i j / !1 | growth A b c d e / F g h i j / !1 | growth A b c d e / F g h i j / !1 | growth A b c d e / F g h i j / !1 | growth A b c d e / F g h i j / !1 | set !0 | set A b c d e / f g h i j / !1 | A b / c d / e _ / F g / h i / j _ /",
    "a b / c d / | set and row 0 cell 1 1 x; dup first-column last-row; footer end | c x / x x / end _ / 2.0:1x2",
];

#[test]
fn writers(rt: HostRuntime) {
    for case in CASES.iter() {
        assert!(rt; ends(rt.alloc(), *case) == Some(true), "{case}");
    }
}
