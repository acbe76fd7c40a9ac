//! Tables that are joined.

use super::case::ends;

const CASES: &[&str] = &[
    "a b / | concat vertical - 2 2 x y z w | a b / x y / z w /",
    "/ / | concat vertical - 1 1 x | - / - / x /",
    " | concat vertical - 1 2 x y | x y /",
    "a / b / | concat horizontal - 1 1 x | growth !0 | set !0 | a x / b _ /",
    "/ / | concat horizontal - 1 1 x | x / _ /",
    " | concat horizontal - 1 2 x y | x y /",
    // So many rows and columns are added, and so many texts written. Cells that the second table lacks aren't.
    "a / | concat vertical - 1 2 x y | growth !0 | growth !0 | set !0 | set !0 | set !0 | a - / x y /",
    "a / | concat vertical - 1 3 x y z | growth !0 | growth !0 | growth !0 | set !0 | set !0 | set !0 | set !0 | set !0 | a - - / x y z /",
    "a / | concat horizontal - 2 2 x y z w | growth !0 | growth !0 | growth !0 | set !0 | set !0 | set !0 | set !0 | set !0 | a x y / - z w /",
    "a b / | concat horizontal - 2 1 x y | growth !0 | growth !0 | set !0 | set !0 | set !0 | set !0 | a b x / - - y /",
    "a b / | concat vertical - 1 1 x | growth !0 | set !0 | a b / x _ /",
    // Merged cells stay, or come apart where they share a cell.
    "a b / 0.0:1x2 | concat vertical - 1 3 x y z | a b - / x y z / 0.0:1x2",
    "a b / 0.0:1x2 0.1:1x2 | concat vertical - 1 3 x y z | a b - / x y z /",
    "a / b / 0.0:2x1 | concat horizontal - 1 1 x | a x / b _ / 0.0:2x1",
    "a b / 0.0:1x2 | concat vertical - 1 1 x | growth !0 | set !0 | a b / x _ / 0.0:1x2",
    "a b c / 0.0:1x2 | concat vertical - 1 1 x | growth !0 | set !0 | a b c / x _ _ / 0.0:1x2",
];

#[test]
fn joins(rt: HostRuntime) {
    for case in CASES.iter() {
        assert!(rt; ends(rt.alloc(), *case) == Some(true), "{case}");
    }
}
