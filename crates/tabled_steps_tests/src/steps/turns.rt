//! Tables that are turned, and rows or columns that are reversed.

use super::case::ends;

const CASES: &[&str] = &[
    "a b c / d e f / | rotate left | c f / b e / a d /",
    "a b c / d e f / | rotate right | d a / e b / f c /",
    "a b c / d e f / | rotate top | d e f / a b c /",
    "a b c / d e f / | rotate bottom | d e f / a b c /",
    "/ / | rotate left | ",
    "/ / | rotate right | ",
    "/ / | rotate top | / /",
    " | rotate left | ",
    // Two growths, where there are more rows or more columns.
    "a b c / | rotate left | growth !0 | growth !0 | c / b / a /",
    "a b c / | rotate right | growth !0 | growth !0 | a / b / c /",
    "a / b / c / | rotate left | growth !0 | growth !0 | a b c /",
    "a / b / c / | rotate right | growth !0 | growth !0 | c b a /",
    "a b / c d / | rotate left | in place | b d / a c /",
    "a b / c d / | rotate top | in place | c d / a b /",
    "a b / c d / | rotate bottom | in place | c d / a b /",
    "a / b / c / | rotate bottom | in place | c / b / a /",
    // Merged cells are turned, too.
    "a b c / d e f / 0.0:1x2 | rotate left | c f / b e / a d / 1.0:2x1",
    "a b c / d e f / 0.0:1x2 | rotate right | d a / e b / f c / 0.1:2x1",
    "a b c / d e f / 1.1:1x2 | rotate right | d a / e b / f c / 1.0:2x1",
    "a b c / d e f / 0.0:1x2 | rotate top | d e f / a b c / 1.0:1x2",
    "a b / c d / 0.0:2x2 | rotate left | b d / a c / 0.0:2x2",
    "a b c / 0.0:1x2 | rotate left | growth !0 | growth !0 | c / b / a / 1.0:2x1",
    "a b c / 0.0:1x2 | rotate right | growth !0 | growth !0 | a / b / c / 0.0:2x1",
    "a b c / 0.0:1x2 | rotate top | in place | a b c / 0.0:1x2",
    "a / b / c / 0.0:2x1 | rotate right | growth !0 | growth !0 | c b a / 0.1:1x2",
    "a b / c d / 0.0:1x2 | rotate top | in place | c d / a b / 1.0:1x2",
    // Those that share a cell or leave the table come apart.
    "a b c / 0.0:1x2 0.1:1x2 | rotate top | a b c /",
    "a b c / 0.0:1x3 0.1:1x2 | rotate bottom | a b c /",
    "a b c / 0.0:1x2 0.2:1x2 | rotate bottom | a b c / 0.0:1x2",
    // Reversals.
    "a / b / c / | reverse rows 0 end 0 | in place | c / b / a /",
    "a b c / d e f / | reverse columns 1 end 0 | in place | a c b / d f e /",
    "123 456 789 / | reverse columns 0 end 1 | in place | 456 123 789 /",
    "123 456 789 / | reverse columns 0 end 4 | in place | 123 456 789 /",
    "a b c / | reverse columns 1 end 2 | in place | a b c /",
    "a / b / c / | reverse rows 0 start 2 | in place | b / a / c /",
    "a / b / c / | reverse rows 1 start 2 | in place | a / c / b /",
    "a / b / c / | reverse rows 1 start 3 | in place | a / b / c /",
    "/ / | reverse rows 0 end 0 | in place | / /",
    "/ / | reverse columns 0 end 0 | in place | / /",
    " | reverse rows 0 end 0 | in place | ",
    "a b c / d e f / 0.0:2x1 | reverse columns 0 end 0 | c b a / f e d / 0.2:2x1",
    "a b c d / 0.1:1x2 | reverse columns 0 end 0 | d c b a / 0.1:1x2",
    "a b c d e / 0.0:1x2 0.2:1x3 | reverse columns 0 end 0 | e d c b a / 0.0:1x3 0.3:1x2",
    "a b c / 0.0:1x2 | reverse columns 0 end 0 | in place | c b a / 0.1:1x2",
    "a / b / c / 0.0:2x1 | reverse rows 0 end 0 | c / b / a / 1.0:2x1",
    "a b c / 0.0:1x2 | reverse columns 1 end 0 | a c b /",
    "a b c / 0.0:1x3 | reverse columns 0 start 2 | b a c / 0.0:1x3",
    "a b c / 0.0:1x2 0.1:1x2 | reverse columns 3 end 0 | a b c / 0.0:1x2 0.1:1x2 meeting",
];

#[test]
fn turns(rt: HostRuntime) {
    for case in CASES.iter() {
        assert!(rt; ends(rt.alloc(), *case) == Some(true), "{case}");
    }
}
