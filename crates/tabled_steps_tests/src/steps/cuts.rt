//! Tables that are cut: rows or columns split, parts kept, and lines taken away.

use super::case::ends;
use std::test::Fail;

const SPLITS: &[&str] = &[
    "a b c d e / f g h i j / | split column 2 zip retain | growth !0 | growth !0 | growth !0 | growth !0 | growth !0 | a b / c d / e _ / f g / h i / j _ /",
    "a b c d e / f g h i j / | split column 2 zip clean | growth !0 | growth !0 | growth !0 | growth !0 | growth !0 | a b / c d / e _ / f g / h i / j _ /",
    "a b c d e / f g h i j / | split column 2 concat clean | growth !0 | growth !0 | growth !0 | growth !0 | growth !0 | a b / f g / c d / h i / e _ / j _ /",
    "a b c d e / f g h i j / | split column 2 concat retain | growth !0 | growth !0 | growth !0 | growth !0 | growth !0 | a b / f g / c d / h i / e _ / j _ /",
    // Each three rows are joined and cut at five.
    "a b c d e / f g h i j / | split column 2 zip retain; split row 1 concat retain; split column 6 zip retain; extract 0 2 0 5 | a b c d e / f g h i j /",
    "a b c d e / f g h i j / | split column 4 zip clean | a b c d / e _ _ _ / f g h i / j _ _ _ /",
    "a b c d e / f g h _ _ / | split column 3 zip clean | a b c / d e _ / f g h /",
    "a b c d e / f g h _ _ / | split column 3 zip retain | a b c / d e _ / f g h / _ _ _ /",
    "_ _ x / | split column 2 zip clean | _ _ / x _ /",
    "_ _ x / _ _ _ / | split column 2 concat clean | _ _ / _ _ / x _ /",
    "a _ _ d / e f _ _ / | split column 1 concat clean | a / e / f / d /",
    "a _ _ d / e f _ _ / | split column 1 zip clean | a / d / e / f /",
    "a _ _ d / e f _ _ / | split column 1 zip retain | a / _ / _ / d / e / f / _ / _ /",
    "a _ _ d / e f _ _ / | split column 1 concat retain | a / e / _ / f / _ / _ / d / _ /",
    "a / b / c / | split row 2 zip clean | a c / b _ /",
    "a / b / c / | split row 2 zip retain | growth !0 | growth !0 | a c / b _ /",
    "a b / c d / | split row 1 concat clean | growth !0 | growth !0 | a b c d /",
    "a b c d e / f g h i j / | split row 1 zip clean | a f b g c h d i e j /",
    "a b c d e / f g h i j / | split row 1 concat clean | a b c d e f g h i j /",
    "a x / b y / c z / d _ / e _ / | split row 2 zip clean | a c e x z / b d _ y _ /",
    "a x / b y / c z / d _ / e _ / | split row 2 concat clean | a x c z e / b y d _ _ /",
    "a x / b y / c z / d _ / e _ / | split row 2 zip retain | a c e x z _ / b d _ y _ _ /",
    "a x / b y / c z / d _ / e _ / | split row 2 concat retain | a x c z e _ / b y d _ _ _ /",
    "_ / _ / x / | split row 2 zip clean | _ x / _ _ /",
    "a _ / b _ / c _ / | split row 2 zip clean | growth !0 | growth !0 | growth !0 | a c _ / b _ _ /",
    "a _ / b _ / c _ / | split row 2 concat clean | growth !0 | growth !0 | growth !0 | a _ c / b _ _ /",
    "a _ / b _ / c _ / | split row 2 zip retain | growth !0 | growth !0 | growth !0 | a c _ _ / b _ _ _ /",
    "a _ / b _ / c _ / | split row 2 concat retain | growth !0 | growth !0 | growth !0 | a _ c _ / b _ _ _ /",
    "a b / | split column 9 zip clean | in place | a b /",
    // Merged cells that stay in one piece, or fill pieces, stay merged.
    "a b c d / 0.0:1x2 0.2:1x2 | split column 2 zip clean | a b / c d / 0.0:1x2 1.0:1x2",
    "a b c d / 0.1:1x2 | split column 2 zip clean | a b / c d /",
    "a b c / 0.0:1x2 | split column 1 zip clean | a / b / c / 0.0:2x1",
    "a b c d / 0.0:1x4 | split column 2 zip clean | a b / c d / 0.0:2x2",
    "a b c d / e f g h / 0.2:2x2 | split column 2 zip clean | a b / c d / e f / g h /",
    "a b c d / e f g h / 0.2:2x2 | split column 2 concat clean | a b / e f / c d / g h / 2.0:2x2",
    "a / b / c / d / 0.0:4x1 | split row 2 zip clean | a c / b d / 0.0:2x2",
    "a e / b f / c g / d h / 2.0:2x2 | split row 2 concat clean | a e c g / b f d h / 0.2:2x2",
    "a b _ _ / 0.0:1x2 0.2:1x2 | split column 2 zip clean | a b / 0.0:1x2",
    "a b _ _ / 0.0:1x2 0.2:1x2 | split column 2 zip retain | a b / _ _ / 0.0:1x2 1.0:1x2",
    "a b _ _ c d / 0.0:1x2 0.4:1x2 | split column 2 zip clean | a b / c d / 0.0:1x2 1.0:1x2",
    "a b / 0.0:1x2 0.1:1x2 | split column 2 zip clean | a b / 0.0:1x2 0.1:1x2 meeting",
    "a b c / 0.0:1x2 | split column 2 zip clean | growth !0 | growth !0 | a b / c _ / 0.0:1x2",
    "a b c / 0.0:1x2 | split column 2 concat retain | growth !0 | growth !0 | a b / c _ / 0.0:1x2",
];

#[test]
fn splits(rt: HostRuntime) {
    for case in SPLITS.iter() {
        assert!(rt; ends(rt.alloc(), *case) == Some(true), "{case}");
    }
}

/// Steps of which none changes a table without rows or columns of more than 5 cells.
const STAY: &str = "split column 0 zip clean; split column 0 concat clean; split row 0 zip retain; \
    split row 0 zip clean; split column 5 zip clean; split column 5 concat clean; \
    split row 5 zip retain; split row 5 zip clean; split column 6 zip clean; \
    split column 6 concat clean; split row 6 zip retain; split row 6 zip clean";

#[test]
fn tables_without_longer_lines_stay(rt: HostRuntime) -> Result<(), Fail> {
    let alloc = rt.alloc();
    for &table in &[
        "",
        "/ /",
        "a /",
        "a b c /",
        "a / b / c /",
        "a b c d e / f g h i j /",
    ] {
        for step in STAY.split("; ") {
            let case = format!(in alloc; "{table} | {step} | in place | {table}")?;
            assert!(rt; ends(alloc, case.as_str()) == Some(true), "{case}");
        }
    }
    Ok(())
}

const PARTS: &[&str] = &[
    "a b / c d / | extract 1 2 0 1 | in place | c /",
    "a b c / d e f / g h i / | extract 1 3 1 2 | in place | e / h /",
    "a b / c d / | extract 2 1 0 2 | in place | ",
    "a b / c d / | extract 0 2 2 1 | in place | / /",
    "a b / c d / | extract 1 1 0 2 | in place | ",
    "a b / c d / | extract 5 9 0 2 | in place | ",
    "a b / c d / | extract 0 1 5 9 | in place | /",
    "a b / c d / | extract 0 1 1 9 | in place | b /",
    "/ / | extract 1 2 0 1 | in place | /",
    " | extract 0 1 0 1 | in place | ",
    "a b c / d e f / | extract 0 2 3 3; rotate left | ",
    "a b c / d e f / 0.1:1x2 | extract 0 9 1 9 | b c / e f / 0.0:1x2",
    "a b c / d e f / 0.0:1x2 | extract 0 9 1 9 | b c / e f /",
    "a b c / d e f / 0.0:2x3 | extract 0 9 0 9 | a b c / d e f / 0.0:2x3",
    "a b c / 0.0:1x2 | extract 0 1 0 2 | in place | a b / 0.0:1x2",
    // Rows and columns that go.
    "p / q / r / s / | remove rows 1 3 | in place | p / s /",
    "p / q / r / s / | remove rows 3 1 | in place | p / q / r / s /",
    "p / q / r / s / | remove rows 2 9 | in place | p / q /",
    "p / q / r / s / | remove rows 4 9 | in place | p / q / r / s /",
    "p q / r s / | remove rows 0 9 | in place | ",
    "a / b / | remove rows 0 1 | in place | b /",
    "/ / | remove rows 0 1 | in place | /",
    "a b c / | remove columns 1 9 | in place | a /",
    "a b a / | remove named a | in place | b /",
    "a b a / p q r / | remove named a; remove columns 5 9 | b / q /",
    "a b c / d e f / 0.0:1x3 | remove columns 1 2 | a c / d f /",
    "a b / c d / e f / 0.0:1x2 2.0:1x2 | remove rows 1 2 | a b / e f / 0.0:1x2 1.0:1x2",
    "a b / c d / e f / 0.0:1x2 2.0:1x2 | remove rows 0 1 | c d / e f / 1.0:1x2",
    "a b c / 0.0:1x2 | remove columns 2 3 | in place | a b / 0.0:1x2",
];

#[test]
fn parts(rt: HostRuntime) {
    for case in PARTS.iter() {
        assert!(rt; ends(rt.alloc(), *case) == Some(true), "{case}");
    }
}
