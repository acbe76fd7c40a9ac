//! Merged cells: sizes set and read, and whether rectangles fit.

use Side::{Height, Width};
use std::alloc::{AllocError, Global};
use std::test::Fail;
use tabled_grid::config::{CoverMap, Position, Rectangle, Size, SpannedConfig};
use tabled_grid::records::Axis;
use tabled_testing::{merged, push_merged};
use tabled_uses::merged::{comes_apart, grows_by_one, has_room, is_merged_into};

/// Whether merged cells are spelled so.
fn is_spelled(alloc: Global, cfg: &SpannedConfig, want: &str) -> Result<bool, AllocError> {
    let mut words = String::new(alloc);
    push_merged(alloc, &mut words, cfg)?;
    Ok(words.as_str() == want)
}

#[derive(Clone, Copy)]
enum Side {
    Height(usize),
    Width(usize),
}

/// Sets a side of an anchor's rectangle, and answers its height and its width.
fn set(
    alloc: Global,
    cfg: &mut SpannedConfig,
    pos: Position,
    side: Side,
) -> Result<(Option<usize>, Option<usize>), AllocError> {
    match side {
        Height(height) => cfg.set_row_span(alloc, pos, height)?,
        Width(width) => cfg.set_column_span(alloc, pos, width)?,
    }
    Ok((cfg.get_row_span(pos), cfg.get_column_span(pos)))
}

#[test]
fn keeps_spans(rt: HostRuntime) -> Result<(), Fail> {
    let corner = Position::new(0, 0);
    let beside = Position::new(0, 1);
    let end = Position::new(usize::MAX, usize::MAX);
    let mut spans = SpannedConfig::new(rt.alloc());
    assert!(rt; spans.get_column_span(corner).is_none());
    for &(pos, side, sizes) in &[
        (corner, Width(0), (None, None)),
        (corner, Width(3), (None, Some(3))),
        (corner, Height(2), (Some(2), Some(3))),
        (end, Width(usize::MAX), (None, Some(usize::MAX))),
        (beside, Height(4), (Some(4), None)),
        (corner, Height(2), (Some(2), Some(3))),
        (end, Height(1), (None, Some(usize::MAX))),
        (corner, Width(1), (Some(2), None)),
    ] {
        assert!(rt; set(rt.alloc(), &mut spans, pos, side)? == sizes);
    }
    Ok(())
}

#[test]
fn lists_widths_and_heights(rt: HostRuntime) -> Result<(), Fail> {
    let corner = Position::new(0, 0);
    let beside = Position::new(1, 4);
    let below = Position::new(2, 0);
    let cases: &[(&str, &[(Position, usize)], &[(Position, usize)])] = &[
        ("", &[], &[]),
        ("2.0:3x1", &[], &[(below, 3)]),
        ("1.4:1x18446744073709551615", &[(beside, MAX)], &[]),
        // By their places, and those that became a cell again are none.
        ("2.0:2x2 0.0:1x3", &[(corner, 3), (below, 2)], &[(below, 2)]),
        ("0.0:2x2 0.0:1x2 1.4:2x2 1.4:1x1", &[(corner, 2)], &[]),
        (
            "0.0:2x3 1.4:1x2 2.0:2x1",
            &[(corner, 3), (beside, 2)],
            &[(corner, 2), (below, 2)],
        ),
    ];
    for &(old, widths, heights) in cases {
        let spans = merged(rt.alloc(), old)?;
        assert!(rt;
            spans.get_column_spans(rt.alloc())?.as_slice() == widths,
            "{old}"
        );
        assert!(rt;
            spans.get_row_spans(rt.alloc())?.as_slice() == heights,
            "{old}"
        );
    }
    Ok(())
}

/// Whether these are left where those are dropped that are hidden, and a copy keeps all.
fn drops(alloc: Global, old: &str, left: &str) -> Result<bool, AllocError> {
    let mut spans = merged(alloc, old)?;
    let copy = spans.copy(alloc)?;
    spans.drop_hidden();
    Ok(is_spelled(alloc, &spans, left)? && is_spelled(alloc, &copy, old)?)
}

// An anchor may be hidden by one that is hidden itself.
const CHAIN: &str = "0.0:1x2 0.1:1x2 0.2:1x2";

const TALL: &str = "0.1:3x1 1.0:1x2 2.1:1x4";

const APART: &str = "0.0:2x2 2.0:1x2";

#[test]
fn drops_all_that_are_hidden_at_once(rt: HostRuntime) -> Result<(), Fail> {
    for &(old, left) in &[
        (CHAIN, "0.0:1x2"),
        (TALL, "0.1:3x1 1.0:1x2"),
        (APART, APART),
        ("", ""),
    ] {
        assert!(rt; drops(rt.alloc(), old, left)?, "{old}");
    }
    Ok(())
}

/// Whether merged cells fit a table, and whether they do once those are dropped that are hidden.
fn fit(alloc: Global, old: &str, rows: usize, columns: usize) -> Result<(bool, bool), AllocError> {
    let mut spans = merged(alloc, old)?;
    let before = spans.fits(rows, columns);
    spans.drop_hidden();
    Ok((before, spans.fits(rows, columns)))
}

const MAX: usize = usize::MAX;

#[test]
fn fits_to_the_last_row_and_column(rt: HostRuntime) -> Result<(), Fail> {
    let far = "18446744073709551615.18446744073709551615:2x2";
    for &(old, rows, columns, fits) in &[
        (CHAIN, 1, 4, (false, true)),
        (CHAIN, 1, 1, (false, false)),
        (TALL, 3, 4, (false, false)),
        (APART, 3, 4, (true, true)),
        ("", 3, 4, (true, true)),
        ("2.1:1x3", 3, 4, (true, true)),
        ("2.1:1x3", 2, 4, (false, false)),
        ("2.1:1x3", 3, 3, (false, false)),
        ("0.0:1x2", 1, 1, (false, false)),
        ("0.0:1x2", 0, 0, (false, false)),
        (far, MAX, MAX, (false, false)),
    ] {
        assert!(rt; fit(rt.alloc(), old, rows, columns)? == fits, "{old}");
    }
    Ok(())
}

/// Whether these are left where those are dropped that don't fit a table: all, if all fit.
fn keeps_fitting(
    alloc: Global,
    old: &str,
    rows: usize,
    columns: usize,
    left: &str,
) -> Result<bool, AllocError> {
    let mut spans = merged(alloc, old)?;
    let all_fit = spans.fits(rows, columns);
    let fitting = spans.fitting(alloc, rows, columns)?;
    spans.keep_fitting(alloc, rows, columns)?;
    Ok(
        all_fit == (old == left)
            && spans.fits(rows, columns)
            && is_spelled(alloc, &spans, left)?
            && is_spelled(alloc, &fitting, left)?,
    )
}

#[test]
fn keeps_what_lies_inside_and_apart(rt: HostRuntime) -> Result<(), Fail> {
    let touching = "0.0:2x2 0.2:1x2 1.2:1x2 2.0:1x4";
    let outside = "0.0:1x2 0.3:1x2 1.0:2x1";
    let far =
        "18446744073709551613.0:2x2 18446744073709551615.0:1x2 18446744073709551615.18446744073709551615:2x2";
    let wide = "0.0:1x18446744073709551615 0.18446744073709551615:1x18446744073709551615";
    for &(old, rows, columns, left) in &[
        (touching, 3, 4, touching),
        (touching, 2, 4, "0.0:2x2 0.2:1x2 1.2:1x2"),
        (outside, 3, 4, "0.0:1x2 1.0:2x1"),
        (outside, 2, 4, "0.0:1x2"),
        (far, MAX, MAX, "18446744073709551613.0:2x2"),
        (wide, 1, MAX, "0.0:1x18446744073709551615"),
        (wide, 1, 1, ""),
        ("", 0, 0, ""),
        // Some share cells.
        ("0.0:2x2 0.2:1x2 1.1:2x2", 3, 4, "0.2:1x2"),
        ("0.0:1x2 0.1:1x2", 1, 3, ""),
        // The second one, which goes anyhow, takes the first one along.
        ("0.0:1x2 0.1:1x9", 1, 3, ""),
        ("0.0:1x2 0.1:1x2 0.2:1x2 0.4:1x2", 1, 6, "0.4:1x2"),
        ("0.0:3x3 1.1:1x2 3.0:1x3", 4, 3, "3.0:1x3"),
        // Of those beside the tall one, some reach it, and some end before it or begin after it.
        (
            "0.2:4x1 0.3:1x2 1.0:1x2 2.0:1x4 3.3:2x1",
            5,
            5,
            "0.3:1x2 1.0:1x2 3.3:2x1",
        ),
    ] {
        assert!(rt;
            keeps_fitting(rt.alloc(), old, rows, columns, left)?,
            "{old}"
        );
    }
    Ok(())
}

#[derive(Clone, Copy)]
enum Call {
    RowSpan,
    ColumnSpan,
    Sizes,
    Copy,
    Fitting,
    KeepFitting,
    Widths,
    Heights,
    Cover,
    CoverBlock,
}

fn make(alloc: Global, cfg: &mut SpannedConfig, call: Call) -> Result<(), AllocError> {
    let pos = Position::new(1, 3);
    let size = Size {
        height: 2,
        width: 2,
    };
    match call {
        Call::RowSpan => cfg.set_row_span(alloc, pos, 2),
        Call::ColumnSpan => cfg.set_column_span(alloc, pos, 2),
        Call::Sizes => cfg.set_sizes(alloc, &[Rectangle { first: pos, size }]),
        Call::Copy => {
            cfg.copy(alloc)?;
            Ok(())
        }
        Call::Fitting => {
            cfg.fitting(alloc, 1, 2)?;
            Ok(())
        }
        Call::KeepFitting => cfg.keep_fitting(alloc, 1, 2),
        Call::Widths => {
            cfg.get_column_spans(alloc)?;
            Ok(())
        }
        Call::Heights => {
            cfg.get_row_spans(alloc)?;
            Ok(())
        }
        Call::Cover => {
            CoverMap::new(alloc, cfg, 4, 4)?;
            Ok(())
        }
        Call::CoverBlock => {
            let size = Size {
                height: 4,
                width: 4,
            };
            let first = Position::new(1, 0);
            CoverMap::of_block(alloc, cfg, Rectangle { first, size })?;
            Ok(())
        }
    }
}

/// Makes a call on merged cells, and says whether they are as they were if it is refused.
fn keeps(alloc: Global, call: Call) -> Result<bool, AllocError> {
    let old = "0.0:1x2 2.1:2x1";
    let mut spans = merged(alloc, old)?;
    Ok(make(alloc, &mut spans, call).is_ok() || is_spelled(alloc, &spans, old)?)
}

// With ample memory nothing is refused. `.ci/test_refusals` runs this and refuses each allocation in turn.
#[test]
fn keeps_merged_cells_at_a_refusal(rt: HostRuntime) {
    for &call in &[
        Call::RowSpan,
        Call::ColumnSpan,
        Call::Sizes,
        Call::Copy,
        Call::Fitting,
        Call::KeepFitting,
        Call::Widths,
        Call::Heights,
        Call::Cover,
        Call::CoverBlock,
    ] {
        // Where the merged cells themselves are refused, there is nothing to compare.
        assert!(rt; keeps(rt.alloc(), call) != Ok(false));
    }
}

#[test]
fn rectangles_tell_where_they_lie(rt: HostRuntime) -> Result<(), Fail> {
    let alloc = rt.alloc();
    let pos = Position::new(1, 1);
    let size = Size {
        height: 2,
        width: 2,
    };
    let here = Rectangle { first: pos, size };
    let beside = Rectangle {
        first: Position::new(1, 3),
        size: Size::CELL,
    };
    assert!(rt; has_room(here, beside, 3, 4));
    assert!(rt; !has_room(here, here, 3, 4));
    assert!(rt; !has_room(here, beside, 2, 4));
    assert!(rt; is_merged_into(here, Position::new(2, 2)));
    assert!(rt; !is_merged_into(here, Position::new(3, 2)));
    assert!(rt; !is_merged_into(beside, Position::new(1, 3)));

    let mut cfg = SpannedConfig::new(alloc);
    grows_by_one(alloc, &mut cfg, Axis::Rows, pos)?;
    grows_by_one(alloc, &mut cfg, Axis::Columns, pos)?;
    assert!(rt; cfg.size(pos) == size);
    comes_apart(&mut cfg, alloc, pos)?;
    assert!(rt; cfg.rectangles().is_empty());
    Ok(())
}
