//! Merged cells: which cells they hide.

ghost use Rattle.std.specs.Prelude.{◌≡◌};
ghost use Rattle.tabled_grid.specs.Entity.{place};
ghost use Rattle.tabled_grid.specs.Spans.{rectangle, sized};

use std::alloc::{AllocError, Global};
use std::test::Fail;
use tabled_grid::config::{CoverMap, Position, Rectangle, Size, SpannedConfig};
use tabled_testing::merged;

/// Whether a cell is visible, and whether a rectangle covers it from the left, and from above.
fn told(cfg: &SpannedConfig, row: usize, col: usize) -> (bool, bool, bool) {
    let pos = Position::new(row, col);
    let across = cfg.is_cell_covered_by_column_span(pos);
    let down = cfg.is_cell_covered_by_row_span(pos);
    (cfg.is_cell_visible(pos), across, down)
}

#[test]
fn tells_which_cells_are_covered(rt: HostRuntime) -> Result<(), Fail> {
    let spans = merged(rt.alloc(), "1.1:2x3")?;
    for &(row, col, covered) in &[
        (1, 1, (true, false, false)),
        (1, 3, (false, true, false)),
        (2, 1, (false, false, true)),
        (2, 2, (false, false, false)),
        (1, 4, (true, false, false)),
        (3, 1, (true, false, false)),
        (0, 1, (true, false, false)),
    ] {
        assert!(rt; told(&spans, row, col) == covered, "{row} {col}");
    }
    Ok(())
}

/// Which cells of the rows and columns 0 and 1 are hidden, row by row.
fn hidden(alloc: Global, spans: &str) -> Result<[bool; 4], AllocError> {
    let cover = CoverMap::new(alloc, &merged(alloc, spans)?, 2, 2)?;
    Ok([
        cover.is_hidden(Position::new(0, 0)),
        cover.is_hidden(Position::new(0, 1)),
        cover.is_hidden(Position::new(1, 0)),
        cover.is_hidden(Position::new(1, 1)),
    ])
}

#[test]
fn keeps_which_cells_are_hidden(rt: HostRuntime) -> Result<(), Fail> {
    for &(spans, cells) in &[
        ("0.0:3x1 0.1:1x9 5.5:2x2", [false, false, true, false]),
        ("0.0:2x2", [false, true, true, true]),
        ("18446744073709551615.18446744073709551615:2x2", [false; 4]),
    ] {
        assert!(rt; hidden(rt.alloc(), spans)? == cells, "{spans}");
    }
    Ok(())
}

#[test]
fn refuses_a_large_block_past_the_largest_number(rt: HostRuntime) -> Result<(), Fail> {
    let spans = merged(rt.alloc(), "18446744073709551613.18446744073709551613:2x2")?;
    let last = Position::new(usize::MAX - 1, usize::MAX - 1);
    let cell = Rectangle {
        first: last,
        size: Size::CELL,
    };
    let nine_cells = Rectangle {
        first: Position::new(usize::MAX - 9, usize::MAX - 9),
        size: Size {
            height: 3,
            width: 3,
        },
    };
    assert!(rt; CoverMap::of_block(rt.alloc(), &spans, cell)?.is_hidden(last));
    assert!(rt; CoverMap::of_block(rt.alloc(), &spans, nine_cells).is_err());
    assert!(rt; CoverMap::new(rt.alloc(), &spans, usize::MAX, 2).is_err());
    Ok(())
}

/// An anchor: its row and column, and the height and the width of its rectangle.
type Anchor = (usize, usize, usize, usize);

/// Sets the sizes of an anchor, which a map of hidden cells follows.
fn follow(
    alloc: Global,
    cfg: &mut SpannedConfig,
    cover: &mut CoverMap,
    anchor: Anchor,
) -> Result<(), AllocError>
    ensures block { cover.new.block ≡ cover.old.block }
{
    let (row, col, height, width) = anchor;
    let pos = Position::new(row, col);
    let old_height = cfg.get_row_span(pos).unwrap_or(1);
    let old_width = cfg.get_column_span(pos).unwrap_or(1);
    cfg.set_row_span(alloc, pos, height)?;
    cfg.set_column_span(alloc, pos, width)?;
    let old = Size {
        height: old_height,
        width: old_width,
    };
    cover.replace(pos, old, Size { height, width });
    Ok(())
}

/// Whether a map of 3 x 3 cells hides those that aren't visible.
fn hides(cover: &CoverMap, cfg: &SpannedConfig) -> bool
    requires block { cover.now.block ≡ rectangle (place 0 0) (sized 3 3) }
{
    for row in 0..3 {
        for col in 0..3 {
            let cell = Position::new(row, col);
            if cover.is_hidden(cell) == cfg.is_cell_visible(cell) {
                return false;
            }
        }
    }
    true
}

#[test]
fn follows_sizes_that_change(rt: HostRuntime) -> Result<(), Fail> {
    let mut spans = SpannedConfig::new(rt.alloc());
    let mut cover = CoverMap::new(rt.alloc(), &spans, 3, 3)?;
    let changes: [Anchor; 7] = [
        (0, 0, 1, 2),
        (0, 1, 3, 1),
        (0, 0, 2, 2),
        (1, 0, 1, 9),
        (0, 1, 1, 1),
        (7, 0, 2, 2),
        (0, 0, 1, 1),
    ];
    for anchor in changes {
        follow(rt.alloc(), &mut spans, &mut cover, anchor)?;
        assert!(rt; hides(&cover, &spans), "{anchor:?}");
    }
    Ok(())
}
