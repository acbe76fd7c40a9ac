//! Which cells are anchors, asked on a walk back over the rows of a table.

ghost use Rattle.std.specs.Prelude.{◌≡◌, not};
ghost use Rattle.tabled_grid.specs.Spans.{is_cell, size_at};
ghost use Rattle.tabled_spans.specs.RunSteps.{StandBelow};

use tabled_grid::config::{Position, SpannedConfig, search};

/// How many of the first n anchors stand in the rows up to one, where all others stand below it.
pub(super) fn up_to_row(cfg: &SpannedConfig, row: usize, many: usize) -> usize
    requires { StandBelow cfg.now row many }
    ensures { StandBelow cfg.now row result }
{
    let anchors = cfg.rectangles();
    let mut many = many;
    while many > 0 && anchors[many - 1].first.row > row {
        many -= 1;
    }
    many
}

/// Says whether a rectangle is anchored at a place, where all but the first n anchors stand in the rows below it.
///
/// It searches only where the last of those n doesn't stand above the place.
pub(super) fn is_anchor(cfg: &SpannedConfig, many: usize, pos: Position) -> bool
    requires { StandBelow cfg.now pos.row many }
    ensures { result ≡ not (is_cell (size_at cfg.now pos)) }
{
    let anchors = cfg.rectangles();
    if many == 0 || anchors[many - 1].first.row < pos.row {
        return false;
    }
    search(&anchors[..many], pos).is_ok()
}
