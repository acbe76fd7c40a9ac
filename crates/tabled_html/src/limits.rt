//! Which merged cells are written.

ghost use Rattle.std.specs.List.{filter};
ghost use Rattle.std.specs.Prelude.{◌≡◌, IfOk};
ghost use Rattle.tabled_grid.specs.Spans.{AreAnchors};
ghost use Rattle.tabled_html.specs.Limits.{is_within_limits, keep_within_limits, keep_written};

use std::alloc::{AllocError, Global};
use tabled_grid::config::{Rectangle, SpannedConfig};

/// A map of those merged cells alone that fit a table (`rows x columns`) and that HTML can say.
pub(crate) fn spans_written(
    alloc: Global,
    cfg: &SpannedConfig,
    rows: usize,
    columns: usize,
) -> Result<SpannedConfig, AllocError>
    ensures { IfOk result (λ spans. spans ≡ keep_written rows columns cfg.now) }
{
    let spans = cfg.fitting(alloc, rows, columns)?;
    Ok(within_limits(spans))
}

/// The map without the merged cells that HTML can't say.
fn within_limits(cfg: SpannedConfig) -> SpannedConfig
    ensures { result ≡ keep_within_limits cfg }
{
    let mut anchors = cfg.into_rectangles();
    drop_past_limits(&mut anchors);
    SpannedConfig::from_rectangles(anchors)
}

/// Removes the rectangles that take more columns or rows than the standard's limits.
fn drop_past_limits(anchors: &mut Vec<Rectangle>)
    requires { AreAnchors anchors.old.items }
    ensures left { anchors.new.items ≡ filter is_within_limits anchors.old.items }
    ensures anchors { AreAnchors anchors.new.items }
{
    anchors.retain(|anchor| anchor.size.width <= 1000 && anchor.size.height <= 65_534);
}
