//! Writers on tables whose merged cells lie inside and apart, which they keep, done or refused.

ghost use Rattle.std.specs.Prelude.{ℕ, [], ◌<◌, ◌≤◌, ◌∷◌};
ghost use Rattle.tabled_grid.specs.Midway.{Midway};
ghost use Rattle.tabled_grid.specs.Fitting.{Fits};
ghost use Rattle.tabled_grid.specs.Spans.{SpanMap};
ghost use Rattle.tabled_grid.specs.declared.config.position.Position.{Position};
ghost use Rattle.tabled_grid.specs.declared.records.axis.Axis.TheVariants as axis;
ghost use Rattle.tabled_spans.specs.Spanned.{grown_each};

use crate::geometry::changes;
use std::alloc::{AllocError, Global};
use tabled_grid::config::{Position, SpannedConfig};
use tabled_grid::records::{Axis, CellText, ExactRecords, PeekableRecords, Records, RecordsMut};
use tabled_select::object::{Columns, Rows};
use tabled_settings::duplicate::Dup;
use tabled_settings::format::Format;
use tabled_settings::formatting::Charset;
use tabled_settings::laws::{
    charsets_keep_merged_cells_fitting, duplicates_keep_merged_cells_fitting,
    formats_keep_merged_cells_fitting, positioned_formats_keep_merged_cells_fitting,
    replacements_keep_merged_cells_fitting, truncates_keep_merged_cells_fitting,
    wraps_keep_merged_cells_fitting,
};
use tabled_settings::replace::Replace;
use tabled_settings::width::Width;
use tabled_spans::laws::spans_fit_midway;

fn marked(alloc: Global, text: &str) -> Result<String, AllocError> {
    format!(in alloc; "{text}!")
}

fn placed(alloc: Global, text: &str, pos: Position) -> Result<String, AllocError> {
    format!(in alloc; "{text} {}:{}", pos.row, pos.col)
}

/// Writes every text anew by closures, then the texts of the first row in the last column, and cleans every text.
pub fn writes_all<R>(
    alloc: Global,
    records: &mut R,
    cfg: &mut SpannedConfig,
) -> Result<(), AllocError>
where
    R: Records + ExactRecords + PeekableRecords + RecordsMut<String>,
    R::Cell: CellText,
    requires well { R.is_well_formed records.old }
    requires fits { Fits cfg.old ((R.grid records.old).rows) ((R.grid records.old).columns) }
    ensures well { R.is_well_formed records.new }
    ensures fits { Fits cfg.new ((R.grid records.new).rows) ((R.grid records.new).columns) }
{
    let format = Format::content(marked);
    formats_keep_merged_cells_fitting::<R, (), _>(&format);
    changes(alloc, records, cfg, &mut (), format)?;
    let format = Format::positioned(placed);
    positioned_formats_keep_merged_cells_fitting::<R, (), _>(&format);
    changes(alloc, records, cfg, &mut (), format)?;
    let dup = Dup::new(Columns::last(), Rows::first());
    duplicates_keep_merged_cells_fitting::<R, (), _, _>(&dup);
    changes(alloc, records, cfg, &mut (), dup)?;
    let charset = Charset::new().clean();
    charsets_keep_merged_cells_fitting::<R, ()>(&charset);
    changes(alloc, records, cfg, &mut (), charset)
}

/// Cuts the lines of every text to n columns, between words.
pub fn wraps_all<R>(
    alloc: Global,
    records: &mut R,
    cfg: &mut SpannedConfig,
    width: usize,
) -> Result<(), AllocError>
where
    R: Records + ExactRecords + PeekableRecords + RecordsMut<String>,
    R::Cell: CellText,
    requires well { R.is_well_formed records.old }
    requires fits { Fits cfg.old ((R.grid records.old).rows) ((R.grid records.old).columns) }
    ensures well { R.is_well_formed records.new }
    ensures fits { Fits cfg.new ((R.grid records.new).rows) ((R.grid records.new).columns) }
{
    let wrap = Width::wrap(width).keep_words(true);
    wraps_keep_merged_cells_fitting::<R, ()>(&wrap);
    changes(alloc, records, cfg, &mut (), wrap)
}

/// Replaces a part of every text, and cuts their lines at n columns.
pub fn shortens_all<R>(
    alloc: Global,
    records: &mut R,
    cfg: &mut SpannedConfig,
    part: &str,
    width: usize,
) -> Result<(), AllocError>
where
    R: Records + ExactRecords + PeekableRecords + RecordsMut<String>,
    R::Cell: CellText,
    requires well { R.is_well_formed records.old }
    requires fits { Fits cfg.old ((R.grid records.old).rows) ((R.grid records.old).columns) }
    ensures well { R.is_well_formed records.new }
    ensures fits { Fits cfg.new ((R.grid records.new).rows) ((R.grid records.new).columns) }
{
    let replace = Replace::new(part, "-");
    replacements_keep_merged_cells_fitting::<R, ()>(replace);
    changes(alloc, records, cfg, &mut (), replace)?;
    let cut = Width::truncate(width).suffix("...");
    truncates_keep_merged_cells_fitting::<R, ()>(cut);
    changes(alloc, records, cfg, &mut (), cut)
}

/// In the middle of an entity, after one more span of columns, merged cells lie inside the table, and of two
/// that share a cell, one begins in the other.
pub fn one_span_more(_size: usize)
    requires { 1 ≤ _size }
    ensures { (p : Position) (m : SpanMap) (rows columns : ℕ) → p.row < rows → p.col < columns →
        Midway m rows columns → Midway (grown_each axis.Columns _size columns m (p ∷ [])) rows columns }
{
    spans_fit_midway(Axis::Columns, _size);
}
