//! Runs merged on many entities at once.

ghost use Rattle.std.specs.Iterator.{AlwaysYields, IsFinite};
ghost use Rattle.std.specs.Prelude.{◌≡◌, false, filter, get_or, IfOk, IsOk, List, OnErr, OnOk, [], length};
ghost use Rattle.tabled_grid.specs.Along.{count_along};
ghost use Rattle.tabled_grid.specs.Axis.{across};
ghost use Rattle.tabled_grid.specs.Grid.{map_grid};
ghost use Rattle.tabled_grid.specs.declared.config.rectangle.Rectangle.{Rectangle};
ghost use Rattle.tabled_grid.specs.declared.config.entity.Entity.{Entity};
ghost use Rattle.tabled_spans.specs.Lines.{AreMany, MergesEach, RunsIn, is_among, line_at};

use crate::merge::block::{block_of_lines, has_neighbours};
use crate::merge::lines::{NamedLines, marked_range};
use crate::merge::runs::{runs_in_block, runs_of};
use std::alloc::{AllocError, Global};
use tabled_grid::config::{Entity, Rectangle, SpannedConfig};
use tabled_grid::records::{Axis, CellText, ExactRecords, PeekableRecords, Records, shape_of};

/// Makes each run along an axis, among the cells that each of some entities names, one merged cell: what comes of
/// one entity after another, since runs lie in lines of their own.
///
/// One entity costs its cells, and more of them one walk over the lines from the first of theirs to the last one.
/// Refused, it leaves the map as it was.
pub(super) fn merge_each<R, I>(
    alloc: Global,
    records: &R,
    cfg: &mut SpannedConfig,
    axis: Axis,
    entities: I,
) -> Result<(), AllocError>
where
    R: Records + ExactRecords + PeekableRecords,
    R::Cell: CellText,
    I: Iterator<Item = Entity> + Drop,
    requires well { R.is_well_formed records.now }
    requires next { I.can_next entities }
    requires ends { IsFinite (I.remaining entities) }
    ensures ok { (items : List Entity) → AlwaysYields I.next_gives (λ e. e) entities items → OnOk result (MergesEach axis items (map_grid R.Cell.text_of (R.grid records.now)) cfg.old cfg.new) }
    ensures err { OnErr result (cfg.new ≡ cfg.old) }
    ensures none { AlwaysYields I.next_gives (λ e. e) entities [] → IsOk result }
{
    let size = shape_of(records);
    if !has_neighbours(axis, size) {
        return Ok(());
    }
    let lines = NamedLines::named_by(alloc, axis, axis.across().count(records), entities)?;
    if let NamedLines::Nothing = lines {
        return Ok(());
    }
    let sizes = runs_in(alloc, records, cfg, axis, &lines)?;
    cfg.set_sizes(alloc, &sizes)?;
    Ok(())
}

/// The first cell of each run in some lines, and the size of the run, row by row.
fn runs_in<R>(
    alloc: Global,
    records: &R,
    cfg: &SpannedConfig,
    axis: Axis,
    lines: &NamedLines,
) -> Result<Vec<Rectangle>, AllocError>
where
    R: Records + ExactRecords + PeekableRecords,
    R::Cell: CellText,
    requires well { R.is_well_formed records.now }
    requires many { AreMany (count_along (across axis) (R.grid records.now)) lines.now }
    ensures { IfOk result (λ sizes. RunsIn axis (is_among axis lines.now) (map_grid R.Cell.text_of (R.grid records.now)) cfg.now sizes.items) }
{
    match lines {
        NamedLines::Nothing => Ok(Vec::new(alloc)),
        NamedLines::Of(entity) => runs_of(alloc, records, cfg, axis, *entity),
        NamedLines::Marked(marks) => runs_marked(alloc, records, cfg, axis, marks),
    }
}

/// The same of the marked lines. It walks the band from the first of them to the last one.
fn runs_marked<R>(
    alloc: Global,
    records: &R,
    cfg: &SpannedConfig,
    axis: Axis,
    marks: &[bool],
) -> Result<Vec<Rectangle>, AllocError>
where
    R: Records + ExactRecords + PeekableRecords,
    R::Cell: CellText,
    requires well { R.is_well_formed records.now }
    requires many { length marks.now ≡ count_along (across axis) (R.grid records.now) }
    ensures { IfOk result (λ sizes. RunsIn axis (λ line. get_or marks.now line false) (map_grid R.Cell.text_of (R.grid records.now)) cfg.now sizes.items) }
{
    let table = shape_of(records);
    let (line, many) = marked_range(marks);
    let band = block_of_lines(axis, table, line, many);
    let mut sizes = runs_in_block(alloc, records, cfg, axis, band)?;
    keep_marked(&mut sizes, axis, marks);
    Ok(sizes)
}

/// Keeps what is anchored in marked lines.
fn keep_marked(sizes: &mut Vec<Rectangle>, axis: Axis, marks: &[bool])
    ensures { sizes.new.items ≡ filter (λ (e : Rectangle). get_or marks.now (line_at axis e.first) false) sizes.old.items }
{
    sizes.retain(|size| is_marked(marks, axis, *size));
}

/// Says whether the line that a rectangle is anchored in is marked.
fn is_marked(marks: &[bool], axis: Axis, anchor: Rectangle) -> bool
    ensures { result ≡ get_or marks.now (line_at axis anchor.first) false }
{
    let line = axis.across().line_of(anchor.first);
    line < marks.len() && marks[line]
}
