//! Spans back from a place, or over all of a line, visible or not.

ghost use Rattle.std.specs.Prelude.{◌≡◌, ◌+◌, ◌<◌, ◌≤◌, ◌^◌, ℕ, [], IfOk, IsOk, OnErr, OnOk};
ghost use Rattle.std.specs.List.{AllByRecursion};
ghost use Rattle.tabled_grid.specs.Entity.{inside};
ghost use Rattle.tabled_grid.specs.Spans.{AreSorted, with_sizes};
ghost use Rattle.tabled_grid.specs.Rectangles.{HasArea};
ghost use Rattle.tabled_grid.specs.declared.config.position.Position.{Position};
ghost use Rattle.tabled_grid.specs.Grid.{IsInside};
ghost use Rattle.tabled_options.specs.Writes.{FirstWritten, SameOrFirstWrites, Written};
ghost use Rattle.tabled_grid.specs.Axis.{in_line, with_span};
ghost use Rattle.tabled_spans.specs.Spanned.{pull_writes_on, pulled, pulled_on, pulling};

use crate::span::along::taken;
use std::alloc::{AllocError, Global};
use tabled_grid::config::{Entity, Position, Rectangle, SpannedConfig, search};
use tabled_grid::records::{Axis, CellText, ExactRecords, PeekableRecords, Records, RecordsMut};

/// Gives a place a height or a width among the changes of `cfg`, of which the later one counts.
fn put_span(
    changes: &mut Vec<Rectangle>,
    cfg: &SpannedConfig,
    axis: Axis,
    pos: Position,
    many: usize,
) -> Result<(), AllocError>
    requires sorted { AreSorted changes.old.items }
    requires full { AllByRecursion HasArea changes.old.items }
    requires some { 1 ≤ many }
    ensures sorted { OnOk result (AreSorted changes.new.items) }
    ensures full { OnOk result (AllByRecursion HasArea changes.new.items) }
    ensures sizes { OnOk result (with_sizes cfg.now changes.new.items ≡ with_span axis (with_sizes cfg.now changes.old.items) pos many) }
{
    match search(changes, pos) {
        Ok(k) => {
            let size = axis.resized(changes[k].size, many);
            changes[k] = Rectangle { first: pos, size };
        }
        Err(k) => {
            let size = axis.resized(cfg.size(pos), many);
            changes.insert(k, Rectangle { first: pos, size })?;
        }
    }
    Ok(())
}

/// The new sizes that spans leave, one at each place that an entity names in a table (`rows x columns`).
fn changes(
    alloc: Global,
    cfg: &SpannedConfig,
    axis: Axis,
    back: Option<usize>,
    entity: Entity,
    rows: usize,
    columns: usize,
) -> Result<Vec<Rectangle>, AllocError>
    ensures sorted { IfOk result (λ changes. AreSorted changes.items) }
    ensures full { IfOk result (λ changes. AllByRecursion HasArea changes.items) }
    ensures sizes { IfOk result (λ changes. with_sizes cfg.now changes.items ≡ pulled_on axis back entity rows columns cfg.now) }
{
    let count = axis.count_of(rows, columns);
    let mut changes = Vec::new(alloc);
    for pos in entity.iter(rows, columns) {
        let (first, many) = taken(back, count, axis.line_of(pos));
        put_span(&mut changes, cfg, axis, axis.in_line(pos, first), many)?;
    }
    Ok(changes)
}

/// The merged cells of a table (`rows x columns`) after a span at each place that an entity names,
/// without those that are hidden then.
fn pulled(
    alloc: Global,
    cfg: &SpannedConfig,
    axis: Axis,
    back: Option<usize>,
    entity: Entity,
    rows: usize,
    columns: usize,
) -> Result<SpannedConfig, AllocError>
    ensures { IfOk result (λ spans. spans ≡ pulled axis back entity rows columns cfg.now) }
{
    let changes = changes(alloc, cfg, axis, back, entity, rows, columns)?;
    let mut spans = cfg.copy(alloc)?;
    spans.set_sizes(alloc, &changes)?;
    spans.drop_hidden();
    Ok(spans)
}

/// Writes the text of a place to the first of the cells that a span takes, and empties the others.
///
/// Refused for memory, it leaves its first writes.
fn pull<R>(
    alloc: Global,
    records: &mut R,
    axis: Axis,
    pos: Position,
    first: usize,
    many: usize,
) -> Result<(), AllocError>
where
    R: PeekableRecords + RecordsMut<String>,
    R::Cell: CellText,
    requires well { R.is_well_formed records.old }
    requires here { IsInside (R.grid records.old) pos }
    requires some { 1 ≤ many }
    requires within { (k : ℕ) → first ≤ k → k < first + many → IsInside (R.grid records.old) (in_line axis pos k) }
    requires end { first + many < 2 ^ 64 }
    ensures well { R.is_well_formed records.new }
    ensures rows { (R.grid records.new).rows ≡ (R.grid records.old).rows }
    ensures columns { (R.grid records.new).columns ≡ (R.grid records.old).columns }
    ensures ok { OnOk result (Written R.Cell.text_of (pulling axis pos (first, many)) (R.grid records.old) (R.grid records.new)) }
    ensures err { OnErr result (FirstWritten R.Cell.text_of (pulling axis pos (first, many)) (R.grid records.old) (R.grid records.new)) }
{
    let text = String::from_str(alloc, records.get_text(pos))?;
    records.set(alloc, axis.in_line(pos, first), text)?;
    for k in first + 1..first + many {
        records.set(alloc, axis.in_line(pos, k), String::new(alloc))?;
    }
    Ok(())
}

/// Does so at each place that an entity names, one after another. Refused for memory, it leaves its
/// first writes.
fn pull_texts<R>(
    alloc: Global,
    records: &mut R,
    axis: Axis,
    back: Option<usize>,
    entity: Entity,
) -> Result<(), AllocError>
where
    R: Records + ExactRecords + PeekableRecords + RecordsMut<String>,
    R::Cell: CellText,
    requires { R.is_well_formed records.old }
    ensures well { R.is_well_formed records.new }
    ensures ok { OnOk result (Written R.Cell.text_of (pull_writes_on axis back entity) (R.grid records.old) (R.grid records.new)) }
    ensures err { OnErr result (FirstWritten R.Cell.text_of (pull_writes_on axis back entity) (R.grid records.old) (R.grid records.new)) }
{
    let rows = records.count_rows();
    let columns = records.count_columns();
    let count = axis.count_of(rows, columns);
    for pos in entity.iter(rows, columns) {
        let (first, many) = taken(back, count, axis.line_of(pos));
        pull(alloc, records, axis, pos, first, many)?;
    }
    Ok(())
}

/// Pulls the text of each place that an entity names to the first of the cells that a span takes there,
/// merges these, and drops what is hidden then.
///
/// Where no cell is named, it takes no memory. Refused for memory, it leaves all as it was or the writes before
/// one of its own, and the merged cells as they were.
pub(super) fn pull_each<R>(
    alloc: Global,
    records: &mut R,
    cfg: &mut SpannedConfig,
    axis: Axis,
    back: Option<usize>,
    entity: Entity,
) -> Result<(), AllocError>
where
    R: Records + ExactRecords + PeekableRecords + RecordsMut<String>,
    R::Cell: CellText,
    requires { R.is_well_formed records.old }
    ensures well { R.is_well_formed records.new }
    ensures texts { OnOk result (Written R.Cell.text_of (pull_writes_on axis back entity) (R.grid records.old) (R.grid records.new)) }
    ensures spans { OnOk result (cfg.new ≡ pulled axis back entity ((R.grid records.old).rows) ((R.grid records.old).columns) cfg.old) }
    ensures err { OnErr result (SameOrFirstWrites R.Cell.text_of (pull_writes_on axis back entity) (R.grid records.old) cfg.old (R.grid records.new) cfg.new) }
    ensures promised { inside entity ((R.grid records.old).rows) ((R.grid records.old).columns) ≡ [] → IsOk result }
{
    let rows = records.count_rows();
    let columns = records.count_columns();
    if entity.iter(rows, columns).next().is_none() {
        cfg.drop_hidden();
        return Ok(());
    }

    // The map is made first: where it is refused, no text was written.
    let spans = pulled(alloc, cfg, axis, back, entity, rows, columns)?;
    pull_texts(alloc, records, axis, back, entity)?;
    *cfg = spans;
    Ok(())
}
