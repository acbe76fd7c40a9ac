//! Spans over visible cells, from a place on.

ghost use Rattle.std.specs.Prelude.{◌≡◌, ◌+◌, ◌<◌, ◌≤◌, ◌++◌, ◌^◌, pos, IfOk, IsOk, OnErr, OnOk};
ghost use Rattle.std.specs.List.{AllByRecursion};
ghost use Rattle.tabled_grid.specs.Axis.{line_of, lines_in};
ghost use Rattle.tabled_grid.specs.Covers.{IsCoverOf};
ghost use Rattle.tabled_grid.specs.Rectangles.{HasArea, In};
ghost use Rattle.tabled_grid.specs.Spans.{AreSorted, SpanMap, with_sizes};
ghost use Rattle.tabled_grid.specs.declared.config.position.Position.{Position};
ghost use Rattle.tabled_spans.specs.Spanned.{SpanTakesNoMemory, are_visible, grown, grown_on, with_visible_span};
ghost use Rattle.tabled_spans.specs.SpanSteps.{ForEachCovered, InReach, change_at};

use std::alloc::{AllocError, Global};
use tabled_grid::config::{CoverMap, Entity, Position, Rectangle, Size, SpannedConfig};
use tabled_grid::records::Axis;

/// Says whether n cells are all visible, from a place on.
///
/// A hidden one that it meets is kept as the line's hint, and is asked first for the next place. So it
/// goes over no cell of a line twice.
fn is_free(cover: &CoverMap, axis: Axis, pos: Position, many: usize, hint: &mut usize) -> bool
    requires inside { In cover.now.block pos }
    requires within { line_of axis pos + many ≤ line_of axis cover.now.block.first + lines_in axis cover.now.block.size }
    requires end { line_of axis pos + many < 2 ^ 64 }
    ensures { (m : SpanMap) → IsCoverOf m cover.now → result ≡ are_visible axis m pos many }
{
    let first = axis.line_of(pos);
    let end = first + many;
    let known = *hint;
    if first <= known && known < end && cover.is_hidden(axis.in_line(pos, known)) {
        return false;
    }
    for k in first..end {
        if cover.is_hidden(axis.in_line(pos, k)) {
            *hint = k;
            return false;
        }
    }
    true
}

/// Adds the new size at a place to the changes and to the cover map, if n cells from there on are
/// all visible.
fn grow_at(
    alloc: Global,
    cover: &mut CoverMap,
    changes: &mut Vec<Rectangle>,
    cfg: &SpannedConfig,
    axis: Axis,
    pos: Position,
    many: usize,
    hint: &mut usize,
) -> Result<(), AllocError>
    requires inside { In cover.old.block pos }
    requires some { 1 ≤ many }
    requires within { line_of axis pos + many ≤ line_of axis cover.old.block.first + lines_in axis cover.old.block.size }
    requires end { line_of axis pos + many < 2 ^ 64 }
    ensures ok { ForEachCovered cover.old cfg.now pos (λ m. OnOk result (changes.new.items ≡ changes.old.items ++ change_at axis m pos many)) }
    ensures full { AllByRecursion HasArea changes.old.items → OnOk result (AllByRecursion HasArea changes.new.items) }
    ensures block { cover.new.block ≡ cover.old.block }
    ensures cover { ForEachCovered cover.old cfg.now pos (λ m. OnOk result (IsCoverOf (with_sizes m (change_at axis m pos many)) cover.new)) }
{
    if !is_free(cover, axis, pos, many, hint) {
        return Ok(());
    }
    let old = cfg.size(pos);
    let new = axis.resized(old, many);
    cover.replace(pos, old, new);
    changes.push(Rectangle {
        first: pos,
        size: new,
    })?;
    Ok(())
}

/// The cells that spans take from those of a block on, cut at the last of n rows or columns.
fn reach(axis: Axis, size: usize, block: Rectangle, count: usize) -> Rectangle
    requires { line_of axis block.first + lines_in axis block.size ≤ count }
    ensures { (p : Position) → In block p → InReach axis size count result p }
{
    let left = count - axis.line_of(block.first);
    let many = axis.lines_in(block.size).saturating_add(size).min(left);
    Rectangle {
        first: block.first,
        size: axis.resized(block.size, many),
    }
}

/// The new sizes that spans leave, one from each place on that an entity names in a table (`rows x columns`).
fn changes(
    alloc: Global,
    cfg: &SpannedConfig,
    axis: Axis,
    size: usize,
    entity: Entity,
    rows: usize,
    columns: usize,
) -> Result<Vec<Rectangle>, AllocError>
    requires { 1 ≤ size }
    ensures sorted { IfOk result (λ changes. AreSorted changes.items) }
    ensures full { IfOk result (λ changes. AllByRecursion HasArea changes.items) }
    ensures sizes { IfOk result (λ changes. with_sizes cfg.now changes.items ≡ grown_on axis size entity rows columns cfg.now) }
{
    let count = axis.count_of(rows, columns);
    let block = reach(axis, size, entity.block(rows, columns), count);
    let mut cover = CoverMap::of_block(alloc, cfg, block)?;
    // A hint for each line that spans go along: a column for spans of rows, a row for those of columns.
    let across = axis.across();
    let mut hints = vec![in alloc; 0; across.lines_in(block.size)]?;
    let mut changes = Vec::new(alloc);
    for pos in entity.iter(rows, columns) {
        let index = axis.line_of(pos);
        let many = size.min(count - index);
        let line = across.line_of(pos);
        let hint = &mut hints[line - across.line_of(block.first)];
        grow_at(alloc, &mut cover, &mut changes, cfg, axis, pos, many, hint)?;
    }
    Ok(changes)
}

/// Merges n cells from a place on, if they are all visible. Refused for memory, it changes nothing.
fn grow_one(
    alloc: Global,
    cfg: &mut SpannedConfig,
    axis: Axis,
    pos: Position,
    many: usize,
) -> Result<(), AllocError>
    requires some { 1 ≤ many }
    requires row { pos.row + 1 < 2 ^ 64 }
    requires col { pos.col + 1 < 2 ^ 64 }
    requires end { line_of axis pos + many < 2 ^ 64 }
    ensures ok { OnOk result (cfg.new ≡ with_visible_span axis cfg.old pos many) }
    ensures err { OnErr result (cfg.new ≡ cfg.old) }
    ensures promised { many ≤ 1 → IsOk result }
{
    let block = Rectangle {
        first: pos,
        size: axis.resized(Size::CELL, many),
    };
    let cover = CoverMap::of_block(alloc, cfg, block)?;
    let mut hint = axis.line_of(pos);
    if !is_free(&cover, axis, pos, many, &mut hint) {
        return Ok(());
    }
    cfg.set_span(alloc, axis, pos, many)
}

/// Merges cells from each place on that an entity names in a table (`rows x columns`), and drops what is
/// hidden then. Refused for memory, it changes nothing.
pub(super) fn grow(
    alloc: Global,
    cfg: &mut SpannedConfig,
    axis: Axis,
    size: usize,
    entity: Entity,
    rows: usize,
    columns: usize,
) -> Result<(), AllocError>
    requires { 1 ≤ size }
    ensures ok { OnOk result (cfg.new ≡ grown axis size entity rows columns cfg.old) }
    ensures err { OnErr result (cfg.new ≡ cfg.old) }
    ensures promised { SpanTakesNoMemory (pos size) entity rows columns → IsOk result }
{
    let mut places = entity.iter(rows, columns);
    if let Some(pos) = places.next() {
        if places.next().is_none() {
            // One size is set at once, without a list of changes.
            let left = axis.count_of(rows, columns) - axis.line_of(pos);
            grow_one(alloc, cfg, axis, pos, size.min(left))?;
        } else {
            let changes = changes(alloc, cfg, axis, size, entity, rows, columns)?;
            cfg.set_sizes(alloc, &changes)?;
        }
    }
    cfg.drop_hidden();
    Ok(())
}
