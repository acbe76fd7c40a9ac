//! Runs of equal neighbours along an axis, among the cells of a block.

ghost use Rattle.std.specs.Prelude.{◌≡◌, ◌+◌, ◌<◌, ◌≤◌, ◌^◌, IfOk, IsNone, IsTrue, length, true};
ghost use Rattle.std.specs.Option.{IfSome};
ghost use Rattle.tabled_grid.specs.Axis.{line_of};
ghost use Rattle.tabled_grid.specs.Covers.{IsCoverOf};
ghost use Rattle.tabled_grid.specs.Grid.{IsInside, map_grid};
ghost use Rattle.tabled_grid.specs.Rectangles.{In};
ghost use Rattle.tabled_grid.specs.declared.config.entity.Entity.{Entity};
ghost use Rattle.tabled_grid.specs.declared.config.position.Position.{Position};
ghost use Rattle.tabled_spans.specs.RunSteps.{AreRunsIn, AreTailsIn, IsBand, IsRunIn, RunsOf, StandBelow, TellsJoins};
ghost use Rattle.tabled_spans.specs.Runs.{further, is_free};

use crate::merge::anchored::{is_anchor, up_to_row};
use std::alloc::{AllocError, Global};
use tabled_grid::config::{CoverMap, Entity, Position, Rectangle, Size, SpannedConfig};
use tabled_grid::records::{Axis, CellText, ExactRecords, PeekableRecords, Records};

/// The first cell of each run among the cells that an entity names, and the size of the run, row by row.
pub(super) fn runs_of<R>(
    alloc: Global,
    records: &R,
    cfg: &SpannedConfig,
    axis: Axis,
    entity: Entity,
) -> Result<Vec<Rectangle>, AllocError>
where
    R: Records + ExactRecords + PeekableRecords,
    R::Cell: CellText,
    requires { R.is_well_formed records.now }
    ensures { IfOk result (λ sizes. RunsOf axis entity (map_grid R.Cell.text_of (R.grid records.now)) cfg.now sizes.items) }
{
    let block = entity.block(records.count_rows(), records.count_columns());
    runs_in_block(alloc, records, cfg, axis, block)
}

/// The first cell of each run among the cells of a block and the size of the run, row by row.
///
/// It takes time and memory for the cells of the block alone.
pub(super) fn runs_in_block<R>(
    alloc: Global,
    records: &R,
    cfg: &SpannedConfig,
    axis: Axis,
    block: Rectangle,
) -> Result<Vec<Rectangle>, AllocError>
where
    R: Records + ExactRecords + PeekableRecords,
    R::Cell: CellText,
    requires well { R.is_well_formed records.now }
    requires block { (e : Entity) × IsBand axis e (map_grid R.Cell.text_of (R.grid records.now)) block }
    requires bottom { block.first.row + block.size.height < 2 ^ 64 }
    requires right { block.first.col + block.size.width < 2 ^ 64 }
    ensures { IfOk result (λ sizes. AreRunsIn axis (map_grid R.Cell.text_of (R.grid records.now)) cfg.now block sizes.items) }
{
    let cover = CoverMap::of_block(alloc, cfg, block)?;
    runs(alloc, records, cfg, &cover, axis, block)
}

/// The same, of a block that is covered.
///
/// It goes back from the last cell, so that a run's length is known at its first cell.
fn runs<R>(
    alloc: Global,
    records: &R,
    cfg: &SpannedConfig,
    cover: &CoverMap,
    axis: Axis,
    block: Rectangle,
) -> Result<Vec<Rectangle>, AllocError>
where
    R: Records + ExactRecords + PeekableRecords,
    R::Cell: CellText,
    requires well { R.is_well_formed records.now }
    requires block { (e : Entity) × IsBand axis e (map_grid R.Cell.text_of (R.grid records.now)) block }
    requires bottom { block.first.row + block.size.height < 2 ^ 64 }
    requires right { block.first.col + block.size.width < 2 ^ 64 }
    requires covered { cover.now.block ≡ block }
    requires cover { IsCoverOf cfg.now cover.now }
    ensures { IfOk result (λ sizes. AreRunsIn axis (map_grid R.Cell.text_of (R.grid records.now)) cfg.now block sizes.items) }
{
    let Rectangle { first, size } = block;
    let mut sizes = Vec::new(alloc);
    let mut lengths = vec![in alloc; 1; size.width]?;
    let mut ahead = cfg.rectangles().len();
    for i in (first.row..first.row + size.height).rev() {
        ahead = up_to_row(cfg, i, ahead);
        for j in (first.col..first.col + size.width).rev() {
            let pos = Position { row: i, col: j };
            let many = run_from(records, cfg, cover, ahead, axis, block, &mut lengths, pos);
            if many > 1 {
                let size = axis.resized(Size::CELL, many);
                sizes.push(Rectangle { first: pos, size })?;
            }
        }
    }
    sizes.reverse();
    Ok(sizes)
}

/// How many cells the run has that begins at a cell of a block; 0 or 1 where none begins.
///
/// `lengths` has, for the next cell of each of the block's columns that the walk comes to, how many cells join
/// one another from there on. All anchors but the first `ahead` stand in rows that the walk has left.
fn run_from<R>(
    records: &R,
    cfg: &SpannedConfig,
    cover: &CoverMap,
    ahead: usize,
    axis: Axis,
    block: Rectangle,
    lengths: &mut [usize],
    pos: Position,
) -> usize
where
    R: Records + ExactRecords + PeekableRecords,
    R::Cell: CellText,
    requires well { R.is_well_formed records.now }
    requires block { (e : Entity) × IsBand axis e (map_grid R.Cell.text_of (R.grid records.now)) block }
    requires covered { cover.now.block ≡ block }
    requires cover { IsCoverOf cfg.now cover.now }
    requires bottom { block.first.row + block.size.height < 2 ^ 64 }
    requires right { block.first.col + block.size.width < 2 ^ 64 }
    requires inside { In block pos }
    requires ahead { StandBelow cfg.now pos.row ahead }
    requires width { length lengths.old ≡ block.size.width }
    requires lengths { AreTailsIn axis (map_grid R.Cell.text_of (R.grid records.now)) cfg.now block pos.row (pos.col + 1) lengths.old }
    ensures run { IsRunIn axis (map_grid R.Cell.text_of (R.grid records.now)) cfg.now block pos result }
    ensures lengths { AreTailsIn axis (map_grid R.Cell.text_of (R.grid records.now)) cfg.now block pos.row pos.col lengths.new }
{
    let left = block.first.col;
    let many = lengths[pos.col - left];
    let Some(last) = before(axis, block, pos) else {
        return many;
    };
    if joins(records, cfg, cover, ahead, axis, last, pos, many > 1) {
        lengths[last.col - left] = many + 1;
        return 0;
    }
    lengths[last.col - left] = 1;
    many
}

/// Says whether a cell of a covered block joins the next one along an axis: both are visible and no anchors,
/// and have equal texts.
///
/// Of a next one that is known to be `free`, only its text is asked.
fn joins<R>(
    records: &R,
    cfg: &SpannedConfig,
    cover: &CoverMap,
    ahead: usize,
    axis: Axis,
    pos: Position,
    next: Position,
    free: bool,
) -> bool
where
    R: Records + ExactRecords + PeekableRecords,
    R::Cell: CellText,
    requires well { R.is_well_formed records.now }
    requires cover { IsCoverOf cfg.now cover.now }
    requires here { In cover.now.block pos }
    requires there { In cover.now.block next }
    requires inside { IsInside (R.grid records.now) next }
    requires next { further axis 1 pos ≡ next }
    requires ahead { StandBelow cfg.now next.row ahead }
    requires free { IsTrue free → is_free cfg.now next ≡ true }
    ensures { TellsJoins axis (map_grid R.Cell.text_of (R.grid records.now)) cfg.now pos next (IsTrue result) }
{
    records.get_text(pos) == records.get_text(next)
        && (free || is_free(cfg, cover, ahead, next))
        && is_free(cfg, cover, ahead, pos)
}

/// Says whether a cell of a covered block is visible and no anchor.
fn is_free(cfg: &SpannedConfig, cover: &CoverMap, ahead: usize, pos: Position) -> bool
    requires here { In cover.now.block pos }
    requires cover { IsCoverOf cfg.now cover.now }
    requires ahead { StandBelow cfg.now pos.row ahead }
    ensures { result ≡ is_free cfg.now pos }
{
    !cover.is_hidden(pos) && !is_anchor(cfg, ahead, pos)
}

/// The place before another along an axis, if it is in the block, too.
fn before(axis: Axis, block: Rectangle, pos: Position) -> Option<Position>
    requires { In block pos }
    ensures some { IfSome result (λ last. (further axis 1 last ≡ pos) × In block last) }
    ensures none { IsNone result → line_of axis pos ≡ line_of axis block.first }
{
    let line = axis.line_of(pos);
    if line == axis.line_of(block.first) {
        return None;
    }
    Some(axis.in_line(pos, line - 1))
}
