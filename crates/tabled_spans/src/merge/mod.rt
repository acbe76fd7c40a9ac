//! Equal neighbours made one cell.

ghost use Rattle.std.specs.Prelude.{◌≡◌, IsOk, OnErr, OnOk};
ghost use Rattle.tabled_grid.specs.Grid.{map_grid};
ghost use Rattle.tabled_grid.specs.declared.config.entity.Entity.TheVariants.{Global};
ghost use Rattle.tabled_grid.specs.declared.records.axis.Axis.TheVariants.{Columns, Rows};
ghost use Rattle.tabled_spans.specs.Runs.{Merges, MergesRuns, NamesNoNeighbours};
ghost use Rattle.std.proofs.Common.{rules};

mod anchored;
mod block;
mod each;
mod lines;
mod runs;

use crate::merge::block::has_neighbours;
use crate::merge::each::merge_each;
use crate::merge::runs::runs_of;
use std::alloc::{AllocError, Global};
use tabled_grid::config::{Entity, SpannedConfig};
use tabled_grid::records::{Axis, CellText, ExactRecords, PeekableRecords, Records};
use tabled_options::{CellOption, TableOption};

/// Makes equal neighbours one cell.
///
/// With `Merge::vertical`,
///
/// ```text
/// +---+---+      +---+---+
/// | a | b |      | a | b |
/// +---+---+      +   +---+
/// | a | c |  ->  |   | c |
/// +---+---+      +   +---+
/// | a | b |      |   | b |
/// +---+---+      +---+---+
/// ```
///
/// As a table option it goes over all columns, or all rows. As a cell option, which is of this project, it joins
/// the runs among the cells that an entity names: `table.modify(alloc, Columns::first(), Merge::vertical())`
/// those of the first column. To merge cells of one's choice, give the first of them a size, as by
/// `table.modify(alloc, (0, 1), Span::row(2))`.
///
/// Ported from `tabled::settings::Merge`.
#[derive(Debug)]
pub struct Merge;

impl Merge {
    /// Equal neighbours in columns.
    ///
    /// Ported from `tabled::settings::Merge::vertical`.
    pub fn vertical() -> MergeDuplicatesVertical {
        MergeDuplicatesVertical
    }

    /// Equal neighbours in rows.
    ///
    /// Ported from `tabled::settings::Merge::horizontal`.
    pub fn horizontal() -> MergeDuplicatesHorizontal {
        MergeDuplicatesHorizontal
    }
}

/// Makes each longest run of cells in a column that have equal texts one merged cell (r x c). Cells that
/// are merged or hidden already stay as they are, and end a run.
///
/// Refused for memory, it leaves the table as it was.
///
/// Ported from `tabled::settings::merge::MergeDuplicatesVertical`.
#[derive(Clone, Copy, Debug)]
pub struct MergeDuplicatesVertical;

impl<R, D> TableOption<R, SpannedConfig, D> for MergeDuplicatesVertical
where
    R: Records + ExactRecords + PeekableRecords,
    R::Cell: CellText,
{
    ghost does = { λ _. Merges R.Cell.text_of Rows Global };

    fn change(
        self,
        alloc: Global,
        records: &mut R,
        cfg: &mut SpannedConfig,
        _dimension: &mut D,
    ) -> Result<(), AllocError> {
        merge_runs(alloc, records, cfg, Axis::Rows, Entity::Global)
    }

    fn hint_change(&self) -> Option<Entity> {
        Some(Entity::Global)
    }

    ghost acts_like = { Prim.search rules };
}

/// Joins the runs among the cells of the table that the entity names: those of a column, or of each column. On a
/// row and on a cell it changes nothing, and takes no memory.
///
/// Refused for memory, it leaves the table as it was.
///
/// Of this project.
impl<R> CellOption<R, SpannedConfig> for MergeDuplicatesVertical
where
    R: Records + ExactRecords + PeekableRecords,
    R::Cell: CellText,
{
    ghost does = { λ _. Merges R.Cell.text_of Rows };

    ghost never_refused = { λ _ e g _. NamesNoNeighbours Rows e g };

    fn change(
        self,
        alloc: Global,
        records: &mut R,
        cfg: &mut SpannedConfig,
        entity: Entity,
    ) -> Result<(), AllocError> {
        merge_runs(alloc, records, cfg, Axis::Rows, entity)
    }

    fn change_at_once<I>(
        &self,
        alloc: Global,
        records: &mut R,
        cfg: &mut SpannedConfig,
        entities: I,
    ) -> Result<Option<I>, AllocError>
    where
        I: Iterator<Item = Entity> + Drop,
    {
        merge_each(alloc, records, cfg, Axis::Rows, entities)?;
        Ok(None)
    }

    fn hint_change(&self) -> Option<Entity> {
        Some(Entity::Global)
    }

    ghost acts_like = { Prim.search rules };
}

/// Makes each longest run of cells in a row that have equal texts one merged cell (r x c). Cells that are
/// merged or hidden already stay as they are, and end a run.
///
/// Refused for memory, it leaves the table as it was.
///
/// Ported from `tabled::settings::merge::MergeDuplicatesHorizontal`.
#[derive(Clone, Copy, Debug)]
pub struct MergeDuplicatesHorizontal;

impl<R, D> TableOption<R, SpannedConfig, D> for MergeDuplicatesHorizontal
where
    R: Records + ExactRecords + PeekableRecords,
    R::Cell: CellText,
{
    ghost does = { λ _. Merges R.Cell.text_of Columns Global };

    fn change(
        self,
        alloc: Global,
        records: &mut R,
        cfg: &mut SpannedConfig,
        _dimension: &mut D,
    ) -> Result<(), AllocError> {
        merge_runs(alloc, records, cfg, Axis::Columns, Entity::Global)
    }

    fn hint_change(&self) -> Option<Entity> {
        Some(Entity::Global)
    }

    ghost acts_like = { Prim.search rules };
}

/// Joins the runs among the cells of the table that the entity names: those of a row, or of each row. On a column
/// and on a cell it changes nothing, and takes no memory.
///
/// Refused for memory, it leaves the table as it was.
///
/// Of this project.
impl<R> CellOption<R, SpannedConfig> for MergeDuplicatesHorizontal
where
    R: Records + ExactRecords + PeekableRecords,
    R::Cell: CellText,
{
    ghost does = { λ _. Merges R.Cell.text_of Columns };

    ghost never_refused = { λ _ e g _. NamesNoNeighbours Columns e g };

    fn change(
        self,
        alloc: Global,
        records: &mut R,
        cfg: &mut SpannedConfig,
        entity: Entity,
    ) -> Result<(), AllocError> {
        merge_runs(alloc, records, cfg, Axis::Columns, entity)
    }

    fn change_at_once<I>(
        &self,
        alloc: Global,
        records: &mut R,
        cfg: &mut SpannedConfig,
        entities: I,
    ) -> Result<Option<I>, AllocError>
    where
        I: Iterator<Item = Entity> + Drop,
    {
        merge_each(alloc, records, cfg, Axis::Columns, entities)?;
        Ok(None)
    }

    fn hint_change(&self) -> Option<Entity> {
        Some(Entity::Global)
    }

    ghost acts_like = { Prim.search rules };
}

/// Makes each run along an axis, among the cells that an entity names, one merged cell.
///
/// Where it names no two neighbours, this takes no memory. Refused, it leaves the map as it was.
fn merge_runs<R>(
    alloc: Global,
    records: &R,
    cfg: &mut SpannedConfig,
    axis: Axis,
    entity: Entity,
) -> Result<(), AllocError>
where
    R: Records + ExactRecords + PeekableRecords,
    R::Cell: CellText,
    requires { R.is_well_formed records.now }
    ensures ok { OnOk result (MergesRuns axis entity (map_grid R.Cell.text_of (R.grid records.now)) cfg.old cfg.new) }
    ensures err { OnErr result (cfg.new ≡ cfg.old) }
    ensures promised { NamesNoNeighbours axis entity (R.grid records.now) → IsOk result }
{
    let block = entity.block(records.count_rows(), records.count_columns());
    if !has_neighbours(axis, block.size) {
        return Ok(());
    }
    let sizes = runs_of(alloc, records, cfg, axis, entity)?;
    cfg.set_sizes(alloc, &sizes)?;
    Ok(())
}
