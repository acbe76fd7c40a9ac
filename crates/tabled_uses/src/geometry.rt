//! Merged cells that lie inside a table and apart: callers that rely on it, done or refused. A law says of
//! an option that it keeps this, so a caller calls the law, and then changes a table by the option.

ghost use Rattle.tabled_grid.specs.Fitting.{Fits};
ghost use Rattle.tabled_grid.specs.declared.config.entity.Entity.{Entity};
ghost use Rattle.tabled_grid.specs.declared.records.axis.Axis.TheVariants.{Columns};
ghost use Rattle.tabled_options.specs.Does.{OptionKeeps};
ghost use Rattle.tabled_spans.specs.Spanned.{IsFlat};

use std::alloc::{AllocError, Global};
use tabled_grid::config::{Entity, SpannedConfig};
use tabled_grid::records::{
    CellText, ExactRecords, GridStore, PeekableRecords, Records, RecordsMut, Resizable,
};
use tabled_options::laws::{
    modified_keep, settings_keep, strings_keep_merged_cells_fitting, vectors_keep,
};
use tabled_options::{
    CellOption, MergedCellsFit, Modify, ModifyList, Property, Settings, TableOption,
};
use tabled_select::object::{Object, Rows};
use tabled_settings::merge::Merge;
use tabled_settings::panel::{Header, Panel};
use tabled_settings::rotate::Rotate;
use tabled_settings::span::{ColumnSpansFit, RowSpan, Span};
use tabled_spans::laws::{
    footers_keep_merged_cells_fitting, headers_keep_merged_cells_fitting,
    horizontal_panels_keep_merged_cells_fitting, merges_keep_merged_cells_fitting,
    spans_along_lines_fit, spans_of_size_1_or_more_fit, vertical_panels_keep_merged_cells_fitting,
};
use tabled_steps::{Select, Step, run};

/// Runs steps that all keep merged cells fitting, and says how many of them were done.
pub fn runs_fitting_steps<R>(
    alloc: Global,
    records: &mut R,
    cfg: &mut SpannedConfig,
) -> Result<usize, AllocError>
where
    R: Records + ExactRecords + PeekableRecords + RecordsMut<String> + Resizable,
    R::Cell: CellText,
    requires well { R.is_well_formed records.old }
    requires fits { Fits cfg.old ((R.grid records.old).rows) ((R.grid records.old).columns) }
    ensures well { R.is_well_formed records.new }
    ensures fits { Fits cfg.new ((R.grid records.new).rows) ((R.grid records.new).columns) }
{
    let text = String::from_str(alloc, "x")?;
    let title = String::from_str(alloc, "Report")?;
    let steps = vec![in alloc;
        Step::Set(Select::FirstRow, text),
        Step::ColumnSpan(2, Select::All),
        Step::Header(Panel::header(title)),
        Step::MergeVertical(Merge::vertical()),
        Step::Rotate(Rotate::Left),
    ]?;
    let many = steps.len();
    match run(alloc, records, cfg, steps) {
        Ok(()) => Ok(many),
        Err((done, _)) => Ok(done),
    }
}

/// Changes a table by an option that keeps merged cells fitting.
pub fn changes<R, D, T>(
    alloc: Global,
    records: &mut R,
    cfg: &mut SpannedConfig,
    dimension: &mut D,
    option: T,
) -> Result<(), AllocError>
where
    R: GridStore,
    T: TableOption<R, SpannedConfig, D>,
    requires well { R.is_well_formed records.old }
    requires can { T.can_change option }
    requires keeps { OptionKeeps ⟦<MergedCellsFit as Property<R::Cell, SpannedConfig>>⟧.holds (T.does option) (T.leaves option) }
    requires fits { Fits cfg.old ((R.grid records.old).rows) ((R.grid records.old).columns) }
    ensures well { R.is_well_formed records.new }
    ensures fits { Fits cfg.new ((R.grid records.new).rows) ((R.grid records.new).columns) }
{
    option.change(alloc, records, cfg, dimension)?;
    Ok(())
}

/// An option on cells that keeps merged cells fitting on each entity does so on what an object lists.
fn listed_keep<R, D, O, M>(_object: &O, _option: &M)
where
    R: Records + ExactRecords,
    O: Object<R> + Drop,
    M: CellOption<R, SpannedConfig> + Clone,
    requires { (e : Entity) → OptionKeeps ⟦<MergedCellsFit as Property<R::Cell, SpannedConfig>>⟧.holds (M.does _option.now e) (M.leaves _option.now e) }
    ensures { OptionKeeps ⟦<MergedCellsFit as Property<R::Cell, SpannedConfig>>⟧.holds
        (⟦<ModifyList<O, M> as TableOption<R, SpannedConfig, D>>⟧.does (_object.now, _option.now))
        (⟦<ModifyList<O, M> as TableOption<R, SpannedConfig, D>>⟧.leaves (_object.now, _option.now)) }
{
    modified_keep::<MergedCellsFit, R, SpannedConfig, D, O, M>(_object, _option);
}

/// Changes an entity by an option that keeps merged cells one row high, inside the table and apart.
fn changes_flat<R, M>(
    alloc: Global,
    records: &mut R,
    cfg: &mut SpannedConfig,
    option: M,
    entity: Entity,
) -> Result<(), AllocError>
where
    R: GridStore,
    M: CellOption<R, SpannedConfig>,
    requires well { R.is_well_formed records.old }
    requires can { M.can_change option }
    requires keeps { OptionKeeps ⟦<ColumnSpansFit as Property<R::Cell, SpannedConfig>>⟧.holds (M.does option entity) (M.leaves option entity) }
    requires fits { Fits cfg.old ((R.grid records.old).rows) ((R.grid records.old).columns) }
    requires flat { IsFlat Columns cfg.old }
    ensures well { R.is_well_formed records.new }
    ensures fits { Fits cfg.new ((R.grid records.new).rows) ((R.grid records.new).columns) }
    ensures flat { IsFlat Columns cfg.new }
{
    option.change(alloc, records, cfg, entity)
}

/// Spans back from each cell of the first row, where all merged cells are one row high.
pub fn spans_back<R>(
    alloc: Global,
    records: &mut R,
    cfg: &mut SpannedConfig,
) -> Result<(), AllocError>
where
    R: Records + ExactRecords + PeekableRecords + RecordsMut<String>,
    R::Cell: CellText,
    requires well { R.is_well_formed records.old }
    requires fits { Fits cfg.old ((R.grid records.old).rows) ((R.grid records.old).columns) }
    requires flat { IsFlat Columns cfg.old }
    ensures well { R.is_well_formed records.new }
    ensures fits { Fits cfg.new ((R.grid records.new).rows) ((R.grid records.new).columns) }
    ensures flat { IsFlat Columns cfg.new }
{
    let span = Span::column(-1);
    spans_along_lines_fit::<R>(span, Span::row(1));
    changes_flat(alloc, records, cfg, span, Entity::Row(0))
}

/// One option and then another, both of which keep merged cells fitting.
pub fn changes_by_settings<R, D, A, B>(
    alloc: Global,
    records: &mut R,
    cfg: &mut SpannedConfig,
    dimension: &mut D,
    first: A,
    second: B,
) -> Result<(), AllocError>
where
    R: GridStore,
    A: TableOption<R, SpannedConfig, D>,
    B: TableOption<R, SpannedConfig, D> + Drop,
    requires well { R.is_well_formed records.old }
    requires first_can { A.can_change first }
    requires second_can { B.can_change second }
    requires first_keeps { OptionKeeps ⟦<MergedCellsFit as Property<R::Cell, SpannedConfig>>⟧.holds (A.does first) (A.leaves first) }
    requires second_keeps { OptionKeeps ⟦<MergedCellsFit as Property<R::Cell, SpannedConfig>>⟧.holds (B.does second) (B.leaves second) }
    requires fits { Fits cfg.old ((R.grid records.old).rows) ((R.grid records.old).columns) }
    ensures well { R.is_well_formed records.new }
    ensures fits { Fits cfg.new ((R.grid records.new).rows) ((R.grid records.new).columns) }
{
    settings_keep::<MergedCellsFit, R, SpannedConfig, D, A, B>(&first, &second);
    changes(alloc, records, cfg, dimension, Settings::new(first, second))
}

/// Texts in the first row, and then spans from its places on.
pub fn writes_and_spans<R>(
    alloc: Global,
    records: &mut R,
    cfg: &mut SpannedConfig,
    text: String,
) -> Result<(), AllocError>
where
    R: Records + ExactRecords + PeekableRecords + RecordsMut<String>,
    R::Cell: CellText,
    requires well { R.is_well_formed records.old }
    requires fits { Fits cfg.old ((R.grid records.old).rows) ((R.grid records.old).columns) }
    ensures well { R.is_well_formed records.new }
    ensures fits { Fits cfg.new ((R.grid records.new).rows) ((R.grid records.new).columns) }
{
    let rows = Rows::first();
    let span = Span::row(3);
    strings_keep_merged_cells_fitting::<R>(&text);
    listed_keep::<R, (), _, String>(&rows, &text);
    spans_of_size_1_or_more_fit::<R>(Span::column(1), span);
    listed_keep::<R, (), _, RowSpan>(&rows, &span);
    let texts = Modify::list(rows, text);
    let spans = Modify::list(rows, span);
    changes_by_settings(alloc, records, cfg, &mut (), texts, spans)
}

/// Puts in a header and a footer as a pair, and two headers as a list.
pub fn frames<R>(
    alloc: Global,
    records: &mut R,
    cfg: &mut SpannedConfig,
    text: &str,
) -> Result<(), AllocError>
where
    R: Records + ExactRecords + RecordsMut<String> + Resizable,
    R::Cell: CellText,
    requires well { R.is_well_formed records.old }
    requires fits { Fits cfg.old ((R.grid records.old).rows) ((R.grid records.old).columns) }
    ensures well { R.is_well_formed records.new }
    ensures fits { Fits cfg.new ((R.grid records.new).rows) ((R.grid records.new).columns) }
{
    let header = Panel::header(String::from_str(alloc, text)?);
    let footer = Panel::footer(String::from_str(alloc, text)?);
    headers_keep_merged_cells_fitting::<R, ()>(&header);
    footers_keep_merged_cells_fitting::<R, ()>(&footer);
    settings_keep::<MergedCellsFit, R, SpannedConfig, (), _, _>(&header, &footer);
    changes(alloc, records, cfg, &mut (), (header, footer))?;
    let first = Panel::header(String::from_str(alloc, text)?);
    let second = Panel::header(String::from_str(alloc, text)?);
    headers_keep_merged_cells_fitting::<R, ()>(&first);
    headers_keep_merged_cells_fitting::<R, ()>(&second);
    let list = vec![in alloc; first, second]?;
    vectors_keep::<MergedCellsFit, R, SpannedConfig, (), Header>(&list);
    changes(alloc, records, cfg, &mut (), list)
}

/// Puts in a row below the second one and a column right of the third one, and merges equal texts.
pub fn widens_and_merges<R>(
    alloc: Global,
    records: &mut R,
    cfg: &mut SpannedConfig,
    text: &str,
) -> Result<(), AllocError>
where
    R: Records + ExactRecords + PeekableRecords + RecordsMut<String> + Resizable,
    R::Cell: CellText,
    requires well { R.is_well_formed records.old }
    requires fits { Fits cfg.old ((R.grid records.old).rows) ((R.grid records.old).columns) }
    ensures well { R.is_well_formed records.new }
    ensures fits { Fits cfg.new ((R.grid records.new).rows) ((R.grid records.new).columns) }
{
    let row = Panel::horizontal(2, String::from_str(alloc, text)?);
    horizontal_panels_keep_merged_cells_fitting::<R, ()>(&row);
    changes(alloc, records, cfg, &mut (), row)?;
    let column = Panel::vertical(3, String::from_str(alloc, text)?);
    vertical_panels_keep_merged_cells_fitting::<R, ()>(&column);
    changes(alloc, records, cfg, &mut (), column)?;
    let merge = Merge::vertical();
    merges_keep_merged_cells_fitting::<R, ()>(&merge, &Merge::horizontal());
    changes(alloc, records, cfg, &mut (), merge)
}
