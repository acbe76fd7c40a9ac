//! Laws of merged cells. Each is the contract of a function that does nothing.

ghost use Rattle.std.specs.Prelude.{List, pos, ℕ, ◌<ℤ◌, ◌≡◌, ◌≤◌};
ghost use Rattle.tabled_grid.specs.Grid.{Grid};
ghost use Rattle.tabled_grid.specs.Spans.{SpanMap, empty};
ghost use Rattle.tabled_grid.specs.declared.config.entity.Entity.{Entity};
ghost use Rattle.tabled_grid.specs.declared.config.entity.Entity.TheVariants.{Cell, Column, Row};
ghost use Rattle.tabled_grid.specs.declared.config.position.Position.{Position};
ghost use Rattle.tabled_grid.specs.declared.records.axis.Axis.{Axis};
ghost use Rattle.tabled_grid.specs.declared.records.axis.Axis.TheVariants.{Columns, Rows};
ghost use Rattle.tabled_options.specs.Kept.{KeptOnEach};
ghost use Rattle.tabled_options.specs.Shapes.{FitsAfterEach};
ghost use Rattle.tabled_spans.specs.Runs.{IsNamed, JoinsIfEqual, MergedIsRun, MergesRuns, NamesNoNeighbours, RunIsMerged, further};
ghost use Rattle.tabled_grid.specs.declared.config.size.Size.{Size};
ghost use Rattle.tabled_spans.specs.Keeping.{KeepsFitting};
ghost use Rattle.tabled_spans.specs.Spanned.{KeepsMidway};

use crate::merge::{MergeDuplicatesHorizontal, MergeDuplicatesVertical};
use crate::panel::{Footer, Header, HorizontalPanel, VerticalPanel};
use crate::span::{ColumnSpan, ColumnSpansFit, RowSpan, RowSpansFit};
use tabled_grid::config::SpannedConfig;
use tabled_grid::records::{
    Axis, CellText, ExactRecords, PeekableRecords, Records, RecordsMut, Resizable,
};
use tabled_options::{CellOption, Property, TableOption};

/// Spans of size 1 or more keep, on each entity, that merged cells lie inside the table and apart, also
/// where they are refused.
pub fn spans_of_size_1_or_more_fit<R>(_columns: ColumnSpan, _rows: RowSpan)
where
    R: Records + ExactRecords + PeekableRecords + RecordsMut<String>,
    R::Cell: CellText,
    ensures columns { let how = ⟦<ColumnSpan as CellOption<R, SpannedConfig>>⟧ in pos 0 <ℤ _columns → FitsAfterEach (how.does _columns) (how.leaves _columns) }
    ensures rows { let how = ⟦<RowSpan as CellOption<R, SpannedConfig>>⟧ in pos 0 <ℤ _rows → FitsAfterEach (how.does _rows) (how.leaves _rows) }
{}

/// In the middle of an entity, after such spans at some places of a table, merged cells lie inside it,
/// and of two that share a cell, one begins in the other.
pub fn spans_fit_midway(_axis: Axis, _size: usize)
    ensures { (places : List Position) (m : SpanMap) (rows columns : ℕ) → 1 ≤ _size → KeepsMidway _axis _size places m rows columns }
{}

/// Where all merged cells are one row high, inside the table and apart, spans of columns of any size keep
/// that on each entity, also where they are refused. Spans of rows keep it where all are one column wide.
pub fn spans_along_lines_fit<R>(_columns: ColumnSpan, _rows: RowSpan)
where
    R: Records + ExactRecords + PeekableRecords + RecordsMut<String>,
    R::Cell: CellText,
    ensures columns { KeptOnEach ⟦<ColumnSpansFit as Property<R::Cell, SpannedConfig>>⟧.holds ⟦<ColumnSpan as CellOption<R, SpannedConfig>>⟧ _columns }
    ensures rows { KeptOnEach ⟦<RowSpansFit as Property<R::Cell, SpannedConfig>>⟧.holds ⟦<RowSpan as CellOption<R, SpannedConfig>>⟧ _rows }
{}

/// A horizontal panel keeps merged cells inside the table and apart, also where it is refused.
pub fn horizontal_panels_keep_merged_cells_fitting<R, D>(_panel: &HorizontalPanel)
where
    R: Records + ExactRecords + Resizable + RecordsMut<String>,
    R::Cell: CellText,
    ensures { KeepsFitting ⟦<HorizontalPanel as TableOption<R, SpannedConfig, D>>⟧ _panel.now }
{}

/// So does a vertical panel.
pub fn vertical_panels_keep_merged_cells_fitting<R, D>(_panel: &VerticalPanel)
where
    R: Records + ExactRecords + Resizable + RecordsMut<String>,
    R::Cell: CellText,
    ensures { KeepsFitting ⟦<VerticalPanel as TableOption<R, SpannedConfig, D>>⟧ _panel.now }
{}

/// So does a header.
pub fn headers_keep_merged_cells_fitting<R, D>(_header: &Header)
where
    R: Records + ExactRecords + Resizable + RecordsMut<String>,
    R::Cell: CellText,
    ensures { KeepsFitting ⟦<Header as TableOption<R, SpannedConfig, D>>⟧ _header.now }
{}

/// So does a footer.
pub fn footers_keep_merged_cells_fitting<R, D>(_footer: &Footer)
where
    R: Records + ExactRecords + Resizable + RecordsMut<String>,
    R::Cell: CellText,
    ensures { KeepsFitting ⟦<Footer as TableOption<R, SpannedConfig, D>>⟧ _footer.now }
{}

/// Merges keep merged cells inside the table and apart, also where they are refused.
pub fn merges_keep_merged_cells_fitting<R, D>(
    _vertical: &MergeDuplicatesVertical,
    _horizontal: &MergeDuplicatesHorizontal,
)
where
    R: Records + ExactRecords + PeekableRecords,
    R::Cell: CellText,
    ensures vertical { KeepsFitting ⟦<MergeDuplicatesVertical as TableOption<R, SpannedConfig, D>>⟧ _vertical.now }
    ensures horizontal { KeepsFitting ⟦<MergeDuplicatesHorizontal as TableOption<R, SpannedConfig, D>>⟧ _horizontal.now }
{}

/// So do they on each entity.
pub fn merges_on_entities_keep_merged_cells_fitting<R>(
    _vertical: MergeDuplicatesVertical,
    _horizontal: MergeDuplicatesHorizontal,
)
where
    R: Records + ExactRecords + PeekableRecords,
    R::Cell: CellText,
    ensures vertical { let how = ⟦<MergeDuplicatesVertical as CellOption<R, SpannedConfig>>⟧ in FitsAfterEach (how.does _vertical) (how.leaves _vertical) }
    ensures horizontal { let how = ⟦<MergeDuplicatesHorizontal as CellOption<R, SpannedConfig>>⟧ in FitsAfterEach (how.does _horizontal) (how.leaves _horizontal) }
{}

/// Where an entity names no two neighbours along an axis, a merge along it changes nothing: a vertical one on a
/// row or a cell, and a horizontal one on a column or a cell.
pub fn merges_without_neighbours_change_nothing()
    ensures same { (axis : Axis) (e : Entity) (g : Grid (List ℕ)) (m n : SpanMap) → NamesNoNeighbours axis e g → MergesRuns axis e g m n → n ≡ m }
    ensures row { (i : ℕ) (g : Grid (List ℕ)) → NamesNoNeighbours Rows (Row i) g }
    ensures column { (j : ℕ) (g : Grid (List ℕ)) → NamesNoNeighbours Columns (Column j) g }
    ensures cell { (axis : Axis) (i j : ℕ) (g : Grid (List ℕ)) → NamesNoNeighbours axis (Cell i j) g }
{}

/// Runs that are merged once are merged: a second merge of the same entity along the same axis changes nothing.
pub fn merged_twice_is_merged_once()
    ensures { (axis : Axis) (e : Entity) (g : Grid (List ℕ)) (m n k : SpanMap) → MergesRuns axis e g m n → MergesRuns axis e g n k → k ≡ n }
{}

/// Without merged cells, a vertical merge of an entity makes exactly the longest runs of two or more equal texts
/// among its cells in a column one merged cell each. Rows alike.
pub fn exactly_the_runs_are_merged()
    ensures merged { (axis : Axis) (e : Entity) (g : Grid (List ℕ)) (n : SpanMap) (p : Position) (many : ℕ) → MergesRuns axis e g empty n → RunIsMerged axis e g n p many }
    ensures no_others { (axis : Axis) (e : Entity) (g : Grid (List ℕ)) (n : SpanMap) (p : Position) (size : Size) → MergesRuns axis e g empty n → MergedIsRun axis e g n p size }
    ensures joined { (axis : Axis) (e : Entity) (g : Grid (List ℕ)) (p : Position) → IsNamed e g p → IsNamed e g (further axis 1 p) → JoinsIfEqual axis e g p }
{}
