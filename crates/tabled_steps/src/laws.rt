//! Laws of steps. Each is the contract of a function that does nothing.

ghost use Rattle.std.specs.Prelude.{List, ℕ};
ghost use Rattle.tabled_grid.specs.Grid.{Grid, IsEven};
ghost use Rattle.tabled_grid.specs.Spans.{SpanMap, with_sizes};
ghost use Rattle.tabled_grid.specs.declared.config.entity.Entity.{Entity};
ghost use Rattle.tabled_grid.specs.declared.records.axis.Axis.{Axis};
ghost use Rattle.tabled_grid.specs.declared.records.axis.Axis.TheVariants.{Columns, Rows};
ghost use Rattle.tabled_options.specs.Does.{Each};
ghost use Rattle.tabled_settings.specs.Named.{all_columns_named, all_rows_named};
ghost use Rattle.tabled_settings.specs.declared.line_names.ColumnName.{ColumnName};
ghost use Rattle.tabled_settings.specs.declared.line_names.RowName.{RowName};
ghost use Rattle.tabled_spans.specs.Runs.{MergesRuns};
ghost use Rattle.tabled_steps.specs.Acts.{ActAs, FitsAfterOption, InTurn, KeepsNamed, ListTheSame, Makes, OnEach, OnObjects, RemovesNamed, RemovesRange, Within};
ghost use Rattle.tabled_steps.specs.Fitting.{KeepsCellsFitting};
ghost use Rattle.tabled_steps.specs.MergedRuns.{runs};
ghost use Rattle.tabled_steps.specs.States.{Becomes, EndAlike, State, after, after_all};
ghost use Rattle.tabled_steps.specs.Steps.{Does, Names};
ghost use Rattle.tabled_steps.specs.declared.select.Select.{Select};
ghost use Rattle.tabled_steps.specs.declared.step.Step.{Step};
ghost use Rattle.tabled_steps.specs.declared.step.Step.TheVariants as step;

use crate::select::Select;
use crate::step::Step;
use tabled_grid::config::{SpannedConfig, ToBounds};
use tabled_grid::records::{
    CellText, ExactRecords, GridStore, PeekableRecords, Records, RecordsMut, Resizable,
};
use tabled_options::{CellOption, Settings, TableOption};
use tabled_select::location::Location;
use tabled_select::object::Object;
use tabled_settings::concat::Concat;
use tabled_settings::disable::{Remove, Target};
use tabled_settings::duplicate::Dup;
use tabled_settings::extract::Extract;
use tabled_settings::formatting::Charset;
use tabled_settings::keep::Keep;
use tabled_settings::reverse::Reverse;
use tabled_settings::rotate::Rotate;
use tabled_settings::sort::Sort;
use tabled_settings::split::Split;
use tabled_settings::width::{Truncate, Wrap};
use tabled_spans::merge::{MergeDuplicatesHorizontal, MergeDuplicatesVertical};
use tabled_spans::panel::{Footer, Header, HorizontalPanel, VerticalPanel};
use tabled_spans::span::{ColumnSpan, RowSpan};

/// What a step does, and what steps do one after another, is what their formulas make of texts and merged
/// cells.
pub fn steps_do_what_their_formulas_say<R: GridStore>()
where
    R::Cell: CellText,
    ensures one { (step : Step) → Makes (Does R.Cell.is_blank R.Cell.text_of step) (Becomes R.Cell.text_of (after step)) }
    ensures all { (steps : List Step) → Makes (Each (Does R.Cell.is_blank R.Cell.text_of) steps) (Becomes R.Cell.text_of (after_all steps)) }
{}

/// The formulas of steps keep a table even: as many texts in each row as there are columns.
pub fn formulas_keep_tables_even()
    ensures one { (step : Step) (s : State) → IsEven s.texts → IsEven (after step s).texts }
    ensures all { (steps : List Step) (s : State) → IsEven s.texts → IsEven (after_all steps s).texts }
{}

/// The runs that the formula of a merge lists are the longest ones of two or more cells next to each other
/// that an entity names, are visible and no anchors, and have equal texts: in the map with their sizes exactly
/// they are merged.
pub fn listed_runs_are_the_longest_ones()
    ensures merges { (axis : Axis) (e : Entity) (g : Grid (List ℕ)) (m : SpanMap) → MergesRuns axis e g m (with_sizes m (runs axis e g m)) }
{}

/// Two stores, of whatever kind, with equal texts and merged cells have equal ones after the same steps.
pub fn stores_end_alike<A: GridStore, B: GridStore>()
where
    A::Cell: CellText,
    B::Cell: CellText,
    ensures alike { (steps : List Step) → EndAlike A.Cell.is_blank A.Cell.text_of B.Cell.is_blank B.Cell.text_of steps }
{}

/// Steps but spans of size 0 or below keep merged cells inside the table and apart, also where they are
/// refused.
pub fn steps_keep_merged_cells_fitting<R, D>(_step: &Step)
where
    R: Records + ExactRecords + PeekableRecords + RecordsMut<String> + Resizable,
    R::Cell: CellText,
    ensures table { KeepsCellsFitting _step.now → FitsAfterOption ⟦<Step as TableOption<R, SpannedConfig, D>>⟧ _step.now }
{}

/// A step with a selector does, and refused leaves, what its option does and leaves on each entity that the
/// selector names, which are those that it lists.
pub fn steps_do_what_cell_options_do<R>()
where
    R: Records + ExactRecords + PeekableRecords + RecordsMut<String> + Resizable,
    R::Cell: CellText,
    ensures lists { let object = ⟦<Select as Object<R>>⟧ in (select : Select) → ListTheSame (object.lists select) (Names R.Cell.text_of select) }
    ensures set { OnEach R.Cell.is_blank R.Cell.text_of (λ text to. step.Set to text) ⟦<String as CellOption<R, SpannedConfig>>⟧ }
    ensures charset { OnEach R.Cell.is_blank R.Cell.text_of step.Charset ⟦<Charset as CellOption<R, SpannedConfig>>⟧ }
    ensures wrap { OnEach R.Cell.is_blank R.Cell.text_of step.Wrap ⟦<Wrap as CellOption<R, SpannedConfig>>⟧ }
    ensures truncate { OnEach R.Cell.is_blank R.Cell.text_of step.Truncate ⟦<Truncate<'static> as CellOption<R, SpannedConfig>>⟧ }
    ensures column_span { OnEach R.Cell.is_blank R.Cell.text_of step.ColumnSpan ⟦<ColumnSpan as CellOption<R, SpannedConfig>>⟧ }
    ensures row_span { OnEach R.Cell.is_blank R.Cell.text_of step.RowSpan ⟦<RowSpan as CellOption<R, SpannedConfig>>⟧ }
    ensures vertical { OnEach R.Cell.is_blank R.Cell.text_of (λ _. step.Merge Rows) ⟦<MergeDuplicatesVertical as CellOption<R, SpannedConfig>>⟧ }
    ensures horizontal { OnEach R.Cell.is_blank R.Cell.text_of (λ _. step.Merge Columns) ⟦<MergeDuplicatesHorizontal as CellOption<R, SpannedConfig>>⟧ }
{}

/// A step around an option on tables does, and refused leaves, what the option does and leaves.
pub fn steps_do_what_options_do<R, D>()
where
    R: Records + ExactRecords + PeekableRecords + RecordsMut<String> + Resizable,
    R::Cell: CellText,
    ensures horizontal_panel { ActAs R.Cell.is_blank R.Cell.text_of step.HorizontalPanel ⟦<HorizontalPanel as TableOption<R, SpannedConfig, D>>⟧ }
    ensures vertical_panel { ActAs R.Cell.is_blank R.Cell.text_of step.VerticalPanel ⟦<VerticalPanel as TableOption<R, SpannedConfig, D>>⟧ }
    ensures header { ActAs R.Cell.is_blank R.Cell.text_of step.Header ⟦<Header as TableOption<R, SpannedConfig, D>>⟧ }
    ensures footer { ActAs R.Cell.is_blank R.Cell.text_of step.Footer ⟦<Footer as TableOption<R, SpannedConfig, D>>⟧ }
    ensures merge_vertical { ActAs R.Cell.is_blank R.Cell.text_of step.MergeVertical ⟦<MergeDuplicatesVertical as TableOption<R, SpannedConfig, D>>⟧ }
    ensures merge_horizontal { ActAs R.Cell.is_blank R.Cell.text_of step.MergeHorizontal ⟦<MergeDuplicatesHorizontal as TableOption<R, SpannedConfig, D>>⟧ }
    ensures rotate { ActAs R.Cell.is_blank R.Cell.text_of step.Rotate ⟦<Rotate as TableOption<R, SpannedConfig, D>>⟧ }
    ensures reverse { ActAs R.Cell.is_blank R.Cell.text_of step.Reverse ⟦<Reverse as TableOption<R, SpannedConfig, D>>⟧ }
    ensures sort { ActAs R.Cell.is_blank R.Cell.text_of step.Sort ⟦<Sort as TableOption<R, SpannedConfig, D>>⟧ }
    ensures split { ActAs R.Cell.is_blank R.Cell.text_of step.Split ⟦<Split as TableOption<R, SpannedConfig, D>>⟧ }
    ensures concat { ActAs R.Cell.is_blank R.Cell.text_of step.Concat ⟦<Concat as TableOption<R, SpannedConfig, D>>⟧ }
{}

/// Two steps in one do, and refused leave, what two options do and leave one after the other, where each of
/// the steps does and leaves what its option does and leaves.
pub fn both_steps_do_what_both_options_do<R, D, A, B>(_one: &A, _other: &B)
where
    R: GridStore,
    R::Cell: CellText,
    A: TableOption<R, SpannedConfig, D>,
    B: TableOption<R, SpannedConfig, D> + Drop,
    ensures { InTurn R.Cell.is_blank R.Cell.text_of A.TableOption B.TableOption ⟦<Settings<A, B> as TableOption<R, SpannedConfig, D>>⟧ _one.now _other.now }
{}

/// A step that writes texts of cells to others does, and refused leaves, what `Dup` does and leaves with any
/// objects that list what the step's selectors name.
pub fn dup_steps_do_what_dup_does<R, D, Dst, Src>(_dup: &Dup<Dst, Src>)
where
    R: Records + ExactRecords + PeekableRecords + RecordsMut<String>,
    R::Cell: CellText,
    Dst: Object<R> + Drop,
    Src: Object<R> + Drop,
    ensures acts { OnObjects R.Cell.is_blank R.Cell.text_of step.Dup Dst.Object Src.Object ⟦<Dup<Dst, Src> as TableOption<R, SpannedConfig, D>>⟧ _dup.now }
{}

/// A step that keeps a range of rows and one of columns does, and refused leaves, what `Extract` does and
/// leaves with any ranges of these bounds.
pub fn extract_steps_do_what_extract_does<R, D, A, B>(_how: &Extract<A, B>)
where
    A: ToBounds + Drop,
    B: ToBounds + Drop,
    R: Records + ExactRecords + Resizable,
    R::Cell: CellText,
    ensures acts { Within R.Cell.is_blank R.Cell.text_of step.Extract A.ToBounds B.ToBounds ⟦<Extract<A, B> as TableOption<R, SpannedConfig, D>>⟧ _how.now }
{}

/// A step that takes away a range of rows or of columns, or the columns of a name, does, and refused leaves,
/// what `Remove` does and leaves with any location that finds these.
pub fn remove_steps_do_what_remove_does<R, D, L, T>(_how: &Remove<L, T>)
where
    T: Target,
    L: Location<R, Coordinate = usize> + Drop,
    <L::IntoIter as IntoIterator>::IntoIter: Drop,
    R: Records + ExactRecords + Resizable,
    R::Cell: CellText,
    ensures rows { RemovesRange R.Cell.is_blank R.Cell.text_of Rows T.lines L.Location ⟦<Remove<L, T> as TableOption<R, SpannedConfig, D>>⟧ _how.now }
    ensures columns { RemovesRange R.Cell.is_blank R.Cell.text_of Columns T.lines L.Location ⟦<Remove<L, T> as TableOption<R, SpannedConfig, D>>⟧ _how.now }
    ensures named { RemovesNamed R.Cell.is_blank R.Cell.text_of T.lines L.Location ⟦<Remove<L, T> as TableOption<R, SpannedConfig, D>>⟧ _how.now }
{}

/// A step that keeps the rows, or the columns, of names does, and refused leaves, what `Keep` does and leaves with
/// any location that finds these.
pub fn keep_steps_do_what_keep_does<R, D, L, T>(_how: &Keep<L, T>)
where
    T: Target,
    L: Location<R, Coordinate = usize> + Drop,
    <L::IntoIter as IntoIterator>::IntoIter: Drop,
    R: Records + ExactRecords + Resizable,
    R::Cell: CellText,
    ensures rows { (names : List RowName) → KeepsNamed R.Cell.is_blank R.Cell.text_of Rows T.lines (all_rows_named names) L.Location (step.KeepRows names) ⟦<Keep<L, T> as TableOption<R, SpannedConfig, D>>⟧ _how.now }
    ensures columns { (names : List ColumnName) → KeepsNamed R.Cell.is_blank R.Cell.text_of Columns T.lines (all_columns_named names) L.Location (step.KeepColumns names) ⟦<Keep<L, T> as TableOption<R, SpannedConfig, D>>⟧ _how.now }
{}
