//! Laws of what the calls of stores say they do. Each is the contract of a function that does nothing.

ghost use Rattle.std.specs.Prelude.{◌≡◌, ◌+◌, ◌<◌, ◌≤◌, ℕ, Some, false, true};
ghost use Rattle.std.specs.Ordering.{nat_cmp};
ghost use Rattle.std.specs.declared.cmp.Ordering.TheVariants.{Less};
ghost use Rattle.tabled_grid.specs.Entity.{place};
ghost use Rattle.tabled_grid.specs.Midway.{Flat, Midway, Narrow, LieWithin};
ghost use Rattle.tabled_grid.specs.Rectangles.{In};
ghost use Rattle.tabled_grid.specs.Hidden.{drop_hidden, is_visible};
ghost use Rattle.tabled_grid.specs.Fitting.{Fits};
ghost use Rattle.tabled_grid.specs.Axis.{line_of};
ghost use Rattle.tabled_grid.specs.Shifts.{is_crossed, shifted};
ghost use Rattle.tabled_grid.specs.Spans.{IsSpan, SpanMap, get, position_cmp, rectangle, size_at, with_column_span, with_row_span, with_size};
ghost use Rattle.tabled_grid.specs.declared.config.position.Position.{Position};
ghost use Rattle.tabled_grid.specs.declared.config.entity.Entity.TheVariants.{Cell, Column, Global, Row};
ghost use Rattle.tabled_grid.specs.declared.config.offset.Offset.TheVariants.{End, Start};
ghost use Rattle.tabled_grid.specs.declared.records.axis.Axis.{Axis};
ghost use Rattle.tabled_grid.specs.declared.records.axis.Axis.TheVariants.{Columns, Rows};
ghost use Rattle.tabled_grid.specs.Resized.{with_cells_swapped, with_columns_swapped, with_rows_swapped};
ghost use Rattle.tabled_grid.specs.declared.config.size.Size.{Size};

use crate::config::{Entity, Offset, Position};
use crate::records::GridStore;

/// A row swapped with itself changes nothing.
pub fn equal_rows_swapped_change_nothing<R: GridStore>(_records: &R, _i: usize)
    ensures { with_rows_swapped (R.grid _records.now) _i _i ≡ R.grid _records.now }
{}

/// A column swapped with itself changes nothing.
pub fn equal_columns_swapped_change_nothing<R: GridStore>(_records: &R, _j: usize)
    ensures { with_columns_swapped (R.grid _records.now) _j _j ≡ R.grid _records.now }
{}

/// A cell swapped with itself changes nothing.
pub fn equal_cells_swapped_change_nothing<R: GridStore>(_records: &R, _pos: Position)
    ensures { with_cells_swapped (R.grid _records.now) _pos _pos ≡ R.grid _records.now }
{}

/// Places are ordered by row, and then by column.
pub fn places_in_order(_a: Position, _b: Position)
    ensures { ⟦<Position as Ord>⟧.cmp _a _b ≡ position_cmp _a _b }
{}

/// Entities are ordered by their kind: all cells, a column, a row, a cell.
pub fn kinds_of_entities_in_order(_i: usize, _j: usize, _pos: Position)
    ensures all_and_column { ⟦<Entity as Ord>⟧.cmp Global (Column _j) ≡ Less }
    ensures column_and_row { ⟦<Entity as Ord>⟧.cmp (Column _j) (Row _i) ≡ Less }
    ensures row_and_cell { ⟦<Entity as Ord>⟧.cmp (Row _i) (Cell _pos.row _pos.col) ≡ Less }
{}

/// Entities of one kind are ordered by their row, and then by their column.
pub fn entities_of_a_kind_in_order(_a: Position, _b: Position)
    ensures columns { ⟦<Entity as Ord>⟧.cmp (Column _a.col) (Column _b.col) ≡ nat_cmp _a.col _b.col }
    ensures rows { ⟦<Entity as Ord>⟧.cmp (Row _a.row) (Row _b.row) ≡ nat_cmp _a.row _b.row }
    ensures cells { ⟦<Entity as Ord>⟧.cmp (Cell _a.row _a.col) (Cell _b.row _b.col) ≡ position_cmp _a _b }
{}

/// Offsets from the start come before those from the end, and each kind by how far.
pub fn offsets_in_order(_n: usize, _m: usize)
    ensures kinds { ⟦<Offset as Ord>⟧.cmp (Start _n) (End _m) ≡ Less }
    ensures starts { ⟦<Offset as Ord>⟧.cmp (Start _n) (Start _m) ≡ nat_cmp _n _m }
    ensures ends { ⟦<Offset as Ord>⟧.cmp (End _n) (End _m) ≡ nat_cmp _n _m }
{}

/// Spans over visible cells, one after another, and then without hidden anchors, keep merged cells
/// inside and apart: what holds in between is `Midway`.
pub fn spans_over_visible_cells_fit_once_hidden_anchors_go()
    ensures starts { (m : SpanMap) (rows columns : ℕ) → Fits m rows columns → Midway m rows columns }
    ensures wider { (m : SpanMap) (p : Position) (width rows columns : ℕ) → 1 ≤ width → p.row < rows → p.col + width ≤ columns → ((j : ℕ) → p.col ≤ j → j < p.col + width → is_visible m (place p.row j) ≡ true) → Midway m rows columns → Midway (with_column_span m p width) rows columns }
    ensures higher { (m : SpanMap) (p : Position) (height rows columns : ℕ) → 1 ≤ height → p.col < columns → p.row + height ≤ rows → ((i : ℕ) → p.row ≤ i → i < p.row + height → is_visible m (place i p.col) ≡ true) → Midway m rows columns → Midway (with_row_span m p height) rows columns }
    ensures ends { (m : SpanMap) (rows columns : ℕ) → Midway m rows columns → Fits (drop_hidden m) rows columns }
{}

/// Where all heights are 1, widths may be set over any cells, hidden ones too. Heights alike.
pub fn flat_spans_fit_once_hidden_anchors_go()
    ensures flat { (m : SpanMap) (rows columns : ℕ) → Flat (size_at m) → LieWithin (size_at m) rows columns → Fits (drop_hidden m) rows columns × Flat (size_at (drop_hidden m)) }
    ensures narrow { (m : SpanMap) (rows columns : ℕ) → Narrow (size_at m) → LieWithin (size_at m) rows columns → Fits (drop_hidden m) rows columns × Narrow (size_at (drop_hidden m)) }
{}

/// A rectangle over cells that no other has keeps merged cells inside and apart.
pub fn a_rectangle_over_free_cells_fits()
    ensures { (m : SpanMap) (p : Position) (size : Size) (rows columns : ℕ) → IsSpan size → p.row + size.height ≤ rows → p.col + size.width ≤ columns → ((a q : Position) (s : Size) → get m a ≡ Some s → In (rectangle a s) q → In (rectangle p size) q → a ≡ p) → Fits m rows columns → Fits (with_size m p size) rows columns }
{}

/// Rectangles that don't cross a line which is put in fit the table with one line more, and leave that
/// line free.
pub fn shifted_rectangles_fit()
    ensures rows { (m : SpanMap) (line rows columns : ℕ) → is_crossed Rows line m ≡ false → Fits m rows columns → Fits (shifted Rows line m) (rows + 1) columns }
    ensures columns { (m : SpanMap) (line rows columns : ℕ) → is_crossed Columns line m ≡ false → Fits m rows columns → Fits (shifted Columns line m) rows (columns + 1) }
    ensures free { (axis : Axis) (m : SpanMap) (line : ℕ) (a q : Position) (size : Size) → is_crossed axis line m ≡ false → get (shifted axis line m) a ≡ Some size → In (rectangle a size) q → line_of axis q ≡ line → ⊥ }
{}
